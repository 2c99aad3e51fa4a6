//! Parsing the parts of an object at the start of a text.
ghost use Rattle.std.specs.Prelude.{◌≡◌, ◌≢◌, ◌==◌, option_map, option_and_then, take_while, length, slice_get, ℕ, List, Some, None, IsSome, IsNone, IfSome, false, ◌⊎◌};
ghost use Rattle.tlv_objects.specs.Tlv.{tag_at, length_at, front_object, begins_short};

/// The number of leading 00 bytes.
pub(crate) fn zeros_in_front(bytes: &[u8]) -> usize
    ensures { result ≡ length (take_while (λ byte. byte == 0) bytes.now) }
{
    bytes.iter().take_while(|byte| **byte == 0).count()
}

/// The tag at the start of a text as a number, as 0x9F02, and the bytes after it. `None` if the tag ends early or has
/// more than three bytes.
#[tactic(auto, unfolding(crate::specs::Tlv::tag_at))]
#[inline(always)]
pub fn read_tag(bytes: &[u8]) -> Option<(u32, &[u8])>
    ensures { option_map (λ found. (found.0, found.1.now)) result ≡ tag_at bytes.now }
{
    let [first, rest @ ..] = bytes else {
        return None;
    };
    if first & 0x1F != 0x1F {
        return Some((u32::from(*first), rest));
    }
    let [second, rest @ ..] = rest else {
        return None;
    };
    let front = u32::from(*first) * 0x100 + u32::from(*second);
    if *second <= 0x7F {
        return Some((front, rest));
    }
    match rest {
        [third @ 0x00..=0x7F, rest @ ..] => Some((front * 0x100 + u32::from(*third), rest)),
        _ => None,
    }
}

/// The length at the start, and the bytes after it.
#[tactic(auto, unfolding(crate::specs::Tlv::length_at))]
#[inline(always)]
fn read_length(bytes: &[u8]) -> Option<(usize, &[u8])>
    ensures { option_map (λ found. (found.0, found.1.now)) result ≡ length_at bytes.now }
{
    let [first, rest @ ..] = bytes else {
        return None;
    };
    if *first <= 0x7F {
        return Some((usize::from(*first), rest));
    }
    match (*first, rest) {
        (0x81, [length, rest @ ..]) => Some((usize::from(*length), rest)),
        (0x82, [high, low, rest @ ..]) => {
            Some((usize::from(*high) * 0x100 + usize::from(*low), rest))
        }
        _ => None,
    }
}

/// The tag and the value of the object at the start, and the bytes after it.
#[tactic(auto, unfolding(crate::specs::Tlv::front_object))]
#[inline(always)]
pub(crate) fn read_object(bytes: &[u8]) -> Option<(u32, &[u8], &[u8])>
    ensures { option_map (λ found. record { tag = found.0; value = found.1.now; rest = found.2.now }) result
        ≡ front_object bytes.now }
{
    let (tag, rest) = read_tag(bytes)?;
    let (length, rest) = read_length(rest)?;
    let (value, rest) = rest.split_at_checked(length)?;
    Some((tag, value, rest))
}

/// The tag and the length of the object at the start, and the bytes after them, if the object begins as most do: with
/// a tag of one or two bytes and a length of one. `None` also for a 00 byte and for fewer than three bytes.
#[tactic(auto, unfolding(crate::specs::Tlv::tag_at, crate::specs::Tlv::length_at, crate::specs::Tlv::begins_short))]
#[inline(always)]
fn read_short_header(bytes: &[u8]) -> Option<(u32, usize, &[u8])>
    ensures header { IfSome result (λ found.
        option_and_then (λ tag. option_map {U = ℕ × ℕ × List ℕ} (λ len. (tag.0, len.0, len.1)) (length_at tag.1))
        (tag_at bytes.now) ≡ Some (found.0, found.1, found.2.now)) }
    ensures first { IsSome result → slice_get bytes.now 0 ≢ Some 0 }
    ensures none { IsNone result → begins_short bytes.now ≡ false }
{
    let [first, second, third, rest @ ..] = bytes else {
        return None;
    };
    let first = u32::from(*first);
    if first & 0x1F == 0x1F {
        if (second | third) > 0x7F {
            return None;
        }
        return Some((
            first * 0x100 + u32::from(*second),
            usize::from(*third),
            rest,
        ));
    }
    if first == 0 || *second > 0x7F {
        return None;
    }
    Some((first, usize::from(*second), &bytes[2..]))
}

/// The tag and the value of the object at the start, and the bytes after it, if the object begins as most do.
#[tactic(auto, unfolding(crate::specs::Tlv::front_object))]
#[inline(always)]
pub(crate) fn read_short_object(bytes: &[u8]) -> Option<(u32, &[u8], &[u8])>
    ensures object { IfSome result (λ found. front_object bytes.now
        ≡ Some (record { tag = found.0; value = found.1.now; rest = found.2.now })) }
    ensures first { IsSome result → slice_get bytes.now 0 ≢ Some 0 }
    ensures none { IsNone result → (begins_short bytes.now ≡ false) ⊎ (front_object bytes.now ≡ None) }
{
    let (tag, length, rest) = read_short_header(bytes)?;
    let (value, unread) = rest.split_at_checked(length)?;
    Some((tag, value, unread))
}
