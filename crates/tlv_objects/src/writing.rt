//! Writing an object in its shortest encoding.
ghost use Rattle.std.specs.Prelude.{◌≡◌, ◌+◌, ◌<◌, ◌≤◌, ◌↔◌, ◌++◌, length, IsTrue, IsErr, OnOk, OnErr};
ghost use Rattle.arrayvec.specs.ArrayVec.{array_vec_len};
ghost use Rattle.tlv_objects.specs.Tlv.{objects_of, in_front, no_more};
ghost use Rattle.tlv_objects.specs.Writing.{is_tag_number, tag_bytes, length_bytes, object_text};

use arrayvec::ArrayVec;

/// The remaining room is too small for an object.
#[derive(Clone, Copy, Debug, PartialEq, Eq)]
pub struct Full;

/// The capacity, in bytes, of the buffer that objects are written to: a reply to a card has fewer.
pub const ROOM: usize = 160;

/// The bytes of a tag that is given as a number, big-endian, without leading 00 bytes.
pub fn tag_bytes(tag: u32) -> ArrayVec<u8, 4>
    ensures { result.items ≡ tag_bytes tag }
{
    let bytes = tag.to_be_bytes();
    let zeros = if tag < 0x100 {
        3
    } else if tag < 0x1_0000 {
        2
    } else if tag < 0x100_0000 {
        1
    } else {
        0
    };
    ArrayVec::try_from(&bytes[zeros..]).unwrap()
}

/// How many bytes a tag has.
fn tag_size(tag: u32) -> usize
    requires { IsTrue (is_tag_number tag) }
    ensures { result ≡ length (tag_bytes tag) }
{
    match tag {
        0x00..=0xFF => 1,
        0x100..=0xFFFF => 2,
        _ => 3,
    }
}

/// How many bytes the shortest encoding of a length has.
fn length_size(count: usize) -> usize
    requires { count ≤ 65535 }
    ensures { result ≡ length (length_bytes count) }
{
    match count {
        0x00..=0x7F => 1,
        0x80..=0xFF => 2,
        _ => 3,
    }
}

/// Appends the bytes of a tag.
fn push_tag(out: &mut ArrayVec<u8, ROOM>, tag: u32)
    requires tag { IsTrue (is_tag_number tag) }
    requires room { array_vec_len out.old + length (tag_bytes tag) ≤ ROOM }
    ensures { out.new.items ≡ out.old.items ++ tag_bytes tag }
{
    if tag > 0xFFFF {
        out.push((tag / 0x1_0000) as u8);
    }
    if tag > 0xFF {
        out.push((tag / 0x100 % 0x100) as u8);
    }
    out.push((tag % 0x100) as u8);
}

/// Appends the shortest encoding of a length.
fn push_length(out: &mut ArrayVec<u8, ROOM>, count: usize)
    requires length { count ≤ 65535 }
    requires room { array_vec_len out.old + length (length_bytes count) ≤ ROOM }
    ensures { out.new.items ≡ out.old.items ++ length_bytes count }
{
    match count {
        0x00..=0x7F => {}
        0x80..=0xFF => out.push(0x81),
        _ => {
            out.push(0x82);
            out.push((count / 0x100) as u8);
        }
    }
    out.push((count % 0x100) as u8);
}

/// Appends an object in its shortest encoding. If it doesn't fit, nothing changes.
pub fn put(out: &mut ArrayVec<u8, ROOM>, tag: u32, value: &[u8]) -> Result<(), Full>
    requires tag { IsTrue (is_tag_number tag) }
    requires length { length value.now ≤ 65535 }
    ensures ok { OnOk result (out.new.items ≡ out.old.items ++ object_text tag value.now) }
    ensures full { IsErr result
        ↔ (ROOM < array_vec_len out.old + length (object_text tag value.now)) }
    ensures err { OnErr result (out.new ≡ out.old) }

    // What is written parses as that object and nothing more.
    ensures alone { objects_of (object_text tag value.now)
        ≡ in_front (record { tag = tag; value = value.now; at = 0 }) no_more }
{
    let size = tag_size(tag) + length_size(value.len()) + value.len();
    if out.remaining_capacity() < size {
        return Err(Full);
    }
    push_tag(out, tag);
    push_length(out, value.len());
    out.try_extend_from_slice(value).unwrap();
    Ok(())
}
