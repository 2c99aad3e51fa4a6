//! The fields of a request, and a slot for each that holds what a pass over the objects found.
ghost use Rattle.std.specs.Prelude.{◌≡◌, ◌<◌, Option, Some, map, replicate, option_map, IfSome, true};
ghost use Rattle.issuer_base.specs.declared.request.Parts.{Parts};
ghost use Rattle.std.specs.List.{list_all};
ghost use Rattle.tlv_objects.specs.Seen.{seen as object_seen};
ghost use Rattle.chip_request.specs.Fields.{fields};
ghost use Rattle.chip_request.specs.Slots.{founds_of, place_of, with_object, unfound, is_wrong, is_right, first_wrong_found, first_with_tag, sized, is_sized, is_absent_or_sized, have_sizes, request_in};
ghost use Rattle.chip_request.specs.SlotViews.{field_in, founds_in};

use crate::form::Form;
use tlv_objects::Object;

/// A field that a request may have.
#[derive(Clone, Copy)]
pub(crate) struct Field {
    pub(crate) tag: u32,
    pub(crate) is_required: bool,
    pub(crate) form: Form,
}

macro_rules! field {
    ($tag:expr, $is_required:expr, $form:expr) => {
        Field {
            tag: $tag,
            is_required: $is_required,
            form: $form,
        }
    };
}

/// The fields in the order in which they are checked.
const FIELDS: [Field; 15] = [
    field!(0x5A, true, Form::AccountNumber),
    field!(0x5F34, false, Form::Decimal(1)),
    field!(0x82, true, Form::Bytes(2)),
    field!(0x95, true, Form::Bytes(5)),
    field!(0x9A, true, Form::Bytes(3)),
    field!(0x9C, true, Form::Bytes(1)),
    field!(0x9F02, true, Form::Decimal(6)),
    field!(0x9F03, false, Form::Bytes(6)),
    field!(0x9F10, true, Form::ApplicationData),
    field!(0x9F1A, true, Form::Bytes(2)),
    field!(0x5F2A, true, Form::Bytes(2)),
    field!(0x9F26, true, Form::Bytes(8)),
    field!(0x9F27, true, Form::Bytes(1)),
    field!(0x9F36, true, Form::Bytes(2)),
    field!(0x9F37, true, Form::Bytes(4)),
];

/// The tags of `FIELDS`.
const TAGS: [u32; 15] = [
    0x5A, 0x5F34, 0x82, 0x95, 0x9A, 0x9C, 0x9F02, 0x9F03, 0x9F10, 0x9F1A, 0x5F2A, 0x9F26, 0x9F27,
    0x9F36, 0x9F37,
];

/// What was found of each field, in the order of the table: the value of the first object with its tag, and whether
/// there is another.
#[derive(Clone, Copy)]
pub(crate) struct Slots<'a> {
    pub(crate) firsts: [Option<&'a [u8]>; 15],
    pub(crate) are_repeated: [bool; 15],
}

/// What may be wrong with a field.
#[derive(Clone, Copy)]
pub(crate) enum Wrong {
    Missing,
    Misformed,
    Repeated,
}

fn table() -> &'static [Field; 15]
    ensures { map field_in result.now ≡ fields }
{
    &FIELDS
}

/// Index into `FIELDS` by a tag's last byte, which no two fields share; 0 for every other byte.
const PLACES: [u8; 256] = [
    0, 0, 6, 7, 0, 0, 0, 0, 0, 0, 0, 0, 0, 0, 0, 0, 8, 0, 0, 0, 0, 0, 0, 0, 0, 0, 9, 0, 0, 0, 0, 0,
    0, 0, 0, 0, 0, 0, 11, 12, 0, 0, 10, 0, 0, 0, 0, 0, 0, 0, 0, 0, 1, 0, 13, 14, 0, 0, 0, 0, 0, 0,
    0, 0, 0, 0, 0, 0, 0, 0, 0, 0, 0, 0, 0, 0, 0, 0, 0, 0, 0, 0, 0, 0, 0, 0, 0, 0, 0, 0, 0, 0, 0, 0,
    0, 0, 0, 0, 0, 0, 0, 0, 0, 0, 0, 0, 0, 0, 0, 0, 0, 0, 0, 0, 0, 0, 0, 0, 0, 0, 0, 0, 0, 0, 0, 0,
    0, 0, 0, 0, 2, 0, 0, 0, 0, 0, 0, 0, 0, 0, 0, 0, 0, 0, 0, 0, 0, 0, 0, 3, 0, 0, 0, 0, 4, 0, 5, 0,
    0, 0, 0, 0, 0, 0, 0, 0, 0, 0, 0, 0, 0, 0, 0, 0, 0, 0, 0, 0, 0, 0, 0, 0, 0, 0, 0, 0, 0, 0, 0, 0,
    0, 0, 0, 0, 0, 0, 0, 0, 0, 0, 0, 0, 0, 0, 0, 0, 0, 0, 0, 0, 0, 0, 0, 0, 0, 0, 0, 0, 0, 0, 0, 0,
    0, 0, 0, 0, 0, 0, 0, 0, 0, 0, 0, 0, 0, 0, 0, 0, 0, 0, 0, 0, 0, 0, 0, 0, 0, 0, 0, 0, 0, 0, 0, 0,
    0, 0,
];

/// The index in `FIELDS` of the field with a tag.
#[inline(always)]
fn place_of(tag: u32) -> Option<usize>
    ensures place { result ≡ place_of tag fields }
    ensures within { IfSome result (λ place. place < 15) }
{
    let place = usize::from(PLACES[(tag % 256) as usize]);
    if TAGS[place] != tag {
        return None;
    }
    Some(place)
}

impl<'a> Slots<'a> {
    /// The slots before any object.
    #[tactic(auto, unfolding(crate::specs::Slots::founds_of))]
    pub(crate) fn unfound() -> Slots<'a>
        ensures { founds_in result ≡ map unfound fields }
    {
        Slots {
            firsts: [None; 15],
            are_repeated: [false; 15],
        }
    }

    /// Notes one more object, if its tag is a field's.
    pub(crate) fn note(&mut self, object: Object<'a>)
        ensures { founds_in self.new ≡ map (with_object (object_seen object.entry)) (founds_in self.old) }
    {
        if let Some(place) = place_of(object.tag) {
            match self.firsts[place] {
                None => self.firsts[place] = Some(object.value),
                Some(_) => self.are_repeated[place] = true,
            }
        }
    }

    /// Whether a field is present, and its value has `count` bytes.
    #[inline(always)]
    fn is_sized(&self, tag: u32, count: usize) -> bool
        ensures { result ≡ is_sized count (first_with_tag tag (founds_in self.now)) }
    {
        let Some(value) = self.first_value(tag) else {
            return false;
        };
        value.len() == count
    }

    /// Whether a field is absent, or its value has `count` bytes.
    #[inline(always)]
    fn is_absent_or_sized(&self, tag: u32, count: usize) -> bool
        ensures { result ≡ is_absent_or_sized count (first_with_tag tag (founds_in self.now)) }
    {
        let Some(value) = self.first_value(tag) else {
            return true;
        };
        value.len() == count
    }

    /// Whether each field of fixed length has that length. Only the account number's length varies.
    #[tactic(auto, unfolding(crate::specs::Slots::have_sizes))]
    #[inline(always)]
    pub(crate) fn have_sizes(&self) -> bool
        ensures { result ≡ have_sizes (founds_in self.now) }
    {
        self.is_absent_or_sized(0x5F34, 1)
            && self.is_sized(0x82, 2)
            && self.is_sized(0x95, 5)
            && self.is_sized(0x9A, 3)
            && self.is_sized(0x9C, 1)
            && self.is_sized(0x9F02, 6)
            && self.is_absent_or_sized(0x9F03, 6)
            && self.is_sized(0x9F10, 32)
            && self.is_sized(0x9F1A, 2)
            && self.is_sized(0x5F2A, 2)
            && self.is_sized(0x9F26, 8)
            && self.is_sized(0x9F27, 1)
            && self.is_sized(0x9F36, 2)
            && self.is_sized(0x9F37, 4)
    }

    /// Whether no field is repeated. If also each field has its length and the values make a request, every field is
    /// right.
    #[inline(always)]
    pub(crate) fn are_single(&self) -> bool
        ensures right { list_all is_right (founds_in self.now) ≡ true → result ≡ true }
        ensures sized { list_all is_right (founds_in self.now) ≡ true → have_sizes (founds_in self.now) ≡ true }
        ensures makes { result ≡ true → have_sizes (founds_in self.now) ≡ true
            → (made : Parts) → request_in (founds_in self.now) ≡ Some made
            → list_all is_right (founds_in self.now) ≡ true }
    {
        are_single(&self.firsts, &self.are_repeated)
    }

    /// The tag of the first field with this fault.
    pub(crate) fn first_wrong(&self, wrong: Wrong) -> Option<u32>
        ensures { result ≡ first_wrong_found wrong (founds_in self.now) }
    {
        first_wrong_among(&self.firsts, &self.are_repeated, wrong)
    }

    /// The value of the first object with this tag, which is a field's.
    pub(crate) fn first_value(&self, tag: u32) -> Option<&'a [u8]>
        ensures { option_map (λ value. value.now) result ≡ first_with_tag tag (founds_in self.now) }
    {
        first_with_tag(&self.firsts, &self.are_repeated, tag)
    }

    /// That value as an array, or the given 00 bytes if the field is absent or of another length.
    #[inline(always)]
    pub(crate) fn bytes_or<const N: usize>(&self, tag: u32, zeros: &'static [u8; N]) -> &'a [u8; N]
        requires { zeros.now ≡ replicate N 0 }
        ensures { result.now ≡ sized N (first_with_tag tag (founds_in self.now)) }
    {
        let Some(value) = self.first_value(tag) else {
            return zeros;
        };
        <&[u8; N]>::try_from(value).unwrap_or(zeros)
    }
}

impl Field {
    fn is_wrong(&self, wrong: Wrong, first: Option<&[u8]>, is_repeated: bool) -> bool
        ensures { result ≡ is_wrong wrong
            (record {
              field = field_in self.now;
              first = option_map (λ value. value.now) first.entry;
              is_repeated = is_repeated;
            }) }
    {
        match wrong {
            Wrong::Missing => self.is_required && first.is_none(),
            Wrong::Misformed => match first {
                None => false,
                Some(value) => !self.form.fits(value),
            },
            Wrong::Repeated => is_repeated,
        }
    }
}

// The arrays are parameters, since a proof knows the length of an array parameter.
fn first_wrong_among(
    firsts: &[Option<&[u8]>; 15],
    are_repeated: &[bool; 15],
    wrong: Wrong,
) -> Option<u32>
    ensures { result ≡ first_wrong_found wrong
        (founds_of fields (map (option_map (λ value. value.now)) firsts.now) are_repeated.now) }
{
    for (place, field) in table().iter().enumerate() {
        if field.is_wrong(wrong, firsts[place], are_repeated[place]) {
            return Some(field.tag);
        }
    }
    None
}

// Only the contract uses the values.
#[inline(always)]
fn are_single(_firsts: &[Option<&[u8]>; 15], are_repeated: &[bool; 15]) -> bool
    ensures right { list_all is_right
        (founds_of fields (map (option_map (λ value. value.now)) _firsts.now) are_repeated.now) ≡ true
        → result ≡ true }
    ensures sized { list_all is_right
        (founds_of fields (map (option_map (λ value. value.now)) _firsts.now) are_repeated.now) ≡ true
        → have_sizes (founds_of fields (map (option_map (λ value. value.now)) _firsts.now) are_repeated.now) ≡ true }
    ensures makes { result ≡ true → have_sizes
        (founds_of fields (map (option_map (λ value. value.now)) _firsts.now) are_repeated.now) ≡ true
        → (made : Parts) →
        request_in (founds_of fields (map (option_map (λ value. value.now)) _firsts.now) are_repeated.now)
        ≡ Some made
        → list_all is_right (founds_of fields (map (option_map (λ value. value.now)) _firsts.now) are_repeated.now)
        ≡ true }
{
    *are_repeated == [false; 15]
}

// Only the contract uses the repetitions.
fn first_with_tag<'a>(
    firsts: &[Option<&'a [u8]>; 15],
    _are_repeated: &[bool; 15],
    tag: u32,
) -> Option<&'a [u8]>
    ensures { option_map (λ value. value.now) result
        ≡ first_with_tag tag (founds_of fields (map (option_map (λ value. value.now)) firsts.now) _are_repeated.now) }
{
    let place = place_of(tag)?;
    firsts[place]
}
