//! The data objects that are given to fill a list with.
ghost use Rattle.std.specs.Prelude.{◌≡◌, ◌++◌, ◌∷◌, [], ◌<◌, ◌≤◌, true, false, if◌then◌else◌, length, option_map};
ghost use Rattle.tlv_objects.specs.Seen.{place_of, seen};
ghost use Rattle.terminal_kernel.specs.Given.{data_of, may_follow, plain, value_of};

use crate::limits::{MAX_OBJECTS, MAX_VALUE_BYTES};
use arrayvec::ArrayVec;
use std::marker::Model;
use tlv_objects::{Object, Objects, TlvFault};

/// A data object with a value of its own.
#[derive(Default, Drop)]
struct Held {
    tag: u32,
    value: ArrayVec<u8, MAX_VALUE_BYTES>,
}

/// Data objects, as [`read_data`] parses them.
///
/// A contract sees the list of their tags and values.
#[derive(Drop)]
pub struct Data {
    objects: ArrayVec<Held, MAX_OBJECTS>,
}

impl Model for Data {
    ghost use Rattle.std.specs.Prelude.{List, map};
    ghost use Rattle.terminal_kernel.specs.Given.{DataObject};

    ghost Value = { List DataObject };

    ghost view = { λ given. map (λ held. record { tag = held.tag; value = held.value.items }) given.objects.items };
}

/// The first object that the data may not have: it is torn, its value has more than 64 bytes, an object before it has
/// its tag, or it is the 65th.
#[derive(Clone, Copy, Debug, PartialEq, Eq)]
pub struct BadData {
    /// The offset in the text where that object begins.
    pub at: usize,
}

/// The BER-TLV data objects of a text: at most 64, no two of one tag, with values of at most 64 bytes. 00 bytes may
/// stand before, between and after them.
pub fn read_data(bytes: &[u8]) -> Result<Data, BadData>
    ensures { result ≡ data_of bytes.now }
{
    let mut given = Data {
        objects: ArrayVec::new(),
    };
    for item in Objects::new(bytes) {
        match item {
            Ok(object) => {
                if !given.may_take(&object) {
                    return Err(BadData { at: object.at });
                }
                given.take(object);
            }
            Err(fault) => {
                return Err(BadData {
                    at: torn_place(fault),
                });
            }
        }
    }
    Ok(given)
}

/// Where a text is torn.
fn torn_place(fault: TlvFault) -> usize
    ensures { result ≡ place_of fault }
{
    match fault {
        TlvFault::Torn(at) => at,
    }
}

impl Data {
    /// The value of the data object with this tag.
    pub fn get(&self, tag: u32) -> Option<&[u8]>
        ensures { option_map (λ value. value.now) result ≡ value_of tag self.now }
    {
        for held in self.objects.as_slice() {
            if held.tag == tag {
                return Some(held.value.as_slice());
            }
        }
        None
    }

    /// Whether one more object may follow these.
    fn may_take(&self, object: &Object<'_>) -> bool
        ensures { result ≡ may_follow self.now (seen object.now) }
    {
        !self.objects.is_full()
            && object.value.len() <= MAX_VALUE_BYTES
            && self.get(object.tag).is_none()
    }

    fn take(&mut self, object: Object<'_>)
        requires { may_follow self.old (seen object) ≡ true }
        ensures { self.new ≡ self.old ++ plain (seen object.entry) ∷ [] }
    {
        self.objects.push(Held {
            tag: object.tag,
            value: ArrayVec::try_from(object.value).unwrap(),
        });
    }
}
