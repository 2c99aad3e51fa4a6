//! Names, texts and barriers as a bridge holds them.
ghost use Rattle.std.specs.Prelude.{◌≡◌};
ghost use Rattle.one_history.specs.Streams.{is_word, is_barrier};
ghost use Rattle.bridge_rule.specs.Openings.{barrier_of};

use crate::limits::{NAME_ROOM, TEXT_ROOM};
use arrayvec::ArrayVec;

/// The name of a machine or of a barrier.
pub type Name = ArrayVec<u8, NAME_ROOM>;

/// The text of a record, without its newline.
pub type Text = ArrayVec<u8, TEXT_ROOM>;

/// A barrier of a stream, by which a machine takes the partition over.
#[derive(Drop)]
pub struct Opening {
    pub number: u64,
    pub name: Name,
    pub machine: Name,
}

impl Opening {
    /// A copy. It doesn't allocate.
    pub fn copy(&self) -> Opening
        ensures { result ≡ self.now }
    {
        Opening {
            number: self.number,
            name: copied(&self.name),
            machine: copied(&self.machine),
        }
    }

    /// Whether the two barriers are the same.
    pub fn is_same(&self, other: &Opening) -> bool
        ensures { result ≡ is_barrier (barrier_of self.now) (barrier_of other.now) }
    {
        let same_number = self.number == other.number;
        let same_name = is_same_name(&self.name, &other.name);
        let same_machine = is_same_name(&self.machine, &other.machine);
        same_number && same_name && same_machine
    }
}

/// A copy of a name.
pub fn copied(name: &Name) -> Name
    ensures { result ≡ name.now }
{
    let mut copy = ArrayVec::new();
    copy.try_extend_from_slice(name.as_slice()).unwrap();
    copy
}

/// Whether two names are the same.
pub fn is_same_name(one: &Name, other: &Name) -> bool
    ensures { result ≡ is_word one.now.items other.now.items }
{
    one.as_slice() == other.as_slice()
}

/// Whether two texts are the same.
pub(crate) fn is_same_text(one: &Text, other: &Text) -> bool
    ensures { result ≡ is_word one.now.items other.now.items }
{
    one.as_slice() == other.as_slice()
}

/// A copy of a text.
pub fn copied_text(text: &Text) -> Text
    ensures { result ≡ text.now }
{
    let mut copy = ArrayVec::new();
    copy.try_extend_from_slice(text.as_slice()).unwrap();
    copy
}
