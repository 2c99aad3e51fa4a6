//! A cursor over the objects of a text.
ghost use Rattle.std.specs.Prelude.{ℕ, List, Option, ◌≡◌, ◌≢◌, ◌+◌, ◌≤◌, length, drop, slice_get, IfSome, IsNone, None, false, ◌⊎◌};
ghost use Rattle.tlv_objects.specs.Tlv.{TlvObject, objects_of, objects_ahead, begins_short, front_object};
ghost use Rattle.tlv_objects.specs.Grammar.{Covers};
ghost use Rattle.tlv_objects.specs.Seen.{GivesFirst};

use crate::reading::{read_object, read_short_object, zeros_in_front};
use std::marker::Model;

/// A data object of a text.
#[derive(Clone, Copy, Debug, PartialEq, Eq)]
pub struct Object<'a> {
    /// The one to three bytes of the tag as a big-endian number, as 0x9F02.
    pub tag: u32,
    /// The value, a slice of the text.
    pub value: &'a [u8],
    /// The offset in the text where the object begins.
    pub at: usize,
}

/// Why the objects of a text end before the text does.
#[derive(Clone, Copy, Debug, PartialEq, Eq)]
pub enum TlvFault {
    /// What begins at this offset is no object: its tag, length or value ends early, its tag has more than three
    /// bytes, or its length has an encoding that is not accepted.
    Torn(usize),
}

/// A cursor over the objects of a text.
#[derive(Drop)]
pub struct Objects<'a> {
    ahead: &'a [u8],
    // The offset of the end of the text.
    end: usize,
}

impl<'a> Model for Objects<'a> {
    ghost use Rattle.std.specs.Prelude.{◌-◌, ◌≤◌, length};
    ghost use Rattle.tlv_objects.specs.Tlv.{Ahead};

    ghost Value = { Ahead };

    ghost view = { λ cursor. record { bytes = cursor.ahead.now; at = cursor.end - length cursor.ahead.now } };

    ghost invariant = { λ cursor. length cursor.ahead.now ≤ cursor.end };
}

impl<'a> Objects<'a> {
    /// A cursor at the start of the text.
    pub fn new(bytes: &'a [u8]) -> Objects<'a>
        ensures { result ≡ record { bytes = bytes.now; at = 0 } }
    {
        Objects {
            ahead: bytes,
            end: bytes.len(),
        }
    }

    /// The next object, if it begins here as most do: with no 00 byte, a tag of one or two bytes and a length of one.
    /// `None` where anything else or fewer than three bytes follow, and where its value ends early. Then the cursor stays
    /// where it is, and `next` returns what follows.
    #[inline(always)]
    pub fn next_short(&mut self) -> Option<Object<'a>>
        ensures some { IfSome result (λ object. GivesFirst self.old object self.new) }
        ensures none { IsNone result → (begins_short self.old.bytes ≡ false) ⊎ (front_object self.old.bytes ≡ None) }
        ensures same { IsNone result → self.new ≡ self.old }
    {
        let (tag, value, rest) = read_short_object(self.ahead)?;
        let at = self.at();
        self.ahead = rest;
        Some(Object { tag, value, at })
    }

    // The offset of the next byte.
    #[inline(always)]
    fn at(&self) -> usize
        ensures { result ≡ self.now.at }
    {
        self.end - self.ahead.len()
    }

    // Skips the 00 bytes before the next object, of which there is mostly none.
    #[inline(always)]
    fn pass_zeros(&mut self)
        ensures same { objects_ahead self.new ≡ objects_ahead self.old }
        ensures first { slice_get self.new.bytes 0 ≢ Some 0 }
        ensures shorter { length self.new.bytes ≤ length self.old.bytes }
        ensures end { self.new.at + length self.new.bytes ≡ self.old.at + length self.old.bytes }
    {
        if let [0, ..] = self.ahead {
            self.pass(zeros_in_front(self.ahead));
        }
    }

    #[inline(always)]
    fn pass(&mut self, count: usize)
        requires { count ≤ length self.old.bytes }
        ensures { self.new ≡ record { bytes = drop count self.old.bytes; at = self.old.at + count } }
    {
        self.ahead = &self.ahead[count..];
    }
}

impl<'a> Iterator for Objects<'a> {
    ghost use Rattle.std.specs.Prelude.{length};
    ghost use Rattle.std.specs.Iterator.{at_most};
    ghost use Rattle.tlv_objects.specs.Seen.{GivesObject};

    type Item = Result<Object<'a>, TlvFault>;

    ghost next_gives = { GivesObject };

    ghost remaining = { λ cursor. at_most (length cursor.bytes) };

    /// The next object, or the fault that ends the objects. After a fault the cursor is exhausted.
    #[inline(always)]
    fn next(&mut self) -> Option<Result<Object<'a>, TlvFault>> {
        self.pass_zeros();
        let (ahead, at) = (self.ahead, self.at());
        if ahead.is_empty() {
            return None;
        }
        let Some((tag, value, rest)) = read_object(ahead) else {
            self.pass(ahead.len());
            return Some(Err(TlvFault::Torn(at)));
        };
        self.ahead = rest;
        Some(Ok(Object { tag, value, at }))
    }
}

/// The objects of a text cover it: each is encoded at its offset, and between them are only 00 bytes. So it is up to
/// the end of the text, or to the offset where it is malformed, where no object begins. Nothing else covers it so.
pub fn objects_cover_the_text()
    ensures covered { (text : List ℕ) → Covers 0 text (objects_of text).objects (objects_of text).torn }
    ensures only { (text : List ℕ) (objects : List TlvObject) (torn : Option ℕ)
        → Covers 0 text objects torn → objects_of text ≡ record { objects = objects; torn = torn } }
{}
