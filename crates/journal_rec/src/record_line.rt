//! A cursor over the bytes of a record's line: each method parses one part, and moves past it.
ghost use Rattle.std.specs.Prelude.{◌≡◌, ◌*◌, ◌^◌, ◌<◌, length, option_map, IfSome};
ghost use Rattle.journal_rec.specs.Reading.{byte_at, bytes_at, counter_at, end_at, mark_at, next_at, pan_at, piece_at, rest_at};

use crate::digits::{decode, decode_into};
use crate::limits::PAN_DIGITS;
use crate::pan::read_pan;
use arrayvec::ArrayVec;
use issuer_base::Pan;
use std::marker::Model;

/// The unread remainder of a line.
#[derive(Drop)]
pub(crate) struct Line<'a> {
    left: &'a [u8],
}

impl<'a> Model for Line<'a> {
    ghost use Rattle.std.specs.Prelude.{List, ℕ};

    ghost Value = { List ℕ };

    ghost view = { λ line. line.left.now };
}

impl<'a> Line<'a> {
    pub(crate) fn new(left: &'a [u8]) -> Line<'a>
        ensures { result ≡ left.now }
    {
        Line { left }
    }

    /// The next `count` bytes, undecoded.
    #[tactic(auto, unfolding(crate::specs::Reading::piece_at))]
    pub(crate) fn piece(&mut self, count: usize) -> Option<&'a [u8]>
        ensures value { option_map (λ piece. (piece.now, self.new)) result ≡ piece_at count self.old }
        ensures size { IfSome result (λ piece. length piece.now ≡ count) }
    {
        let (piece, left) = self.left.split_at_checked(count)?;
        self.left = left;
        Some(piece)
    }

    /// `N` bytes in hexadecimal.
    #[tactic(auto, unfolding(crate::specs::Reading::bytes_at))]
    pub(crate) fn bytes<const N: usize>(&mut self) -> Option<[u8; N]>
        requires { 2 * N < 2 ^ 64 }
        ensures { option_map (λ bytes. (bytes, self.new)) result ≡ bytes_at N self.old }
    {
        let digits = self.piece(2 * N)?;
        let mut bytes = [0; N];
        if !decode_into(digits, &mut bytes) {
            return None;
        }
        Some(bytes)
    }

    /// One byte in hexadecimal.
    #[tactic(auto, unfolding(crate::specs::Reading::byte_at))]
    pub(crate) fn byte(&mut self) -> Option<u8>
        ensures { option_map (λ byte. (byte, self.new)) result ≡ byte_at self.old }
    {
        Some(self.bytes::<1>()?[0])
    }

    /// A number of two bytes in hexadecimal, the higher first.
    #[tactic(auto, unfolding(crate::specs::Reading::counter_at))]
    pub(crate) fn counter(&mut self) -> Option<u16>
        ensures { option_map (λ counter. (counter, self.new)) result ≡ counter_at self.old }
    {
        Some(u16::from_be_bytes(self.bytes()?))
    }

    /// An account number: its digits, padded at the end with `f`.
    #[tactic(auto, unfolding(crate::specs::Reading::pan_at))]
    pub(crate) fn pan(&mut self) -> Option<Pan>
        ensures { option_map (λ pan. (pan, self.new)) result ≡ pan_at self.old }
    {
        let text = self.piece(PAN_DIGITS)?;
        Some(read_pan(text)?)
    }

    /// The next byte, undecoded.
    #[tactic(auto, unfolding(crate::specs::Reading::next_at))]
    pub(crate) fn next(&mut self) -> Option<u8>
        ensures { option_map (λ byte. (byte, self.new)) result ≡ next_at self.old }
    {
        let [byte, left @ ..] = self.left else {
            return None;
        };
        self.left = left;
        Some(*byte)
    }

    /// This byte, and no other.
    #[tactic(auto, unfolding(crate::specs::Reading::mark_at))]
    pub(crate) fn mark(&mut self, byte: u8) -> Option<()>
        ensures { option_map (λ unit. (unit, self.new)) result ≡ mark_at byte self.old }
    {
        let next = self.next()?;
        if next != byte {
            return None;
        }
        Some(())
    }

    /// The whole remainder, in hexadecimal, if it has at most `CAP` bytes.
    #[tactic(auto, unfolding(crate::specs::Reading::rest_at))]
    pub(crate) fn rest<const CAP: usize>(&mut self) -> Option<ArrayVec<u8, CAP>>
        ensures { option_map (λ bytes. (bytes.items, self.new)) result ≡ rest_at CAP self.old }
    {
        let digits = self.left;
        self.left = &[];
        decode(digits)
    }

    /// The end of the line.
    #[tactic(auto, unfolding(crate::specs::Reading::end_at))]
    pub(crate) fn end(&self) -> Option<()>
        ensures { option_map (λ unit. (unit, self.now)) result ≡ end_at self.now }
    {
        if !self.left.is_empty() {
            return None;
        }
        Some(())
    }
}
