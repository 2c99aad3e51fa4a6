//! The bytes of the input that are read and not taken yet.
ghost use Rattle.std.specs.Prelude.{◌≡◌, ◌<◌, ◌≤◌, ◌↔◌, [], length, drop, IsTrue, IfOk, MatchResult, is_err};
ghost use Rattle.std.specs.Io.KnownBytes.{Keeps};
ghost use Rattle.issuer_base.specs.OutsideFaults.{CountsFaults};
ghost use Rattle.bridge_serve.specs.declared.window.TheConstants.{WINDOW_BYTES};

use issuer_base::{NoMemory, ReadFault, Source};
use std::alloc::Global;

/// How many bytes there is room for: more than a turn has.
pub const WINDOW_BYTES: usize = 262_144;

/// The bytes of the input that are read and not taken yet.
#[derive(Drop)]
pub struct Window {
    bytes: Vec<u8>,
    start: usize,
    end: usize,
    ghost size: { length bytes.items ≡ WINDOW_BYTES },
    ghost in_order: { start ≤ end },
    ghost within: { end ≤ WINDOW_BYTES },
}

impl Window {
    ghost use Rattle.bridge_serve.specs.Reading.{ahead_of, ReadsMore};

    /// No bytes, and room for [`WINDOW_BYTES`]. No other call allocates.
    pub fn new(alloc: Global) -> Result<Window, NoMemory>
        ensures { IfOk result (λ window. ahead_of window ≡ []) }
    {
        Ok(Window {
            bytes: vec![in alloc; 0; WINDOW_BYTES]?,
            start: 0,
            end: 0,
        })
    }

    /// The bytes.
    pub fn ahead(&self) -> &[u8]
        ensures bytes { result.now ≡ ahead_of self.now }
        ensures within { length (ahead_of self.now) ≤ WINDOW_BYTES }
    {
        &self.bytes[self.start..self.end]
    }

    /// Takes the first bytes, so many.
    pub fn pass(&mut self, count: usize)
        requires { count ≤ length (ahead_of self.old) }
        ensures { ahead_of self.new ≡ drop count (ahead_of self.old) }
    {
        self.start += count;
    }

    /// Whether there is room for more.
    pub fn has_room(&self) -> bool
        ensures { IsTrue result ↔ (length (ahead_of self.now) < WINDOW_BYTES) }
    {
        self.end - self.start < WINDOW_BYTES
    }

    /// Reads more bytes. None is the end of the input.
    pub fn fill<S: Source>(&mut self, source: &mut S) -> Result<usize, ReadFault>
        requires { length (ahead_of self.old) < WINDOW_BYTES }
        ensures bytes { MatchResult result
            (λ count. ReadsMore (S.left source.old) (S.left source.new) (ahead_of self.old) (ahead_of self.new) count)
            (λ _. Keeps (S.left source.old) (S.left source.new) × (ahead_of self.new ≡ ahead_of self.old)) }
        ensures count { CountsFaults (S.faults source.old) (S.faults source.new) (is_err result) }
    {
        self.move_to_front();
        let count = source.read(&mut self.bytes[self.end..])?;
        self.end += count;
        Ok(count)
    }

    /// Moves the bytes to the start of the room.
    fn move_to_front(&mut self)
        ensures bytes { ahead_of self.new ≡ ahead_of self.old }
        ensures start { self.new.start ≡ 0 }
        ensures end { self.new.end ≡ length (ahead_of self.old) }
    {
        self.bytes.copy_within(self.start..self.end, 0);
        self.end -= self.start;
        self.start = 0;
    }
}
