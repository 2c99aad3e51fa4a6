//! Lines in one buffer, one after another.
ghost use Rattle.std.specs.Prelude.{◌≡◌, ◌<◌, ◌≤◌, [], ◌∷◌, ◌++◌, length, slice_get, Some, IfOk};
ghost use Rattle.line_reader.specs.Lines.{ended};

use crate::limits::NEWLINE;
use issuer_base::NoMemory;
use std::alloc::Global;
use std::marker::Model;

/// Where a line lies in a buffer: from one offset up to another.
#[derive(Clone, Copy)]
pub(crate) struct Span {
    start: usize,
    end: usize,
}

/// Lines of at most `MOST` bytes in one buffer, one after another, and room for more. A caller that reads them in their
/// order reads the buffer from its start on, each cache line once.
///
/// A contract sees the lines, and how many there may be.
#[derive(Drop)]
pub struct PackedLines<const MOST: usize> {
    bytes: Vec<u8>,
    spans: Vec<Span>,
}

impl<const MOST: usize> Model for PackedLines<MOST> {
    ghost use Rattle.std.specs.Prelude.{◌≤◌, ◌*◌, All, length, map, vec_capacity};
    ghost use Rattle.line_reader.specs.KeptLines.{KeptLines, LiesIn, line_at};

    ghost Value = { KeptLines };

    ghost view = { λ packed. record {
      lines = map (line_at packed.bytes.items) packed.spans.items;
      room = vec_capacity packed.spans;
    } };

    ghost invariant = { λ packed. All (LiesIn MOST packed.bytes.items) packed.spans.items
        × (length packed.bytes.items ≤ length packed.spans.items * MOST)
        × (length packed.spans.items ≤ vec_capacity packed.spans)
        × (vec_capacity packed.spans * MOST ≤ vec_capacity packed.bytes) };
}

impl<const MOST: usize> PackedLines<MOST> {
    /// No lines, and room for `room` lines. Only this call allocates.
    pub fn new(alloc: Global, room: usize) -> Result<PackedLines<MOST>, NoMemory>
        requires { (room ≤ 65_536) × (MOST ≤ 4_096) }
        ensures { IfOk result (λ packed. packed ≡ record { lines = []; room = room }) }
    {
        Ok(PackedLines {
            bytes: Vec::with_capacity(alloc, room * MOST)?,
            spans: Vec::with_capacity(alloc, room)?,
        })
    }

    /// How many lines there are.
    pub fn len(&self) -> usize
        ensures count { result ≡ length self.now.lines }
        ensures within { result ≤ self.now.room }
    {
        self.spans.len()
    }

    /// Appends a line.
    pub fn add(&mut self, line: &[u8])
        requires room { length self.old.lines < self.old.room }
        requires short { length line.now ≤ MOST }
        ensures { self.new ≡ record { lines = self.old.lines ++ line.now ∷ []; room = self.old.room } }
    {
        let start = self.bytes.len();
        self.bytes.extend_from_slice(line).unwrap();
        self.spans.push_reserved(Span {
            start,
            end: self.bytes.len(),
        });
    }

    /// Appends a line, and the newline that ends it.
    pub fn add_ended(&mut self, line: &[u8])
        requires room { length self.old.lines < self.old.room }
        requires short { length line.now < MOST }
        ensures { self.new ≡ record { lines = self.old.lines ++ ended line.now ∷ []; room = self.old.room } }
    {
        let start = self.bytes.len();
        self.bytes.extend_from_slice(line).unwrap();
        self.bytes.push_reserved(NEWLINE);
        self.spans.push_reserved(Span {
            start,
            end: self.bytes.len(),
        });
    }

    /// The line at this index.
    pub fn line(&self, place: usize) -> &[u8]
        requires { place < length self.now.lines }
        ensures line { slice_get self.now.lines place ≡ Some result.now }
        ensures short { length result.now ≤ MOST }
    {
        let span = self.spans[place];
        &self.bytes[span.start..span.end]
    }

    /// Removes all lines.
    pub fn clear(&mut self)
        ensures { self.new ≡ record { lines = []; room = self.old.room } }
    {
        self.bytes.clear();
        self.spans.clear();
    }
}
