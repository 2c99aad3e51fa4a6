//! Feed lines that are due, and are written together.
ghost use Rattle.std.specs.Prelude.{◌≡◌, ◌≤◌, [], IsTrue, vec_capacity, is_err, IfOk};
ghost use Rattle.issuer_base.specs.OutsideFaults.{CountsFaults};
ghost use Rattle.issuer_base.specs.Sink.{WritesAll};
ghost use Rattle.journal_rec.specs.Record.{is_record};
ghost use Rattle.feed_text.specs.FeedText.{feed_line};
ghost use Rattle.journal_reader.specs.Exporting.{WritesLine};
ghost use Rattle.journal_reader.specs.declared.block.TheConstants.{BLOCK_BYTES};

use arrayvec::ArrayVec;
use feed_text::{FEED_ROOM, write_feed_line};
use issuer_base::{Entry, NoMemory, Sink, WriteFault, write_all};
use std::alloc::Global;

/// How many bytes are written together, at most.
const BLOCK_BYTES: usize = 65_536;

/// Feed lines that are due.
#[derive(Drop)]
pub(crate) struct Block {
    pub(crate) text: Vec<u8>,

    /// The last of them.
    line: ArrayVec<u8, FEED_ROOM>,
    ghost room: { BLOCK_BYTES ≤ vec_capacity text },
}

impl Block {
    /// No lines, with room for those of a whole block.
    pub(crate) fn new(alloc: Global) -> Result<Self, NoMemory>
        ensures none { IfOk result (λ block. block.text.items ≡ []) }
    {
        Ok(Block {
            text: Vec::with_capacity(alloc, BLOCK_BYTES)?,
            line: ArrayVec::new(),
        })
    }

    /// Appends the feed line of a record. What is due is written first, if the longest line might not fit.
    pub(crate) fn put_record<W: Sink>(
        &mut self,
        shard: u8,
        place: u64,
        entry: &Entry,
        out: &mut W,
    ) -> Result<(), WriteFault>
        requires { IsTrue (is_record entry.now) }
        ensures put { WritesLine (feed_line shard place entry.now) self.old.text.items self.new.text.items
            (W.held out.old) (W.held out.new) result }
        ensures count { CountsFaults (W.faults out.old) (W.faults out.new) (is_err result) }
    {
        write_feed_line(shard, place, entry, &mut self.line);
        if self.text.len() > BLOCK_BYTES - FEED_ROOM {
            self.write(out)?;
        }
        self.text.extend_from_slice(self.line.as_slice()).unwrap();
        Ok(())
    }

    /// Writes what is due.
    pub(crate) fn write<W: Sink>(&mut self, out: &mut W) -> Result<(), WriteFault>
        ensures written { WritesAll (W.held out.old) (W.held out.new) result self.old.text.items }
        ensures none { self.new.text.items ≡ [] }
        ensures line { self.new.line ≡ self.old.line }
        ensures count { CountsFaults (W.faults out.old) (W.faults out.new) (is_err result) }
    {
        let written = write_all(out, &self.text);
        self.text.clear();
        written
    }
}
