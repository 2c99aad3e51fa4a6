//! The hosts that lines are served with: that of one caller, and that of several.
ghost use Rattle.std.specs.Prelude.{◌≡◌, ◌≤◌, ℕ, List, [], length, map, false, is_err, OnOk};
ghost use Rattle.issuer_base.specs.OutsideFaults.{CountsFaults};
ghost use Rattle.issuer_base.specs.declared.limits.TheConstants.{KEPT_BYTES};
ghost use Rattle.issuer_setup.specs.IssuerSetup.{Setup};
ghost use Rattle.line_reader.specs.declared.limits.TheConstants.{BUFFER_BYTES, MAX_BUFFER_BYTES, MAX_LINES};
ghost use Rattle.line_reader.specs.Reading.{kept};
ghost use Rattle.desk_host.specs.Configuration.{HasSoundParts};
ghost use Rattle.desk_host.specs.SeenStores.{Logged, journals_seen};

use crate::alone::AloneHost;
use crate::answer_block::AnswerBlock;
use crate::together::{close_together, write_last_together, write_together};
use issuer_base::{Gate, Sink, Store, WriteFault};
use line_reader::{BUFFER_BYTES, LineReader};
use shared_callers::Lanes;
use std::sync::Wait;
use std::thread::Threads;

/// The bytes of the reader's buffer for each line that may wait: a line of a request has some 320, so the buffer has the lines of
/// three half blocks.
const LINE_BYTES: usize = 1_024;

/// The host of a run: with one caller, who answers one line after another, or with several, who answer lines together.
pub enum LineHost<S: Store> {
    /// One caller.
    Alone(AloneHost<S>),
    /// Several callers.
    Together(Lanes<S>),
}

impl<S: Store> LineHost<S> {
    ghost use Rattle.line_blocks.specs.Serving.{TakesLine, TakesAndWrites, WritesAnswers};
    ghost use Rattle.line_serving.specs.Leaving.{LeavesAnswered, LeavesLoaded};
    ghost use Rattle.line_serving.specs.Hosts.{callers_of, IsReady};
    ghost use Rattle.line_serving.specs.Hosts.{HasServed, MaySettle, HasRoom, IsSettled, IsIdle};

    /// The size in bytes of the buffer through which its lines are read: of several callers [`LINE_BYTES`] for each line that may wait.
    pub(crate) fn buffer_bytes(&self) -> usize
        ensures { (BUFFER_BYTES ≤ result) × (result ≤ MAX_BUFFER_BYTES) }
    {
        match self {
            LineHost::Alone(_) => BUFFER_BYTES,
            LineHost::Together(lanes) => BUFFER_BYTES.max(lanes.room() * LINE_BYTES),
        }
    }

    /// Whether no other line is taken before the lines that wait are settled and the answers of the block are written.
    pub(crate) fn is_full(&self, block: &AnswerBlock) -> bool
        requires { MaySettle self.now block.now.lines block.now.text.items }
        ensures { result ≡ false → HasRoom self.now block.now.lines block.now.text.items }
    {
        match self {
            LineHost::Alone(alone) => alone.is_full(block),
            LineHost::Together(lanes) => lanes.is_full(),
        }
    }

    /// Takes the line with this number. Its answer goes into the block at once, or it waits. `has_next` is whether
    /// another whole line is in hand.
    pub(crate) fn take_line<R: Wait, G: Gate>(
        &mut self,
        rt: &R,
        gate: &G,
        number: u64,
        line: &[u8],
        has_next: bool,
        block: &mut AnswerBlock,
    )
        requires room { HasRoom self.old block.old.lines block.old.text.items }
        requires kept { length line.now ≤ KEPT_BYTES }
        ensures taken { (first : LineHost S S.Store) (lines : List (List ℕ)) (text : List ℕ) (waiting : List (List ℕ))
            → HasServed first lines text waiting self.old
            → TakesLine (λ lines text waiting. HasServed first lines text waiting self.new) lines text waiting line.now
            block.old.text.items
            block.new.text.items }
        ensures open { MaySettle self.new block.new.lines block.new.text.items }
    {
        match self {
            LineHost::Alone(alone) => alone.take_line(rt, gate, number, line, has_next, block),
            LineHost::Together(lanes) => lanes.deal(line),
        }
    }

    /// Answers all lines that wait, and writes all answers. Several callers meanwhile take the lines that are whole in the
    /// reader's buffer, and answer them too.
    pub(crate) fn write<R, W, G>(
        &mut self,
        rt: &R,
        gate: &G,
        reader: &mut LineReader,
        block: &mut AnswerBlock,
        out: &mut W,
    ) -> Result<(), WriteFault>
    where
        R: Threads + Wait + Sync,
        S: Send,
        W: Sink,
        G: Gate + Sync,
        requires { MaySettle self.old block.old.lines block.old.text.items }
        ensures written { (first : LineHost S S.Store) (lines : List (List ℕ)) (text : List ℕ)
            (waiting : List (List ℕ))
            → HasServed first lines text waiting self.old
            → TakesAndWrites (λ lines text waiting. HasServed first lines text waiting self.new) lines text waiting
            block.old.text.items reader.old reader.new (W.held out.old) (W.held out.new) result }
        ensures none { block.new.text.items ≡ [] }
        ensures settled { IsSettled self.new × OnOk result (IsIdle self.new block.new.lines) }
        ensures reader { reader.old.lines ≤ reader.new.lines }
        ensures count { CountsFaults (W.faults out.old) (W.faults out.new) (is_err result) }
    {
        match self {
            LineHost::Alone(alone) => alone.write(rt, gate, block, out),
            LineHost::Together(lanes) => write_together(lanes, rt, gate, reader, block, out),
        }
    }

    /// Answers all lines that wait, and writes all answers. No other line is taken.
    pub(crate) fn write_last<R, W, G>(
        &mut self,
        rt: &R,
        gate: &G,
        block: &mut AnswerBlock,
        out: &mut W,
    ) -> Result<(), WriteFault>
    where
        R: Threads + Wait + Sync,
        S: Send,
        W: Sink,
        G: Gate + Sync,
        requires { MaySettle self.old block.old.lines block.old.text.items }
        ensures written { (first : LineHost S S.Store) (lines : List (List ℕ)) (text : List ℕ)
            (waiting : List (List ℕ))
            → HasServed first lines text waiting self.old
            → WritesAnswers (λ lines text waiting. HasServed first lines text waiting self.new) lines text waiting
            block.old.text.items (W.held out.old) (W.held out.new) result }
        ensures settled { IsSettled self.new }
        ensures count { CountsFaults (W.faults out.old) (W.faults out.new) (is_err result) }
    {
        match self {
            LineHost::Alone(alone) => alone.write(rt, gate, block, out),
            LineHost::Together(lanes) => write_last_together(lanes, rt, gate, block, out),
        }
    }

    /// The stores of its journals, in the order of their shards.
    pub fn close(self) -> Vec<S>
        requires { IsSettled self }
        ensures answered { (issuer : Setup) (prefix : List ℕ) (logs : Logged) (olds : List S)
            (first : LineHost S S.Store) (lines : List (List ℕ)) (text : List ℕ)
            → IsReady issuer prefix logs olds first → HasSoundParts issuer → length lines ≤ MAX_LINES
            → HasServed first (map kept lines) text [] self
            → LeavesAnswered (callers_of first) issuer prefix logs (journals_seen S.Store olds result.items)
            lines text }
        ensures loaded { (issuer : Setup) (prefix : List ℕ) (logs : Logged) (olds : List S)
            → IsReady issuer prefix logs olds self → HasSoundParts issuer
            → LeavesLoaded (callers_of self) issuer prefix logs (journals_seen S.Store olds result.items) }
    {
        match self {
            LineHost::Alone(alone) => alone.close(),
            LineHost::Together(lanes) => close_together(lanes),
        }
    }
}
