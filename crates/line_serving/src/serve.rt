//! Request lines, answered one after another or several together, and their answers, written in blocks.
ghost use Rattle.std.specs.Prelude.{◌≡◌, ◌≤◌, true, false, ℕ, List, [], length, map, is_err, IfOk, OnOk, OnErr};
ghost use Rattle.issuer_base.specs.OutsideFaults.{Rose, CountsFaults};
ghost use Rattle.issuer_base.specs.declared.limits.TheConstants.{KEPT_BYTES};
ghost use Rattle.line_reader.specs.Reading.{kept};
ghost use Rattle.line_reader.specs.NextLine.{is_fault};

use crate::answer_block::AnswerBlock;
use crate::hosts::LineHost;
use issuer_base::{Gate, NoMemory, Sink, Source, Store, WriteFault};
use line_blocks::Served;
use line_reader::{LineReader, NextLine};
use std::alloc::Global;
use std::sync::Wait;
use std::thread::Threads;

/// What it takes to read lines for a host and to write its answers.
#[derive(Drop)]
pub struct Server {
    pub(crate) reader: LineReader,
    pub(crate) block: AnswerBlock,
}

impl Server {
    ghost use Rattle.line_blocks.specs.Serving.{TakesLine, Serves, WritesDue, Finishes, read_failed};
    ghost use Rattle.line_blocks.specs.Serving.{write_failed};
    ghost use Rattle.line_serving.specs.Hosts.{IsNew, HasServed, MaySettle, HasRoom, IsIdle, IsSettled, MayServeOn, OwesNoAnswer};
    ghost use Rattle.line_serving.specs.Idle.{IsInHand, MayReadOn, ReadsNext};

    /// All the memory that serving lines of this host takes.
    pub fn new<S: Store>(alloc: Global, host: &LineHost<S>) -> Result<Self, NoMemory>
        ensures { IfOk result IsNew }
    {
        Ok(Server {
            reader: LineReader::with_buffer(alloc, host.buffer_bytes())?,
            block: AnswerBlock::new(alloc)?,
        })
    }

    /// Answers the lines of an input. Answers are written where the host or their block is full, and before more of the
    /// input is waited for. The gate is told of each line by its number, from 1: before it is answered and once it is.
    pub fn serve<R, T, I, W, G>(
        &mut self,
        rt: &R,
        gate: &G,
        host: &mut LineHost<T>,
        source: &mut I,
        out: &mut W,
    ) -> Served
    where
        R: Threads + Wait + Sync,
        T: Store + Send,
        I: Source,
        W: Sink,
        G: Gate + Sync,
        requires new { IsNew self.old }
        requires idle { IsIdle host.old 0 }
        ensures served { (first : LineHost T T.Store) → HasServed first [] [] [] host.old
            → Serves (λ lines text. HasServed first (map kept lines) text [] host.new) (I.left source.old)
            (I.left source.new)
            (W.held out.old) (W.held out.new) result }
        ensures settled { IsSettled host.new }
        ensures source_count { read_failed result ≡ true → Rose (I.faults source.old) (I.faults source.new) }
        ensures sink_count { CountsFaults (W.faults out.old) (W.faults out.new) (write_failed result) }
    {
        loop {
            match Server::read_on(&mut self.reader, &self.block, host, source) {
                NextLine::Line => {
                    self.take_line(rt, gate, host);
                    match self.write_due(rt, gate, host, out) {
                        Ok(()) => {}
                        Err(WriteFault) => return Served::WriteFault,
                    }
                }
                NextLine::Rest => {
                    self.take_line(rt, gate, host);
                    return self.end(rt, gate, host, Served::All, out);
                }
                NextLine::End => return self.end(rt, gate, host, Served::All, out),
                NextLine::Fault => return self.end(rt, gate, host, Served::ReadFault, out),
                NextLine::TooLong => {
                    let line = u64::from(self.reader.number()) + 1;
                    return self.end(rt, gate, host, Served::TooLong { line }, out);
                }
            }
        }
    }

    /// Reads the next line. Only this call reads the input. If no whole line is in memory, it waits for more of the
    /// input: then no line waits for its answer, and no answer is due.
    fn read_on<T: Store, I: Source>(
        reader: &mut LineReader,
        block: &AnswerBlock,
        host: &LineHost<T>,
        source: &mut I,
    ) -> NextLine
        requires idle { MayReadOn reader.old (OwesNoAnswer host.now block.now) }
        ensures found { ReadsNext result (I.left source.old) (I.left source.new) reader.old reader.new }
        ensures count { CountsFaults (I.faults source.old) (I.faults source.new) (is_fault result) }
    {
        reader.next_line(source)
    }

    /// Lets the host take the line in hand.
    fn take_line<R: Wait, T: Store, G: Gate>(&mut self, rt: &R, gate: &G, host: &mut LineHost<T>)
        requires room { HasRoom host.old self.old.block.lines self.old.block.text.items }
        requires kept { length self.old.reader.line ≤ KEPT_BYTES }
        ensures taken { (first : LineHost T T.Store) (lines : List (List ℕ)) (text : List ℕ) (waiting : List (List ℕ))
            → HasServed first lines text waiting host.old
            → TakesLine (λ lines text waiting. HasServed first lines text waiting host.new) lines text waiting
            self.old.reader.line
            self.old.block.text.items self.new.block.text.items }
        ensures open { MaySettle host.new self.new.block.lines self.new.block.text.items }
        ensures reader { self.new.reader ≡ self.old.reader }
    {
        let number = u64::from(self.reader.number());
        let has_next = self.reader.has_line();
        host.take_line(
            rt,
            gate,
            number,
            self.reader.line(),
            has_next,
            &mut self.block,
        );
    }

    /// Answers the lines that wait and writes the answers, where that is due. Several callers meanwhile take the lines in
    /// hand, and answer them too.
    fn write_due<R, T, W, G>(
        &mut self,
        rt: &R,
        gate: &G,
        host: &mut LineHost<T>,
        out: &mut W,
    ) -> Result<(), WriteFault>
    where
        R: Threads + Wait + Sync,
        T: Store + Send,
        W: Sink,
        G: Gate + Sync,
        requires open { MaySettle host.old self.old.block.lines self.old.block.text.items }
        ensures written { (first : LineHost T T.Store) (lines : List (List ℕ)) (text : List ℕ) (waiting : List (List ℕ))
            → HasServed first lines text waiting host.old
            → WritesDue (λ lines text waiting. HasServed first lines text waiting host.new) lines text waiting
            self.old.block.text.items self.new.block.text.items self.old.reader self.new.reader (W.held out.old)
            (W.held out.new) result }
        ensures room { OnOk result (HasRoom host.new self.new.block.lines self.new.block.text.items
            × MaySettle host.new self.new.block.lines self.new.block.text.items) }
        ensures idle { OnOk result (MayServeOn host.new self.new) }
        ensures settled { OnErr result (IsSettled host.new) }
        ensures reader { self.old.reader.lines ≤ self.new.reader.lines }
        ensures count { CountsFaults (W.faults out.old) (W.faults out.new) (is_err result) }
    {
        if self.is_due(host) {
            host.write(rt, gate, &mut self.reader, &mut self.block, out)
        } else {
            Ok(())
        }
    }

    /// Whether answers are to be written before more is read: no other line can be taken, or no whole line is in hand.
    fn is_due<T: Store>(&self, host: &LineHost<T>) -> bool
        requires { MaySettle host.now self.now.block.lines self.now.block.text.items }
        ensures room { result ≡ false → HasRoom host.now self.now.block.lines self.now.block.text.items }
        ensures in_hand { result ≡ false → IsInHand self.now.reader }
    {
        host.is_full(&self.block) || !self.reader.has_line()
    }

    /// Answers the lines that wait, writes the answers that are left, and says how serving ended.
    fn end<R, T, W, G>(
        &mut self,
        rt: &R,
        gate: &G,
        host: &mut LineHost<T>,
        served: Served,
        out: &mut W,
    ) -> Served
    where
        R: Threads + Wait + Sync,
        T: Store + Send,
        W: Sink,
        G: Gate + Sync,
        requires open { MaySettle host.old self.old.block.lines self.old.block.text.items }
        ensures ended { (first : LineHost T T.Store) (lines : List (List ℕ)) (text : List ℕ) (waiting : List (List ℕ))
            → HasServed first lines text waiting host.old
            → Finishes (λ lines text waiting. HasServed first lines text waiting host.new) lines text waiting
            self.old.block.text.items
            (W.held out.old) (W.held out.new) served result }
        ensures settled { IsSettled host.new }
        ensures count { write_failed served ≡ false
            → CountsFaults (W.faults out.old) (W.faults out.new) (write_failed result) }
        ensures read { read_failed result ≡ true → read_failed served ≡ true }
    {
        match host.write_last(rt, gate, &mut self.block, out) {
            Ok(()) => served,
            Err(WriteFault) => Served::WriteFault,
        }
    }
}
