//! Clearing lines, checked together and judged one after another, and their verdicts, written in blocks.
ghost use Rattle.std.specs.Prelude.{◌≡◌, ℕ, ◌+◌, ◌<◌, ◌≤◌, List, [], ◌++◌, length, map, true, false, is_err, IfOk, OnOk};
ghost use Rattle.issuer_base.specs.OutsideFaults.{Rose, CountsFaults};
ghost use Rattle.issuer_base.specs.Sink.{WritesAll};
ghost use Rattle.line_reader.specs.Reading.{kept};
ghost use Rattle.line_reader.specs.NextLine.{is_fault};
ghost use Rattle.line_blocks.specs.declared.block.TheConstants.{BLOCK_LINES};
ghost use Rattle.line_blocks.specs.Serving.{Finishes, Serves, TakesLine, WritesDue, read_failed, write_failed};
ghost use Rattle.clearing_check.specs.declared.filed.Filed.{Filed};
ghost use Rattle.clearing_check.specs.ClearingLine.{AreAhead, none_ahead};
ghost use Rattle.clearing_check.specs.ClearText.{after_lines, closing_text, verdicts_text};

use answer_text::LINE_ROOM;
use arrayvec::ArrayVec;
use clearing_check::{Book, PresentedAhead, write_open, write_total, write_verdict};
use issuer_base::{NoMemory, Sink, Source, WriteFault};
use issuer_setup::Issuer;
use line_blocks::{Block, FULL_LINES, Served};
use line_reader::{LineReader, NextLine};
use std::alloc::Global;

/// What it takes to read clearing lines and to write what their check prints.
#[derive(Drop)]
pub struct Judge {
    reader: LineReader,
    block: Block,

    /// What was looked up for the lines that wait to be judged.
    ahead: PresentedAhead,

    /// The last line that was put into the block.
    line: ArrayVec<u8, LINE_ROOM>,
}

impl Judge {
    ghost use Rattle.line_serving.specs.Idle.{IsInHand, MayReadOn, ReadsNext};
    ghost use Rattle.line_serving.specs.Clearing.{Clears, HasJudged, IsNew, MaySettle, Puts, TakesMore};

    /// All the memory that a clearing check takes beside its book.
    pub fn new(alloc: Global) -> Result<Self, NoMemory>
        ensures { IfOk result IsNew }
    {
        Ok(Judge {
            reader: LineReader::new(alloc)?,
            block: Block::new(alloc)?,
            ahead: PresentedAhead::new(alloc)?,
            line: ArrayVec::new(),
        })
    }

    /// Judges the lines of an input, and writes their verdicts. At the end of the input it writes the open records and
    /// the totals. Text is written where its block is full, and before more of the input is waited for.
    pub fn clear<I: Source, W: Sink>(
        &mut self,
        issuer: &Issuer,
        book: &mut Book,
        source: &mut I,
        out: &mut W,
    ) -> Served
        requires { IsNew self.old }
        ensures cleared { Clears issuer.now book.old (I.left source.old) (I.left source.new)
            (W.held out.old) (W.held out.new) result }
        ensures source_count { read_failed result ≡ true → Rose (I.faults source.old) (I.faults source.new) }
        ensures sink_count { CountsFaults (W.faults out.old) (W.faults out.new) (write_failed result) }
    {
        match self.judge_lines(issuer, book, source, out) {
            Served::All => match self.close(book, out) {
                Ok(()) => Served::All,
                Err(WriteFault) => Served::WriteFault,
            },
            served => served,
        }
    }

    /// Judges the lines of an input, and writes their verdicts.
    fn judge_lines<I: Source, W: Sink>(
        &mut self,
        issuer: &Issuer,
        book: &mut Book,
        source: &mut I,
        out: &mut W,
    ) -> Served
        requires { IsNew self.old }
        ensures served { Serves (λ lines text. HasJudged issuer.now book.old book.new (map kept lines) text []
            self.new.ahead) (I.left source.old) (I.left source.new) (W.held out.old) (W.held out.new) result }
        ensures empty { write_failed result ≡ false
            → (self.new.block.text.items ≡ []) × (self.new.block.lines ≡ 0) }
        ensures source_count { read_failed result ≡ true → Rose (I.faults source.old) (I.faults source.new) }
        ensures sink_count { CountsFaults (W.faults out.old) (W.faults out.new) (write_failed result) }
    {
        loop {
            match Judge::read_on(&mut self.reader, &self.block, &self.ahead, source) {
                NextLine::Line => {
                    self.take_line(issuer, book);
                    match self.write_due(issuer, book, out) {
                        Ok(()) => {}
                        Err(WriteFault) => return Served::WriteFault,
                    }
                }
                NextLine::Rest => {
                    self.take_line(issuer, book);
                    return self.end(issuer, book, Served::All, out);
                }
                NextLine::End => return self.end(issuer, book, Served::All, out),
                NextLine::Fault => return self.end(issuer, book, Served::ReadFault, out),
                NextLine::TooLong => {
                    let line = u64::from(self.reader.number()) + 1;
                    return self.end(issuer, book, Served::TooLong { line }, out);
                }
            }
        }
    }

    /// Reads the next line. Only this call reads the clearing file. If no whole line is in memory, it waits for more of the
    /// file: then no line waits to be judged, and no verdict is due.
    fn read_on<I: Source>(
        reader: &mut LineReader,
        block: &Block,
        ahead: &PresentedAhead,
        source: &mut I,
    ) -> NextLine
        requires idle { MayReadOn reader.old ((ahead.now ≡ none_ahead) × (block.now.text.items ≡ [])) }
        ensures found { ReadsNext result (I.left source.old) (I.left source.new) reader.old reader.new }
        ensures count { CountsFaults (I.faults source.old) (I.faults source.new) (is_fault result) }
    {
        reader.next_line(source)
    }

    /// Looks up the line in hand, which waits until as many lines wait as are checked together.
    fn take_line(&mut self, issuer: &Issuer, book: &mut Book)
        requires { TakesMore issuer.now self.old }
        ensures taken { (records : List Filed) (lines : List (List ℕ)) (text : List ℕ) (waiting : List (List ℕ))
            → HasJudged issuer.now records book.old lines text waiting self.old.ahead
            → TakesLine (λ lines text waiting. HasJudged issuer.now records book.new lines text waiting self.new.ahead)
            lines text waiting self.old.reader.line self.old.block.text.items self.new.block.text.items }
        ensures open { MaySettle issuer.now self.new }
        ensures reader { self.new.reader ≡ self.old.reader }
    {
        self.ahead.add(issuer, self.reader.line());
        if self.ahead.is_full() {
            self.settle(issuer, book);
        }
    }

    /// Judges all lines that wait, once their cryptograms were checked, together if they are many. The verdicts go into
    /// the block.
    fn settle(&mut self, issuer: &Issuer, book: &mut Book)
        requires room { self.old.block.lines + length self.old.ahead.found ≤ BLOCK_LINES }
        requires ahead { (lines : List (List ℕ)) × AreAhead issuer.now lines self.old.ahead }
        ensures judged { (lines : List (List ℕ)) → AreAhead issuer.now lines self.old.ahead
            → (book.new ≡ after_lines issuer.now book.old lines) × (self.new.block.text.items
            ≡ self.old.block.text.items ++ verdicts_text issuer.now book.old lines) }
        ensures none { self.new.ahead ≡ none_ahead }
        ensures count { self.new.block.lines ≡ self.old.block.lines + length self.old.ahead.found }
        ensures reader { self.new.reader ≡ self.old.reader }
    {
        self.ahead.check();
        for index in 0..self.ahead.len() {
            let found = self.ahead.get(index).unwrap();
            write_verdict(&book.judge_presented(issuer, found), &mut self.line);
            self.block.add_line(&self.line);
        }
        self.ahead.clear();
    }

    /// Judges the lines that wait and writes the verdicts, where that is due.
    fn write_due<W: Sink>(
        &mut self,
        issuer: &Issuer,
        book: &mut Book,
        out: &mut W,
    ) -> Result<(), WriteFault>
        requires { MaySettle issuer.now self.old }
        ensures written { (records : List Filed) (lines : List (List ℕ)) (text : List ℕ) (waiting : List (List ℕ))
            → HasJudged issuer.now records book.old lines text waiting self.old.ahead
            → WritesDue (λ lines text waiting. HasJudged issuer.now records book.new lines text waiting self.new.ahead)
            lines text waiting self.old.block.text.items self.new.block.text.items self.old.reader self.new.reader
            (W.held out.old) (W.held out.new) result }
        ensures room { OnOk result (TakesMore issuer.now self.new) }
        ensures idle { OnOk result (MayReadOn self.new.reader
            ((self.new.ahead ≡ none_ahead) × (self.new.block.text.items ≡ []))) }
        ensures reader { self.new.reader ≡ self.old.reader }
        ensures count { CountsFaults (W.faults out.old) (W.faults out.new) (is_err result) }
    {
        if self.is_due() {
            self.settle(issuer, book);
            self.block.write(out)
        } else {
            Ok(())
        }
    }

    /// Whether verdicts are to be written before more is read: no other line fits the block, or no whole line is in hand.
    fn is_due(&self) -> bool
        requires { self.now.block.lines + length self.now.ahead.found ≤ BLOCK_LINES }
        ensures room { result ≡ false → self.now.block.lines + length self.now.ahead.found < BLOCK_LINES }
        ensures in_hand { result ≡ false → IsInHand self.now.reader }
    {
        self.block.lines() + self.ahead.len() >= FULL_LINES || !self.reader.has_line()
    }

    /// Judges the lines that wait, writes what is left in the block, and says how the reading ended.
    fn end<W: Sink>(
        &mut self,
        issuer: &Issuer,
        book: &mut Book,
        served: Served,
        out: &mut W,
    ) -> Served
        requires { MaySettle issuer.now self.old }
        ensures ended { (records : List Filed) (lines : List (List ℕ)) (text : List ℕ) (waiting : List (List ℕ))
            → HasJudged issuer.now records book.old lines text waiting self.old.ahead
            → Finishes (λ lines text waiting. HasJudged issuer.now records book.new lines text waiting self.new.ahead)
            lines text waiting self.old.block.text.items (W.held out.old) (W.held out.new) served result }
        ensures empty { (self.new.block.text.items ≡ []) × (self.new.block.lines ≡ 0) }
        ensures count { write_failed served ≡ false
            → CountsFaults (W.faults out.old) (W.faults out.new) (write_failed result) }
        ensures read { read_failed result ≡ true → read_failed served ≡ true }
    {
        self.settle(issuer, book);
        match self.block.write(out) {
            Ok(()) => served,
            Err(WriteFault) => Served::WriteFault,
        }
    }

    /// Writes the open records and the totals.
    fn close<W: Sink>(&mut self, book: &Book, out: &mut W) -> Result<(), WriteFault>
        requires empty { (self.old.block.text.items ≡ []) × (self.old.block.lines ≡ 0) }
        ensures written { WritesAll (W.held out.old) (W.held out.new) result (closing_text book.now) }
        ensures count { CountsFaults (W.faults out.old) (W.faults out.new) (is_err result) }
    {
        let mut next = 0;
        for _ in 0..book.open_count() {
            let found = book.next_open(next).unwrap();
            write_open(found.shard, found.place, &mut self.line);
            self.put_line(out)?;
            next = found.next;
        }
        write_total(book.certified_count(), book.open_count(), &mut self.line);
        self.put_line(out)?;
        self.block.write(out)
    }

    /// Puts the line into the block, which is written first if it is full.
    fn put_line<W: Sink>(&mut self, out: &mut W) -> Result<(), WriteFault>
        requires { self.old.block.lines ≤ BLOCK_LINES }
        ensures lines { self.new.block.lines ≤ BLOCK_LINES }
        ensures put { Puts self.old.line.items self.old.block.text.items self.new.block.text.items (W.held out.old)
            (W.held out.new) result }
        ensures count { CountsFaults (W.faults out.old) (W.faults out.new) (is_err result) }
    {
        if self.block.is_full() {
            self.block.write(out)?;
        }
        self.block.add_line(&self.line);
        Ok(())
    }
}
