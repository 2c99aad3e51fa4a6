//! The lines of a feed, checked together and taken one after another, and how many records each shard has, written at the
//! end.
ghost use Rattle.std.specs.Prelude.{◌≡◌, ◌<◌, ℕ, List, [], ◌∷◌, ◌++◌, length, true, false, IsTrue, is_err, IfOk, OnOk};
ghost use Rattle.issuer_base.specs.OutsideFaults.{Rose, CountsFaults};
ghost use Rattle.issuer_base.specs.Sink.{WritesAll};
ghost use Rattle.issuer_base.specs.declared.entry.Entry.{Entry};
ghost use Rattle.line_checks.specs.declared.lines_ahead.TheConstants.{MOST_AHEAD};
ghost use Rattle.line_reader.specs.Lines.{IsUnbroken};
ghost use Rattle.line_reader.specs.NextLine.{is_fault};
ghost use Rattle.host_loading.specs.Hosts.{AreShards};
ghost use Rattle.standby_node.specs.ReadLines.{IsNoneAhead};
ghost use Rattle.standby_node.specs.Standing.{HasTaken, Hold, KeepsNode, KeepsShards, LeavesBetween, live_in, shards_in};
ghost use Rattle.line_serving.specs.Following.{ended_by, stopped_by};

use answer_text::{LINE_ROOM, write_count};
use arrayvec::ArrayVec;
use issuer_base::{NoMemory, Sink, Source, Store, WriteFault};
use issuer_setup::Issuer;
use line_blocks::Block;
use line_reader::{LineReader, NextLine};
use standby_node::{FeedFault, FeedLines, Standby};
use std::alloc::Global;

/// How taking a feed ended.
#[derive(Clone, Copy)]
pub enum Followed {
    /// The whole feed was read, its lines were taken, and the numbers of records were written.
    All,
    /// The feed failed.
    ReadFault,
    /// The sink failed.
    WriteFault,
    /// The feed goes past a limit.
    TooLong {
        /// The number of the line, from 1, in which it does.
        line: u64,
    },
    /// A line of the feed is bad.
    BadFeed {
        /// Its number, from 1.
        line: u64,
    },
    /// The store of a shard failed.
    StoreFault {
        /// The number of the shard, from 0.
        shard: u8,
    },
}

/// What it takes to read a feed and to write how many records each shard has.
#[derive(Drop)]
pub struct Follower {
    reader: LineReader,
    block: Block,

    /// The lines that wait to be taken.
    ahead: FeedLines,

    /// The last line that was put into the block.
    line: ArrayVec<u8, LINE_ROOM>,
}

impl Follower {
    ghost use Rattle.line_serving.specs.Following.{FollowsFeed, HasLines, IsNew, MayRead, MayWait, ReadsOn};
    ghost use Rattle.line_serving.specs.Idle.{IsInHand, MayReadOn, ReadsNext};
    ghost use Rattle.line_serving.specs.Following.{WritesCounts, counts_text, fault_of, read_failed, write_failed};

    /// All the memory that taking a feed takes.
    pub fn new(alloc: Global) -> Result<Self, NoMemory>
        ensures { IfOk result IsNew }
    {
        Ok(Follower {
            reader: LineReader::new(alloc)?,
            block: Block::new(alloc)?,
            ahead: FeedLines::new(alloc)?,
            line: ArrayVec::new(),
        })
    }

    /// Feeds the whole lines of an input to a standby, before more of the input is waited for; a torn last line is
    /// dropped. At the end of the input it writes how many records each shard has.
    pub fn follow<S: Store, I: Source, W: Sink>(
        &mut self,
        issuer: &Issuer,
        node: &mut Standby<S>,
        source: &mut I,
        out: &mut W,
    ) -> Followed
        requires new { IsNew self.old × IsTrue (live_in node.old) }
        requires shards { AreShards issuer.now (shards_in node.old) }

        // What the shards hold is what the lines that were taken make of the opening histories, and what is written is
        // how many records they have.
        ensures followed { (opening : List (List Entry)) → HasTaken issuer.now (λ _. false) opening [] node.old opening
            → (histories : List (List Entry))
            × FollowsFeed issuer.now opening (I.left source.old) (I.left source.new) node.old node.new result histories
            × WritesCounts result (W.held out.old) (W.held out.new) (counts_text histories) }

        // Only the store counted a fault that the result names.
        ensures kept { KeepsShards issuer.now (shards_in node.old) (fault_of result) (shards_in node.new) }
        ensures source_count { read_failed result ≡ true → Rose (I.faults source.old) (I.faults source.new) }
        ensures sink_count { CountsFaults (W.faults out.old) (W.faults out.new) (write_failed result) }
    {
        match self.feed_lines(issuer, node, source) {
            Followed::All => match self.write_counts(issuer, node, out) {
                Ok(()) => Followed::All,
                Err(WriteFault) => Followed::WriteFault,
            },
            followed => followed,
        }
    }

    /// Feeds the whole lines of an input to a standby.
    fn feed_lines<S: Store, I: Source>(
        &mut self,
        issuer: &Issuer,
        node: &mut Standby<S>,
        source: &mut I,
    ) -> Followed
        requires new { IsNew self.old × IsTrue (live_in node.old) }
        requires shards { AreShards issuer.now (shards_in node.old) }
        ensures followed { (opening : List (List Entry)) → HasTaken issuer.now (λ _. false) opening [] node.old opening
            → (histories : List (List Entry))
            × FollowsFeed issuer.now opening (I.left source.old)
            (I.left source.new) node.old node.new result histories }
        ensures kept { KeepsShards issuer.now (shards_in node.old) (fault_of result) (shards_in node.new) }
        ensures count { read_failed result ≡ true → Rose (I.faults source.old) (I.faults source.new) }
        ensures none_written { write_failed result ≡ false }
        ensures block { self.new.block ≡ self.old.block }
    {
        loop {
            match Follower::read_on(&mut self.reader, &self.ahead, source) {
                NextLine::Line => match self.take_line(issuer, node) {
                    Ok(()) => {}
                    Err(fault) => return stopped(fault),
                },
                NextLine::Rest | NextLine::End => {
                    let taken = node.take_lines(issuer, &mut self.ahead);
                    return ended(taken, Followed::All);
                }
                NextLine::Fault => {
                    let taken = node.take_lines(issuer, &mut self.ahead);
                    return ended(taken, Followed::ReadFault);
                }
                NextLine::TooLong => {
                    let line = u64::from(self.reader.number()) + 1;
                    let taken = node.take_lines(issuer, &mut self.ahead);
                    return ended(taken, Followed::TooLong { line });
                }
            }
        }
    }

    /// Reads the next line. Only this call reads the feed. If no whole line is in memory, it waits for more of the feed:
    /// then no line waits, so the record of each line that was read is durable.
    fn read_on<I: Source>(reader: &mut LineReader, ahead: &FeedLines, source: &mut I) -> NextLine
        requires idle { MayReadOn reader.old (IsNoneAhead ahead.now) }
        ensures found { ReadsNext result (I.left source.old) (I.left source.new) reader.old reader.new }
        ensures count { CountsFaults (I.faults source.old) (I.faults source.new) (is_fault result) }
    {
        reader.next_line(source)
    }

    /// Reads the line in hand ahead. All lines that wait are taken, once they are as many as are checked together, and
    /// before more of the input is waited for.
    fn take_line<S: Store>(
        &mut self,
        issuer: &Issuer,
        node: &mut Standby<S>,
    ) -> Result<(), FeedFault>
        requires may { MayRead issuer.now self.old.ahead node.old }
        requires line { IsUnbroken self.old.reader.line }
        ensures taken { (opening histories : List (List Entry)) (lines : List (List ℕ))
            → HasLines issuer.now opening lines self.old.ahead node.old histories
            → (after : List (List Entry))
            × ReadsOn issuer.now opening (lines ++ self.old.reader.line ∷ []) result self.new.ahead node.new after
            × LeavesBetween issuer.now histories after (shards_in node.old) (shards_in node.new) }
        ensures kept { KeepsNode issuer.now node.old result node.new }
        ensures room { MayWait issuer.now self.new.ahead }
        ensures idle { OnOk result (MayReadOn self.new.reader (IsNoneAhead self.new.ahead)) }
        ensures same { (self.new.reader ≡ self.old.reader) × (self.new.block ≡ self.old.block) }
    {
        node.read_ahead(issuer, self.reader.line(), &mut self.ahead);
        if self.is_due() {
            node.take_lines(issuer, &mut self.ahead)
        } else {
            Ok(())
        }
    }

    /// Whether the lines that wait are to be taken before more is read: no other line may wait, or no whole line is in
    /// hand.
    fn is_due(&self) -> bool
        ensures room { result ≡ false → length self.now.ahead.lines.items < MOST_AHEAD }
        ensures in_hand { result ≡ false → IsInHand self.now.reader }
    {
        self.ahead.is_full() || !self.reader.has_line()
    }

    /// Writes how many records each shard has.
    fn write_counts<S: Store, W: Sink>(
        &mut self,
        issuer: &Issuer,
        node: &Standby<S>,
        out: &mut W,
    ) -> Result<(), WriteFault>
        requires empty { (self.old.block.text.items ≡ []) × (self.old.block.lines ≡ 0) }
        requires shards { AreShards issuer.now (shards_in node.now) }
        ensures written { (histories : List (List Entry)) → Hold issuer.now (λ _. false) (shards_in node.now) histories
            → WritesAll (W.held out.old) (W.held out.new) result (counts_text histories) }
        ensures count { CountsFaults (W.faults out.old) (W.faults out.new) (is_err result) }
    {
        for shard in 0..issuer.shards() {
            write_count(shard, node.records(shard), &mut self.line);
            self.block.add_line(&self.line);
        }
        self.block.write(out)
    }
}

/// How taking a feed ended: as reading it did, unless its lines had a fault.
fn ended(taken: Result<(), FeedFault>, followed: Followed) -> Followed
    ensures { result ≡ ended_by taken followed }
{
    match taken {
        Ok(()) => followed,
        Err(fault) => stopped(fault),
    }
}

/// How taking a feed ended whose lines had this fault.
fn stopped(fault: FeedFault) -> Followed
    ensures { result ≡ stopped_by fault }
{
    match fault {
        FeedFault::BadFeed(line) => Followed::BadFeed { line },
        FeedFault::StoreFault(shard) => Followed::StoreFault { shard },
    }
}
