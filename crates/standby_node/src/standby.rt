//! A standby, which is fed with a stream in pieces of any size.
ghost use Rattle.std.specs.Prelude.{◌≡◌, ℕ, ◌+◌, ◌<◌, ◌≤◌, Bool, true, IsTrue, IsOk, List, [], ◌∷◌, ◌++◌, length, min, slice_get, Some, take};
ghost use Rattle.std.specs.List.{flat_map};
ghost use Rattle.issuer_base.specs.declared.entry.Entry.{Entry};
ghost use Rattle.issuer_setup.specs.IssuerSetup.{Setup};
ghost use Rattle.host_loading.specs.Hosts.{AreShards};
ghost use Rattle.feed_text.specs.declared.limits.TheConstants.{MOST_FEED_BYTES};
ghost use Rattle.standby_node.specs.OneLine.{Does, HasTakenLines};
ghost use Rattle.line_checks.specs.declared.lines_ahead.TheConstants.{MOST_AHEAD};
ghost use Rattle.line_reader.specs.Lines.{IsUnbroken, ended};
ghost use Rattle.standby_node.specs.ReadLines.{AreAhead, AreReady, IsNoneAhead};
ghost use Rattle.standby_node.specs.Standing.{Feeds, HasTaken, Hold, KeepsNode, KeepsShards, LeavesBetween, live_in, shards_in};
ghost use Rattle.standby_node.specs.Streams.{line_number};

use crate::feed_lines::FeedLines;
use crate::line::{FeedFault, read_line, take_line, take_read};
use arrayvec::ArrayVec;
use feed_text::MOST_FEED_BYTES;
use issuer_base::Store;
use issuer_setup::Issuer;
use line_reader::NEWLINE;
use memchr::memchr;
use shard_book::Shard;

/// A node that takes the records of another host's feed into the shards of an issuer, in any order and number, each
/// record once.
pub struct Standby<S: Store> {
    shards: Vec<Shard<S>>,

    /// The stream's unfinished last line, truncated. With as many bytes it is too long already.
    line: ArrayVec<u8, MOST_FEED_BYTES>,

    /// How many whole lines the stream had. The count saturates.
    lines: u64,
    live: bool,
}

impl<S: Store> Standby<S> {
    /// A standby that was fed with nothing. To be fed, it needs all shards of one issuer, in the order of their
    /// numbers.
    pub fn new(shards: Vec<Shard<S>>) -> Standby<S>
        ensures opened { (issuer : Setup) (in_doubt : ℕ → Bool) (histories : List (List Entry))
            → Hold issuer in_doubt shards.items histories → HasTaken issuer in_doubt histories [] result histories }
        ensures shards { shards_in result ≡ shards.items }
        ensures live { live_in result ≡ true }
    {
        Standby {
            shards,
            line: ArrayVec::new(),
            lines: 0,
            live: true,
        }
    }

    /// Takes the next piece of the stream: the records of its whole lines, each durable before the next line is taken.
    /// A line without a newline is kept for the next piece. The shards are those of this issuer.
    ///
    /// After a fault the standby isn't live.
    pub fn feed(&mut self, issuer: &Issuer, piece: &[u8]) -> Result<(), FeedFault>
        requires live { IsTrue (live_in self.old) }
        requires shards { AreShards issuer.now (shards_in self.old) }

        // What the shards hold is what the whole stream so far makes of the opening histories, however it was cut. A
        // crash leaves of each store a history between the one before the call and the one after.
        ensures fed { (in_doubt : ℕ → Bool) (opening histories : List (List Entry)) (stream : List ℕ)
            → HasTaken issuer.now in_doubt opening stream self.old histories
            → (after : List (List Entry))
            × Feeds issuer.now in_doubt opening (stream ++ piece.now) result self.new after
            × LeavesBetween issuer.now histories after (shards_in self.old) (shards_in self.new) }

        // It stays live unless there is a fault, and a store's fault counter increases exactly if the fault names it.
        ensures kept { KeepsNode issuer.now self.old result self.new }
    {
        let fed = self.take_piece(issuer, piece);
        self.live = fed.is_ok();
        fed
    }

    /// Reads a whole line of the stream ahead of its turn, without its newline.
    pub fn read_ahead(&self, issuer: &Issuer, line: &[u8], ahead: &mut FeedLines)
        requires shards { AreShards issuer.now (shards_in self.now) }
        requires room { AreReady issuer.now ahead.old × (length ahead.old.lines.items < MOST_AHEAD) }
        requires line { IsUnbroken line.now }
        ensures read { (in_doubt : ℕ → Bool) (histories : List (List Entry)) (lines : List (List ℕ))
            → Hold issuer.now in_doubt (shards_in self.now) histories → AreAhead histories lines ahead.old
            → AreAhead histories (lines ++ line.now ∷ []) ahead.new }
        ensures ready { AreReady issuer.now ahead.new }
        ensures count { length ahead.new.lines.items ≡ length ahead.old.lines.items + 1 }
    {
        let (read, text) = read_line(&self.shards, issuer, line);
        ahead.add(issuer, read, text);
    }

    /// Takes the lines that were read ahead, in their order, behind the whole lines of the stream. Each record is durable
    /// before the next line is taken. A line without a newline is dropped. The cryptograms of the requests are checked
    /// together.
    ///
    /// After a fault the standby isn't live.
    pub fn take_lines(&mut self, issuer: &Issuer, ahead: &mut FeedLines) -> Result<(), FeedFault>
        requires live { IsTrue (live_in self.old) }
        requires shards { AreShards issuer.now (shards_in self.old) }
        requires ahead { AreReady issuer.now ahead.old × (length ahead.old.lines.items ≤ MOST_AHEAD) }

        // As for `feed`, where the stream goes on with these lines.
        ensures fed { (in_doubt : ℕ → Bool) (opening histories : List (List Entry)) (stream : List ℕ)
            (lines : List (List ℕ)) → (was : HasTaken issuer.now in_doubt opening stream self.old histories)
            → AreAhead histories lines ahead.old
            → (after : List (List Entry))
            × Feeds issuer.now in_doubt opening (flat_map ended (was.taken.lines ++ lines)) result self.new after
            × LeavesBetween issuer.now histories after (shards_in self.old) (shards_in self.new) }
        ensures kept { KeepsNode issuer.now self.old result self.new }
        ensures none { IsNoneAhead ahead.new }
    {
        self.line.clear();
        ahead.check(issuer);
        let taken = self.take_ahead(issuer, ahead);
        ahead.clear();
        self.live = taken.is_ok();
        taken
    }

    /// Whether it can be fed: no piece had a fault.
    pub fn is_live(&self) -> bool
        ensures { result ≡ live_in self.now }
    {
        self.live
    }

    /// How many records the shard with this number has.
    pub fn records(&self, shard: u8) -> u64
        requires { shard < length (shards_in self.now) }
        ensures { (issuer : Setup) (in_doubt : ℕ → Bool) (histories : List (List Entry)) (history : List Entry)
            → Hold issuer in_doubt (shards_in self.now) histories → slice_get histories shard ≡ Some history
            → result ≡ length history }
    {
        self.shards[usize::from(shard)].places()
    }

    /// The shards, to serve from. A line without a newline is dropped.
    pub fn promote(self) -> Vec<Shard<S>>
        ensures { result.items ≡ shards_in self }
    {
        let Standby {
            shards,
            line: _,
            lines: _,
            live: _,
        } = self;
        shards
    }

    /// Takes the lines that were read ahead.
    fn take_ahead(&mut self, issuer: &Issuer, ahead: &FeedLines) -> Result<(), FeedFault>
        requires shards { AreShards issuer.now (shards_in self.old) }
        requires ahead { AreReady issuer.now ahead.now }
        ensures fed { (in_doubt : ℕ → Bool) (opening histories : List (List Entry)) (before lines : List (List ℕ))
            → HasTakenLines issuer.now in_doubt opening before self.old histories → AreAhead histories lines ahead.now
            → (after : List (List Entry))
            × Feeds issuer.now in_doubt opening (flat_map ended (before ++ lines)) result self.new after
            × LeavesBetween issuer.now histories after (shards_in self.old) (shards_in self.new) }
        ensures kept { KeepsShards issuer.now (shards_in self.old) result (shards_in self.new) }
    {
        let found = ahead.found();
        for (i, line) in ahead.lines().iter().enumerate() {
            self.lines = self.lines.saturating_add(1);
            let made = ahead.made(i);
            match take_read(
                &mut self.shards,
                issuer,
                line,
                ahead.text(i),
                &found[i],
                made.as_ref(),
                self.lines,
            ) {
                Ok(()) => {}
                Err(fault) => return Err(fault),
            }
        }
        Ok(())
    }

    /// Takes the lines that a piece ends, and keeps the bytes after them.
    fn take_piece(&mut self, issuer: &Issuer, piece: &[u8]) -> Result<(), FeedFault>
        requires { AreShards issuer.now (shards_in self.old) }
        ensures fed { (in_doubt : ℕ → Bool) (opening histories : List (List Entry)) (stream : List ℕ)
            → HasTaken issuer.now in_doubt opening stream self.old histories
            → (after : List (List Entry))
            × Feeds issuer.now in_doubt opening (stream ++ piece.now) result self.new after
            × LeavesBetween issuer.now histories after (shards_in self.old) (shards_in self.new) }
        ensures kept { KeepsShards issuer.now (shards_in self.old) result (shards_in self.new) }
    {
        let mut left = piece;
        'lines: while let Some(end) = memchr(NEWLINE, left) {
            self.keep(&left[..end]);
            left = &left[end + 1..];
            match self.end_line(issuer) {
                Ok(()) => {}
                Err(fault) => return Err(fault),
            }
        }
        self.keep(left);
        Ok(())
    }

    /// Takes the line in hand, which a newline ended.
    fn end_line(&mut self, issuer: &Issuer) -> Result<(), FeedFault>
        requires { AreShards issuer.now (shards_in self.old) }
        ensures does { (in_doubt : ℕ → Bool) (histories : List (List Entry)) (line : List ℕ)
            → Hold issuer.now in_doubt (shards_in self.old) histories
            → self.old.line.items ≡ take MOST_FEED_BYTES line
            → (after : List (List Entry))
            × Does issuer.now in_doubt histories line (line_number self.old.lines) result (shards_in self.new) after
            × LeavesBetween issuer.now histories after (shards_in self.old) (shards_in self.new) }
        ensures none { IsOk result → self.new.line.items ≡ [] }
        ensures lines { self.new.lines ≡ line_number self.old.lines }
        ensures kept { KeepsShards issuer.now (shards_in self.old) result (shards_in self.new) }
    {
        self.lines = self.lines.saturating_add(1);
        if self.line.is_full() {
            return Err(FeedFault::BadFeed(self.lines));
        }
        let taken = take_line(&mut self.shards, issuer, self.line.as_slice(), self.lines);
        self.line.clear();
        taken
    }

    /// Keeps more bytes of the line in hand, as many as fit.
    fn keep(&mut self, bytes: &[u8])
        ensures line { (line : List ℕ) → self.old.line.items ≡ take MOST_FEED_BYTES line
            → self.new.line.items ≡ take MOST_FEED_BYTES (line ++ bytes.now) }
        ensures shards { shards_in self.new ≡ shards_in self.old }
        ensures lines { self.new.lines ≡ self.old.lines }
    {
        let count = bytes.len().min(self.line.remaining_capacity());
        self.line.try_extend_from_slice(&bytes[..count]).unwrap();
    }
}
