//! The last line of a run that stops with an error.
ghost use Rattle.std.specs.Prelude.{◌≡◌};
ghost use Rattle.answer_text.specs.AnswerText.{IsLine};
ghost use Rattle.answer_text.specs.StopText.{stop_text, status_of_stop};

use crate::words::{LINE_ROOM, put, put_number};
use arrayvec::ArrayVec;

/// The error with which a run stops, before its input ends or before it began.
#[derive(Clone, Copy)]
pub enum Stop {
    /// The command-line arguments are wrong: status 1.
    Usage,

    /// The configuration is broken at this index of this part: status 2.
    Config { part: u8, index: u32 },

    /// The configuration or the request file couldn't be opened or read: status 3.
    ReadFault,

    /// The journal of this shard couldn't be opened, or its store failed while it was loaded: status 5.
    StoreFault { shard: u8 },

    /// This line of this shard's journal, counted from 1, isn't the one that stands there in every journal of this
    /// shard, is no record, or not a valid successor: status 6.
    BadJournal { shard: u8, line: u64 },

    /// This line of this shard's old journal, of version 1, counted from 1, is no record, or not a valid successor:
    /// status 6.
    BadOldJournal { shard: u8, line: u64 },

    /// Out of memory: status 7.
    NoMemory,

    /// The input is longer than the host reads, and this line, counted from 1, has the first byte past
    /// the limit: status 8.
    TooLong { line: u64 },

    /// The entry at this offset of the DOL isn't whole or is past a limit: status 9.
    BadDol { at: usize },

    /// The data object at this offset isn't whole, repeats a tag or is past a limit: status 10.
    BadData { at: usize },

    /// This line of the feed, counted from 1, has more than 524 bytes, doesn't begin with a shard of the issuer and an
    /// index below 2^63, or has no record or no valid successor where the shard's next one is due: status 11.
    BadFeed { line: u64 },

    /// No card has the account number and the sequence number, no key set has the derivation key index, or that set has
    /// no master key for confidentiality: status 12.
    NoKey,
}

impl Stop {
    /// The exit status of a run that stops with this error.
    pub fn status(&self) -> u8
        ensures { result ≡ status_of_stop self.now }
    {
        match self {
            Stop::Usage => 1,
            Stop::Config { .. } => 2,
            Stop::ReadFault => 3,
            Stop::StoreFault { .. } => 5,
            Stop::BadJournal { .. } | Stop::BadOldJournal { .. } => 6,
            Stop::NoMemory => 7,
            Stop::TooLong { .. } => 8,
            Stop::BadDol { .. } => 9,
            Stop::BadData { .. } => 10,
            Stop::BadFeed { .. } => 11,
            Stop::NoKey => 12,
        }
    }
}

/// Writes the last line of a run that stops with an error to `out`, and replaces its contents.
#[tactic(auto, unfolding(crate::specs::StopText::stop_text, crate::specs::StopText::stop_words))]
pub fn write_stop(stop: &Stop, out: &mut ArrayVec<u8, LINE_ROOM>)
    ensures text { out.new.items ≡ stop_text stop.now }
    ensures line { IsLine out.new.items }
{
    out.clear();
    put(out, b"stop");
    put_number(out, u64::from(stop.status()));
    match *stop {
        Stop::Usage | Stop::ReadFault | Stop::NoMemory | Stop::NoKey => {}
        Stop::Config { part, index } => {
            put_number(out, u64::from(part));
            put_number(out, u64::from(index));
        }
        Stop::StoreFault { shard } => put_number(out, u64::from(shard)),
        Stop::BadJournal { shard, line } => {
            put_number(out, u64::from(shard));
            put_number(out, line);
        }
        Stop::BadOldJournal { shard, line } => {
            put_number(out, u64::from(shard));
            put(out, b" old");
            put_number(out, line);
        }
        Stop::TooLong { line } | Stop::BadFeed { line } => put_number(out, line),
        Stop::BadDol { at } | Stop::BadData { at } => put_number(out, at as u64),
    }
    out.push(b'\n');
}
