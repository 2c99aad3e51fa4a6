//! A shard as the value of a shard's log, and what a call of a shard appends to the log.
ghost use Rattle.shard_book.specs.Shards.{faults_in};
ghost use Rattle.shared_shards.specs.ShardLogs.{StandsForLog};
ghost use Rattle.std.specs.Prelude.{◌≡◌};
ghost use Rattle.std.specs.Option.{is_some};
ghost use Rattle.shared_shards.specs.Turned.{item_by, record_by, added_in};

use crate::logs::{LogHead, LogItem};
use issuer_base::{Answer, MAX_FAULTS_REPORTED, Refusal, Store};
use line_checks::{CheckedOrder, CheckedRequest};
use shard_book::Shard;
use turn_book::{Item, Logged};

/// A shard, which stands for a log.
pub struct LockedShard<S: Store> {
    pub(crate) shard: Shard<S>,
}

impl<S: Store> Logged<LogItem, LogHead> for LockedShard<S> {
    ghost stands = { λ held head items. StandsForLog held.shard head items };
}

/// What a shard is called with.
#[derive(Drop)]
pub(crate) enum Call<'a> {
    /// A request, to be answered.
    Decide(&'a CheckedRequest),

    /// An order, to be recorded.
    Order(&'a CheckedOrder),
}

/// A shard after a call. The item that the call appends to the shard's log is read off the call and its answer.
pub(crate) struct Called<'a, S: Store> {
    pub(crate) shard: Shard<S>,
    pub(crate) call: Call<'a>,
    pub(crate) answer: &'a Answer,

    /// How many answers of the shard reported a fault of its store before.
    pub(crate) reported: u64,
}

impl<S: Store> Item<LogItem> for Called<'_, S> {
    ghost item = { λ called. item_by (record_by called.call called.answer.now) (faults_in called.shard) };
}

impl<S: Store> Called<'_, S> {
    /// Whether the call appends an item to the log: its record, or that the store failed, up to a limit.
    pub(crate) fn adds(&self) -> bool
        ensures { result ≡ is_some (added_in self.now) }
    {
        match self.answer {
            Answer::Fresh { .. } => matches!(self.call, Call::Decide(_)),
            Answer::Queued { .. } | Answer::Set { .. } => matches!(self.call, Call::Order(_)),
            Answer::Refused(Refusal::StoreFault) => self.reported < MAX_FAULTS_REPORTED,
            Answer::Kept { .. } | Answer::Refused(_) => false,
        }
    }
}
