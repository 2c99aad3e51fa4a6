//! The lists of the shards, as they come in and go out again.
ghost use Rattle.std.specs.Prelude.{◌≡◌, ◌≤◌, [], length, map, IfOk, vec_len, vec_capacity};
ghost use Rattle.issuer_base.specs.declared.limits.TheConstants.{MAX_SHARDS};
ghost use Rattle.turn_book.specs.Logs.{StandFor};
ghost use Rattle.shared_shards.specs.Opening.{AreOpeningLogs};

use crate::locked_shard::LockedShard;
use crate::opening::Logs;
use atomic_table::Mark;
use issuer_base::{MAX_SHARDS, NoMemory, Store};
use issuer_setup::Issuer;
use shard_book::Shard;
use std::alloc::Global;
use std::snapshot::Snapshot;

/// An empty list with room for each shard.
pub(crate) struct Spare<S: Store> {
    list: Vec<Shard<S>>,
    ghost empty: { vec_len list ≡ 0 },
    ghost room: { MAX_SHARDS ≤ vec_capacity list },
}

impl<S: Store> Spare<S> {
    /// This list.
    pub(crate) fn new(list: Vec<Shard<S>>) -> Spare<S>
        requires { (vec_len list ≡ 0) × (MAX_SHARDS ≤ vec_capacity list) }
    {
        Spare { list }
    }

    /// The list.
    pub(crate) fn into_list(self) -> Vec<Shard<S>>
        ensures { (result.items ≡ []) × (MAX_SHARDS ≤ vec_capacity result) }
    {
        let Spare { list } = self;
        list
    }
}

/// The shards as values of their logs, and how many records each has.
pub(crate) struct Lists<S: Store> {
    pub(crate) held: Vec<LockedShard<S>>,
    pub(crate) counts: Vec<u64>,
    pub(crate) spare: Spare<S>,
}

/// Empty lists, the first two with room for so many shards.
pub(crate) fn take_lists<S: Store>(alloc: Global, count: usize) -> Result<Lists<S>, NoMemory>
    ensures held { IfOk result (λ lists. (lists.held.items ≡ []) × (count ≤ vec_capacity lists.held)) }
    ensures counts { IfOk result (λ lists. (lists.counts.items ≡ []) × (count ≤ vec_capacity lists.counts)) }
{
    let counts = Vec::with_capacity(alloc, count)?;
    let spare = Vec::with_capacity(alloc, usize::from(MAX_SHARDS))?;
    let Ok(held) = Vec::with_capacity(alloc, count) else {
        spare.destroy_empty();
        return Err(NoMemory);
    };
    Ok(Lists {
        held,
        counts,
        spare: Spare::new(spare),
    })
}

/// Moves loaded shards into the lists, in order: they stand for their opening logs, whose lengths are the counts.
pub(crate) fn hold_all<S: Store>(
    issuer: &Issuer,
    olds: &Snapshot<Vec<S>>,
    stores: &Snapshot<Vec<S>>,
    logs: &Mark<Logs>,
    shards: Vec<Shard<S>>,
    lists: &mut Lists<S>,
)
    requires opening { AreOpeningLogs issuer.now olds.now.value.items stores.now.value.items shards.items
        logs.now.view }
    requires empty { (lists.old.held.items ≡ []) × (lists.old.counts.items ≡ []) }
    requires room { (vec_len shards ≤ vec_capacity lists.old.held) × (vec_len shards ≤ vec_capacity lists.old.counts) }
    ensures shards { map (λ held. held.shard) lists.new.held.items ≡ shards.items }
    ensures counts { lists.new.counts.items ≡ map (λ log. length log.items) logs.now.view }
{
    let _ = issuer;
    let _ = olds;
    let _ = stores;
    let _ = logs;
    let mut ahead = shards;
    ahead.reverse();
    while let Some(shard) = ahead.pop() {
        lists.counts.push_reserved(shard.places());
        lists.held.push_reserved(LockedShard { shard });
    }
    ahead.destroy_empty();
}

/// The shards of these values, in order. It doesn't allocate.
pub(crate) fn release_all<S: Store>(mut held: Vec<LockedShard<S>>, spare: Spare<S>) -> Vec<Shard<S>>
    requires { vec_len held ≤ MAX_SHARDS }
    ensures { result.items ≡ map (λ held. held.shard) held.items }
{
    let mut shards = spare.into_list();
    while let Some(LockedShard { shard }) = held.pop() {
        shards.push_reserved(shard);
    }
    held.destroy_empty();
    shards.reverse();
    shards
}
