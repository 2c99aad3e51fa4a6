//! The values of the shards, moved into slots and out again.
ghost use Rattle.std.specs.Prelude.{◌≡◌, ℕ, ◌+◌, ◌*◌, ◌<◌, ◌≤◌, false, List, [], All, length, map, Some, None, IsSome, IfOk, vec_len, vec_capacity, slice_index_or};
ghost use Rattle.std.specs.Mem.Slots.{slots_items, slots_filled, slots_len, IsFull};
ghost use Rattle.issuer_base.specs.declared.limits.TheConstants.{MAX_SHARDS};
ghost use Rattle.turn_book.specs.Opening.{AreOpeningWords};

use crate::layout::{SHARD_WORDS, count_word};
use crate::opening::{Opening, OpeningLogs, opening_key};
use atomic_table::Closed;
use crossbeam_utils::CachePadded;
use issuer_base::MAX_SHARDS;
use std::alloc::{AllocError, Global};
use std::sync::atomic::AtomicU64;

/// How many callers sleep for a shard's turn or are about to, in a cache line of its own.
pub(crate) type Sleepers = CachePadded<AtomicU64>;

/// An empty list with room for the value of each shard.
pub(crate) struct Spare<V> {
    list: Vec<V>,
    ghost empty: { vec_len list ≡ 0 },
    ghost room: { MAX_SHARDS ≤ vec_capacity list },
}

impl<V> Spare<V> {
    pub(crate) fn new(list: Vec<V>) -> Spare<V>
        requires { (vec_len list ≡ 0) × (MAX_SHARDS ≤ vec_capacity list) }
    {
        Spare { list }
    }

    pub(crate) fn into_list(self) -> Vec<V>
        ensures { (result.items ≡ []) × (MAX_SHARDS ≤ vec_capacity result) }
    {
        let Spare { list } = self;
        list
    }
}

/// The initial words of a table: each log has its count of items, and each turn is free.
pub(crate) fn opening_words(alloc: Global, counts: &[u64]) -> Result<Vec<u64>, AllocError>
    requires { length counts.now ≤ MAX_SHARDS }
    ensures { IfOk result (λ words. AreOpeningWords counts.now words.items) }
{
    let mut words = vec![in alloc; 0; SHARD_WORDS * counts.len()]?;
    for (shard, &count) in counts.iter().enumerate() {
        words[count_word(shard as u8)] = count;
    }
    Ok(words)
}

/// Moves the values into slots, in order.
pub(crate) fn fill_slots<V>(values: &mut Vec<V>, slots: &mut Vec<Option<V>>)
    requires empty { slots.old.items ≡ [] }
    requires room { vec_len values.old ≤ vec_capacity slots.old }
    ensures values { (values.new.items ≡ []) × (vec_capacity values.new ≡ vec_capacity values.old) }
    ensures slots { slots.new.items ≡ map Some values.old.items }
{
    while let Some(value) = values.pop() {
        slots.push_reserved(Some(value));
    }
    slots.reverse();
}

/// Moves the values out of full slots, in order.
pub(crate) fn empty_slots<V>(mut slots: Vec<Option<V>>, values: &mut Vec<V>)
    requires full { All IsSome slots.items }
    requires empty { values.old.items ≡ [] }
    requires room { vec_len slots ≤ vec_capacity values.old }
    ensures { map Some values.new.items ≡ slots.items }
{
    while let Some(slot) = slots.pop() {
        values.push_reserved(slot.unwrap());
    }
    slots.destroy_empty();
    values.reverse();
}

/// Takes the values of a closed table, in order.
pub(crate) fn take_values<V>(closed: &mut Closed<Option<V>, Global>, values: &mut Vec<V>)
    requires full { IsFull closed.old.slots × All IsSome (slots_items closed.old.slots) }
    requires empty { values.old.items ≡ [] }
    requires room { slots_len closed.old.slots ≤ vec_capacity values.old }
    ensures values { map Some values.new.items ≡ slots_items closed.old.slots }
    ensures taken { (k : ℕ) → k < slots_len closed.new.slots
        → slice_index_or (slots_filled closed.new.slots) k false ≡ false }
{
    for shard in 0..closed.slot_count() {
        values.push_reserved(closed.take(shard).unwrap());
    }
}

/// The parts of a table before it exists: its words, its key, and room for its slots.
pub(crate) struct Ground<V, I, B> {
    pub(crate) words: Vec<u64>,
    pub(crate) key: Opening<I, B>,
    pub(crate) slots: Vec<Option<V>>,
    pub(crate) sleepers: Vec<Sleepers>,
}

/// No sleepers, at each of so many shards.
fn no_sleepers(alloc: Global, count: usize) -> Result<Vec<Sleepers>, AllocError>
    ensures { IfOk result (λ sleepers. vec_len sleepers ≡ count) }
{
    let mut sleepers = Vec::with_capacity(alloc, count)?;
    for _ in 0..count {
        sleepers.push_reserved(CachePadded::new(AtomicU64::new(0)));
    }
    Ok(sleepers)
}

/// Allocates the parts of a table for the values, and reserves room for `MAX_SHARDS` values in their list.
pub(crate) fn take_ground<V, J: OpeningLogs<I, B>, I, B>(
    alloc: Global,
    values: &mut Vec<V>,
    counts: &[u64],
) -> Result<Ground<V, I, B>, AllocError>
    requires { (vec_len values.old ≤ MAX_SHARDS) × (length counts.now ≡ vec_len values.old) }
    ensures values { values.new.items ≡ values.old.items }
    ensures words { IfOk result (λ ground. AreOpeningWords counts.now ground.words.items) }
    ensures key { IfOk result (λ ground. ground.key.view ≡ J.opening) }
    ensures slots { IfOk result (λ ground. (ground.slots.items ≡ []) × (vec_len values.new ≤ vec_capacity ground.slots)
        × (MAX_SHARDS ≤ vec_capacity values.new)) }
    ensures sleepers { IfOk result (λ ground. vec_len ground.sleepers ≡ vec_len values.old) }
{
    let count = values.len();
    values.reserve(MAX_SHARDS as usize - count)?;
    let words = opening_words(alloc, counts)?;
    let key = opening_key::<J, I, B>(alloc)?;
    let sleepers = no_sleepers(alloc, count)?;
    let slots = Vec::with_capacity(alloc, count)?;
    Ok(Ground {
        words,
        key,
        slots,
        sleepers,
    })
}
