//! Loads the shards of a host at once, in several threads.
ghost use Rattle.std.specs.Prelude.{◌≡◌, ℕ, ◌<◌, ◌≤◌, [], length, map, vec_len, vec_capacity, All, None, Some, IfOk, IfErr, MatchOption};
ghost use Rattle.issuer_base.specs.declared.limits.TheConstants.{MAX_SHARDS};
ghost use Rattle.host_loading.specs.Loading.{AreLoaded, AreOnlyRead, AreStoresOf, ComeBackTogether};
ghost use Rattle.host_loading.specs.StoreRoom.{StoresWork};
ghost use Rattle.host_loading.specs.Slots.{HasEnded, HasTried, HaveTried, IsFirstFailed, IsWaiting, fault_in, left_in, loaded_as, store_of};

use crate::loading::{HostBack, Lists};
use issuer_base::{MAX_SHARDS, Store};
use issuer_setup::Issuer;
use shard_book::{LoadBack, LoadFault, Shard};
use std::alloc::Global;
use std::thread;
use std::thread::Threads;

/// A shard's stores while all shards are loaded, and then the shard.
pub(crate) struct Slot<S: Store> {
    /// The old store, of version 1.
    old_store: S,

    /// The store, until it is loaded.
    store: Option<S>,

    /// The shard that was loaded, or the store and why it wasn't.
    loaded: Option<Result<Shard<S>, LoadBack<S>>>,
}

impl<S: Store> Slot<S> {
    /// Loads the shard with this number from its stores.
    fn load(&mut self, alloc: Global, issuer: &Issuer, number: u8)
        requires number { number < issuer.now.shards }
        requires waiting { IsWaiting self.old }
        ensures { (store : S) → self.old.store ≡ Some store
            → HasTried issuer.now number self.old.old_store store self.new }
    {
        let store = self.store.take().unwrap();
        let loaded = Shard::load(alloc, &mut self.old_store, store, number, issuer);
        let empty = self.loaded.replace(loaded);
        let None = empty else { unreachable!() };
    }

    /// Why the shard wasn't loaded.
    fn fault(&self) -> Option<LoadFault>
        ensures { result ≡ fault_in self.now }
    {
        match &self.loaded {
            Some(Err(back)) => Some(back.fault),
            Some(Ok(_)) | None => None,
        }
    }

    /// The old store, and the shard that was loaded or the store that came back.
    fn into_parts(self) -> (S, Result<Shard<S>, LoadBack<S>>)
        requires { HasEnded self }
        ensures old_store { result.0 ≡ self.old_store }
        ensures loaded { self.loaded ≡ Some result.1 }
    {
        let Slot {
            old_store,
            store,
            loaded,
        } = self;
        let None = store else { unreachable!() };
        (old_store, loaded.unwrap())
    }
}

/// Loads the shards as [`load_all`](crate::load_all) does. If there are several callers, it loads them at once, in a
/// thread for each shard: the shards that still load share the processors. The first shard in order that can't be
/// loaded is named, and the stores are returned in order. Those after it may have been loaded meanwhile. If memory for
/// the work itself runs out, the stores are returned as they were, and the error names shard 0.
pub fn load_together<S: Store + Send, R: Threads + Sync>(
    rt: &R,
    alloc: Global,
    issuer: &Issuer,
    olds: &mut Vec<S>,
    stores: Vec<S>,
    lists: Lists<S>,
    callers: u8,
) -> Result<Lists<S>, HostBack<S>>
    requires count { AreStoresOf issuer.now olds.old.items stores.items }
    requires lists { (lists.shards.items ≡ []) × (length stores.items ≤ vec_capacity lists.shards)
        × (lists.back.items ≡ []) × (length stores.items ≤ vec_capacity lists.back) }
    requires callers { 0 < callers }
    ensures loaded { IfOk result (λ loaded.
        AreLoaded issuer.now olds.old.items olds.new.items stores.items loaded.shards.items) }
    ensures olds { AreOnlyRead S.size S.bytes S.disk S.room olds.old.items olds.new.items }
    ensures room { IfErr result (λ back. StoresWork S.size S.room olds.old.items stores.items back.fault) }
    ensures back { IfOk result
        (λ loaded. (loaded.back.items ≡ []) × (vec_capacity loaded.back ≡ vec_capacity lists.back)) }
    ensures stopped { IfErr result (λ back. ComeBackTogether S.size S.bytes S.disk S.faults issuer.now
        olds.old.items olds.new.items stores.items back.shard back.fault back.stores.items) }
{
    let Lists { shards, back } = lists;
    let Ok(slots) = Vec::with_capacity(alloc, usize::from(issuer.shards())) else {
        shards.destroy_empty();
        back.destroy_empty();
        return Err(HostBack {
            fault: LoadFault::NoMemory,
            shard: 0,
            stores,
        });
    };
    let mut slots = fill(slots, olds, stores);
    load_slots(rt, alloc, issuer, slots.as_mut_slice(), callers);
    match first_failed(slots.as_slice()) {
        None => Ok(Lists {
            shards: take_shards(slots, olds, shards),
            back,
        }),
        Some((shard, fault)) => {
            shards.destroy_empty();
            Err(HostBack {
                fault,
                shard,
                stores: take_left(slots, olds, back),
            })
        }
    }
}

/// Moves the stores of each shard into a slot, in the order of the shards.
fn fill<S: Store>(mut slots: Vec<Slot<S>>, olds: &mut Vec<S>, mut stores: Vec<S>) -> Vec<Slot<S>>
    requires room { (slots.items ≡ []) × (vec_len stores ≤ vec_capacity slots) }
    requires count { vec_len olds.old ≡ vec_len stores }
    ensures olds { map (λ slot. slot.old_store) result.items ≡ olds.old.items }
    ensures stores { map (λ slot. slot.store) result.items ≡ map (λ store. Some store) stores.items }
    ensures waiting { All (λ slot. IsWaiting slot) result.items }
    ensures emptied { (olds.new.items ≡ []) × (vec_len result ≤ vec_capacity olds.new) }
    ensures count { vec_len result ≡ vec_len stores }
{
    while let Some(store) = stores.pop() {
        slots.push_reserved(Slot {
            old_store: olds.pop().unwrap(),
            store: Some(store),
            loaded: None,
        });
    }
    stores.destroy_empty();
    slots.reverse();
    slots
}

/// Loads the shard of each slot: if there are several callers, in a thread for each.
fn load_slots<S: Store + Send, R: Threads + Sync>(
    rt: &R,
    alloc: Global,
    issuer: &Issuer,
    slots: &mut [Slot<S>],
    callers: u8,
)
    requires count { (length slots.old ≡ issuer.now.shards) × (issuer.now.shards ≤ MAX_SHARDS) }
    requires waiting { All (λ slot. IsWaiting slot) slots.old }
    ensures { HaveTried issuer.now slots.old slots.new }
{
    let threads = if callers > 1 { MAX_SHARDS } else { 1 };
    thread::for_each_mut(
        rt,
        slots,
        usize::from(threads),
        &|number: usize, slot: &mut Slot<S>|
            requires { (number < issuer.now.shards) × (issuer.now.shards ≤ MAX_SHARDS) × IsWaiting slot.now }
            ensures { (store : S) → slot.entry.now.store ≡ Some store
                → HasTried issuer.entry.now number slot.entry.now.old_store store slot.exit.now }
        { slot.load(alloc, issuer, number as u8) },
    );
}

/// The first shard that wasn't loaded, and why.
fn first_failed<S: Store>(slots: &[Slot<S>]) -> Option<(u8, LoadFault)>
    requires { length slots.now ≤ MAX_SHARDS }
    ensures { MatchOption result (All (λ slot. fault_in slot ≡ None) slots.now)
        (λ first. IsFirstFailed slots.now first.0 first.1) }
{
    for (number, slot) in slots.iter().enumerate() {
        if let Some(fault) = slot.fault() {
            return Some((number as u8, fault));
        }
    }
    None
}

/// The shards of slots in which all were loaded, in their order. The old stores are returned.
fn take_shards<S: Store>(
    mut slots: Vec<Slot<S>>,
    olds: &mut Vec<S>,
    mut shards: Vec<Shard<S>>,
) -> Vec<Shard<S>>
    requires ended { All (λ slot. HasEnded slot × (fault_in slot ≡ None)) slots.items }
    requires olds { (olds.old.items ≡ []) × (vec_len slots ≤ vec_capacity olds.old) }
    requires shards { (shards.items ≡ []) × (vec_len slots ≤ vec_capacity shards) }
    ensures shards { map (λ slot. slot.loaded) slots.items ≡ map (λ shard. loaded_as shard) result.items }
    ensures olds { olds.new.items ≡ map (λ slot. slot.old_store) slots.items }
{
    while let Some(slot) = slots.pop() {
        let (old_store, loaded) = slot.into_parts();
        olds.push_reserved(old_store);
        let Ok(shard) = loaded else { unreachable!() };
        shards.push_reserved(shard);
    }
    slots.destroy_empty();
    olds.reverse();
    shards.reverse();
    shards
}

/// The stores that loads left in slots, in their order. The old stores are returned.
fn take_left<S: Store>(mut slots: Vec<Slot<S>>, olds: &mut Vec<S>, mut back: Vec<S>) -> Vec<S>
    requires ended { All (λ slot. HasEnded slot) slots.items }
    requires olds { (olds.old.items ≡ []) × (vec_len slots ≤ vec_capacity olds.old) }
    requires back { (back.items ≡ []) × (vec_len slots ≤ vec_capacity back) }
    ensures left { map (λ slot. left_in slot) slots.items ≡ map (λ store. Some store) result.items }
    ensures olds { olds.new.items ≡ map (λ slot. slot.old_store) slots.items }
{
    while let Some(slot) = slots.pop() {
        let (old_store, loaded) = slot.into_parts();
        olds.push_reserved(old_store);
        back.push_reserved(store_of(loaded));
    }
    slots.destroy_empty();
    olds.reverse();
    back.reverse();
    back
}

/// The store of a shard that was loaded, or the one that came back.
fn store_of<S: Store>(loaded: Result<Shard<S>, LoadBack<S>>) -> S
    ensures { result ≡ store_of loaded }
{
    match loaded {
        Ok(shard) => shard.into_store(),
        Err(LoadBack { fault: _, store }) => store,
    }
}
