//! Loads the shards of a host from their stores, and returns the stores.
ghost use Rattle.std.specs.Prelude.{◌≡◌, ◌+◌, ◌≤◌, [], ◌∷◌, ◌++◌, length, map, reverse, vec_capacity, IfOk, IfErr};
ghost use Rattle.shard_book.specs.Shards.{store_in};
ghost use Rattle.host_loading.specs.Loading.{AreLoaded, AreOnlyRead, AreStoresOf, ComeBack};
ghost use Rattle.host_loading.specs.StoreRoom.{StoresWork};

use issuer_base::{NoMemory, Store};
use issuer_setup::Issuer;
use shard_book::{LoadBack, LoadFault, Shard};
use std::alloc::Global;

/// The stores of a host that wasn't loaded, in order, and why: the fault of the first shard that wasn't loaded.
pub struct HostBack<S> {
    /// Why the shard wasn't loaded.
    pub fault: LoadFault,

    /// The shard's number, from 0.
    pub shard: u8,

    /// The stores of all shards, in the order of their numbers.
    pub stores: Vec<S>,
}

/// The lists of a host, of one caller or several: its shards, and room for their stores.
pub struct Lists<S: Store> {
    /// The shards, in the order of their numbers.
    pub shards: Vec<Shard<S>>,

    /// An empty list, with room for the shards' stores.
    pub back: Vec<S>,
}

/// Allocates a host's lists for so many shards. Both lists are empty. If memory runs out, nothing stays allocated.
pub fn take_lists<S: Store>(alloc: Global, count: usize) -> Result<Lists<S>, NoMemory>
    ensures shards { IfOk result (λ lists. (lists.shards.items ≡ []) × (count ≤ vec_capacity lists.shards)) }
    ensures back { IfOk result (λ lists. (lists.back.items ≡ []) × (count ≤ vec_capacity lists.back)) }
{
    let back = Vec::with_capacity(alloc, count)?;
    let Ok(shards) = Vec::with_capacity(alloc, count) else {
        back.destroy_empty();
        return Err(NoMemory);
    };
    Ok(Lists { shards, back })
}

/// Loads a shard from each old store and the store at its index, in order, into empty lists with room for all:
/// continues the migration of the old store's records, replays the records of the store's whole lines, truncates a torn
/// last line, and syncs the store. The old stores are only read. The first shard that can't be loaded stops it, and the
/// stores are returned in order. The lists allocate nothing more; the shards do.
pub fn load_all<S: Store>(
    alloc: Global,
    issuer: &Issuer,
    olds: &mut Vec<S>,
    stores: Vec<S>,
    lists: Lists<S>,
) -> Result<Lists<S>, HostBack<S>>
    requires count { AreStoresOf issuer.now olds.old.items stores.items }
    requires lists { (lists.shards.items ≡ []) × (length stores.items ≤ vec_capacity lists.shards)
        × (lists.back.items ≡ []) × (length stores.items ≤ vec_capacity lists.back) }
    ensures loaded { IfOk result (λ loaded.
        AreLoaded issuer.now olds.old.items olds.new.items stores.items loaded.shards.items) }
    ensures olds { AreOnlyRead S.size S.bytes S.disk S.room olds.old.items olds.new.items }
    ensures room { IfErr result (λ back. StoresWork S.size S.room olds.old.items stores.items back.fault) }
    ensures back { IfOk result
        (λ loaded. (loaded.back.items ≡ []) × (vec_capacity loaded.back ≡ vec_capacity lists.back)) }
    ensures stopped { IfErr result (λ back. ComeBack S.size S.bytes S.disk S.faults issuer.now
        olds.old.items olds.new.items stores.items back.shard back.fault back.stores.items) }
{
    let Lists { mut shards, back } = lists;
    let mut ahead = stores;
    ahead.reverse();
    for number in 0..issuer.shards() {
        let store = ahead.pop().unwrap();
        let old = &mut olds[usize::from(number)];
        match Shard::load(alloc, old, store, number, issuer) {
            Ok(shard) => shards.push_reserved(shard),
            Err(LoadBack { fault, store }) => {
                return Err(HostBack {
                    fault,
                    shard: number,
                    stores: all_stores(take_stores(shards, back), store, ahead),
                });
            }
        }
    }
    ahead.destroy_empty();
    Ok(Lists { shards, back })
}

/// The stores of these shards, in their order, in the list that was allocated for them. It allocates nothing.
pub fn take_stores<S: Store>(mut shards: Vec<Shard<S>>, mut back: Vec<S>) -> Vec<S>
    requires empty { back.items ≡ [] }
    requires room { length shards.items ≤ vec_capacity back }
    ensures stores { result.items ≡ map store_in shards.items }
    ensures room { vec_capacity result ≡ vec_capacity back }
{
    while let Some(shard) = shards.pop() {
        back.push_reserved(shard.into_store());
    }
    shards.destroy_empty();
    back.reverse();
    back
}

/// Appends to these stores a store, and then those that are left, in reverse order.
fn all_stores<S>(mut stores: Vec<S>, store: S, mut ahead: Vec<S>) -> Vec<S>
    requires { length stores.items + 1 + length ahead.items ≤ vec_capacity stores }
    ensures { result.items ≡ stores.items ++ store ∷ reverse ahead.items }
{
    stores.push_reserved(store);
    while let Some(next) = ahead.pop() {
        stores.push_reserved(next);
    }
    ahead.destroy_empty();
    stores
}
