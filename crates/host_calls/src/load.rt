//! The loading of a host of several callers.
ghost use Rattle.std.specs.Prelude.{◌≡◌, ◌<◌, ◌≤◌, [], length, vec_capacity, IfOk, IfErr};
ghost use Rattle.issuer_base.specs.declared.limits.TheConstants.{MAX_SHARDS};
ghost use Rattle.shared_shards.specs.ShardSeats.{opening_in};
ghost use Rattle.host_loading.specs.Loading.{AreLoaded, AreOnlyRead};
ghost use Rattle.host_calls.specs.Loading.{IsFirstPass, IsShared};
ghost use Rattle.shared_laws.specs.OpeningLogs.{AllComeBack, AreOpenedFrom, HostComesBack, HostComesBackTogether};

use crate::host::{Host, StoreRoom};
use crate::pass::Pass;
use crate::recorded::list_recorded;
use claim_words::ClaimWords;
use host_loading::{HostBack, Lists, load_all, load_together, take_lists, take_stores};
use issuer_base::{MAX_SHARDS, Store};
use issuer_setup::Issuer;
use shard_book::{LoadFault, Shard};
use shared_shards::ShardTurns;
use std::alloc::Global;
use std::snapshot::Snapshot;
use std::sync::Mutex;
use std::thread::Threads;

/// What the callers of a host share, and the first pass.
pub(crate) struct Shared<S: Store> {
    claims: ClaimWords,
    turns: ShardTurns<S>,
    pass: Pass,
}

impl<S: Store> Host<S> {
    /// Loads the shards of an issuer from their old stores and their stores, in order, as `Solo::load` does. Callers
    /// share the host, each with a pass that is split off the first one. Callers only read the issuer, so the
    /// application-cryptogram keys of all cards are derived here, and cached with their key schedules.
    ///
    /// The first shard that can't be loaded stops it. If the host's own allocation fails, the error names shard 0. Then
    /// the stores come back in order. No other call allocates.
    pub fn load(
        alloc: Global,
        olds: &mut Vec<S>,
        stores: Vec<S>,
        mut issuer: Issuer,
    ) -> Result<(Host<S>, Pass), HostBack<S>>
        requires { (length olds.old.items ≡ issuer.shards) × (length stores.items ≡ issuer.shards) }
        ensures issuer { IfOk result (λ made. made.0.issuer ≡ issuer) }
        ensures opening { IfOk result (λ made. AreOpenedFrom S.bytes S.disk S.faults issuer
            olds.old.items olds.new.items stores.items (opening_in made.0.turns)) }
        ensures olds { AreOnlyRead S.size S.bytes S.disk S.room olds.old.items olds.new.items }
        ensures pass { IfOk result (λ made. IsFirstPass made.0 made.1) }
        ensures stopped { IfErr result (λ back. HostComesBack S.size S.bytes S.disk S.faults issuer
            olds.old.items olds.new.items stores.items back.shard back.fault back.stores.items) }
    {
        let Ok(lists) = take_lists(alloc, usize::from(MAX_SHARDS)) else {
            return Err(HostBack {
                fault: LoadFault::NoMemory,
                shard: 0,
                stores,
            });
        };
        issuer.keep_all();
        let old = Snapshot::of(&*olds);
        let before = Snapshot::of(&stores);
        let lists = load_all(alloc, &issuer, olds, stores, lists)?;
        open(alloc, issuer, &old, olds, &before, lists)
    }

    /// Loads a host as [`load`](Host::load) does. If there are several callers, it loads the shards at once, in a thread
    /// for each. The first shard in order that can't be loaded is named. The stores after it may have been loaded
    /// meanwhile.
    pub fn load_together<R: Threads + Sync>(
        rt: &R,
        alloc: Global,
        olds: &mut Vec<S>,
        stores: Vec<S>,
        mut issuer: Issuer,
        callers: u8,
    ) -> Result<(Host<S>, Pass), HostBack<S>>
    where
        S: Send,
        requires count { (length olds.old.items ≡ issuer.shards) × (length stores.items ≡ issuer.shards) }
        requires callers { 0 < callers }
        ensures issuer { IfOk result (λ made. made.0.issuer ≡ issuer) }
        ensures opening { IfOk result (λ made. AreOpenedFrom S.bytes S.disk S.faults issuer
            olds.old.items olds.new.items stores.items (opening_in made.0.turns)) }
        ensures olds { AreOnlyRead S.size S.bytes S.disk S.room olds.old.items olds.new.items }
        ensures pass { IfOk result (λ made. IsFirstPass made.0 made.1) }
        ensures stopped { IfErr result (λ back. HostComesBackTogether S.size S.bytes S.disk S.faults issuer
            olds.old.items olds.new.items stores.items back.shard back.fault back.stores.items) }
    {
        let Ok(lists) = take_lists(alloc, usize::from(MAX_SHARDS)) else {
            return Err(HostBack {
                fault: LoadFault::NoMemory,
                shard: 0,
                stores,
            });
        };
        issuer.keep_all();
        let old = Snapshot::of(&*olds);
        let before = Snapshot::of(&stores);
        let lists = load_together(rt, alloc, &issuer, olds, stores, lists, callers)?;
        open(alloc, issuer, &old, olds, &before, lists)
    }
}

/// Opens a host of shards that were loaded from these old stores, as they are now in `read`, and these stores. Only if
/// an allocation fails, the stores come back in order.
fn open<S: Store>(
    alloc: Global,
    issuer: Issuer,
    olds: &Snapshot<Vec<S>>,
    read: &Vec<S>,
    stores: &Snapshot<Vec<S>>,
    lists: Lists<S>,
) -> Result<(Host<S>, Pass), HostBack<S>>
    requires count { (length stores.now.value.items ≡ issuer.shards) × (0 < issuer.shards) }
    requires loaded { AreLoaded issuer
        olds.now.value.items read.now.items stores.now.value.items lists.shards.items }
    requires back { (lists.back.items ≡ []) × (MAX_SHARDS ≤ vec_capacity lists.back) }
    ensures issuer { IfOk result (λ made. made.0.issuer ≡ issuer) }
    ensures opening { IfOk result (λ made. AreOpenedFrom S.bytes S.disk S.faults issuer
        olds.now.value.items read.now.items stores.now.value.items (opening_in made.0.turns)) }
    ensures pass { IfOk result (λ made. IsFirstPass made.0 made.1) }
    ensures stopped { IfErr result (λ back. AllComeBack S.bytes S.disk S.faults issuer
        olds.now.value.items read.now.items stores.now.value.items back.shard back.fault back.stores.items) }
{
    let Lists { shards, back } = lists;
    match share(alloc, &issuer, olds, read, stores, shards) {
        Ok(
            Shared {
                claims,
                turns,
                pass,
            },
        ) => {
            let room = Mutex::new(StoreRoom { list: back });
            let host = Host {
                issuer,
                claims,
                turns,
                room,
            };
            Ok((host, pass))
        }
        Err(shards) => Err(HostBack {
            fault: LoadFault::NoMemory,
            shard: 0,
            stores: take_stores(shards, back),
        }),
    }
}

/// Lets callers share shards that were loaded from these old stores, as they are now in `read`, and these stores. Only
/// if an allocation fails, the shards come back in order.
fn share<S: Store>(
    alloc: Global,
    issuer: &Issuer,
    olds: &Snapshot<Vec<S>>,
    read: &Vec<S>,
    stores: &Snapshot<Vec<S>>,
    shards: Vec<Shard<S>>,
) -> Result<Shared<S>, Vec<Shard<S>>>
    requires count { (length stores.now.value.items ≡ issuer.now.shards) × (0 < issuer.now.shards) }
    requires loaded { AreLoaded issuer.now
        olds.now.value.items read.now.items stores.now.value.items shards.items }
    ensures shared { IfOk result (IsShared issuer.now
        olds.now.value.items read.now.items stores.now.value.items) }
    ensures refused { IfErr result (λ back. back.items ≡ shards.items) }
{
    let _ = read;
    let Ok(recorded) = list_recorded(alloc, shards.as_slice()) else {
        return Err(shards);
    };
    let Ok((claims, claiming)) = ClaimWords::load(alloc, issuer.cards(), recorded.as_slice()) else {
        return Err(shards);
    };
    match ShardTurns::load(alloc, issuer, olds, stores, shards) {
        Ok((turns, turning)) => {
            let pass = Pass {
                claims: claiming,
                turns: turning,
            };
            Ok(Shared {
                claims,
                turns,
                pass,
            })
        }
        Err(shards) => {
            claims.close(claiming);
            Err(shards)
        }
    }
}
