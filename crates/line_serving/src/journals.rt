//! Journals that are loaded, with the shards' rows or without them.
ghost use Rattle.std.specs.Prelude.{◌≡◌, ◌≤◌, [], length, true, is_ok, vec_capacity, IfOk, IfErr};
ghost use Rattle.desk_host.specs.Configuration.{HasSoundParts};
ghost use Rattle.desk_host.specs.Journals.{IsReady};
ghost use Rattle.desk_host.specs.Loading.{ComesToNoHost};
ghost use Rattle.desk_host.specs.SeenStores.{journals_seen};
ghost use Rattle.line_serving.specs.Loaded.{AreLoadedFrom};

use desk_host::{Journals, NoHost, no_host, open_journals};
use host_loading::{HostBack, Lists, LoadFault, load_all, take_lists, take_stores};
use issuer_base::{Desk, Store};
use issuer_setup::Issuer;
use std::alloc::Global;

/// An issuer's shards that were loaded, and the old journals from which they were.
pub struct LoadedShards<S: Store> {
    /// The old journals, in the order of the shards' numbers.
    pub olds: Vec<S>,

    /// The shards, in the order of their numbers, and an empty list with room for their stores.
    pub lists: Lists<S>,
}

/// The journals of an issuer under these names, opened at the desk and loaded, once their rows aren't needed any more:
/// those of [`load_shards`].
pub fn load_journals<D: Desk>(
    alloc: Global,
    desk: &mut D,
    prefix: &str,
    issuer: &Issuer,
) -> Result<Journals<D::Journal>, NoHost<D::Journal>>
    ensures loaded { HasSoundParts issuer.now → IfOk result (λ journals. AreLoadedFrom issuer.now prefix.now
        (D.logs desk.old) (journals_seen D.Journal.Store journals.olds.items journals.stores.items)) }
    ensures none { IfErr result (ComesToNoHost D.Desk D.Journal.Store issuer.now prefix.now desk.old desk.new) }
    ensures stood { is_ok result ≡ true → D.faults desk.new ≡ D.faults desk.old }
    ensures kept { D.holds desk.new ≡ D.holds desk.old }
{
    let LoadedShards {
        olds,
        lists: Lists { shards, back },
    } = load_shards(alloc, desk, prefix, issuer)?;
    Ok(Journals {
        olds,
        stores: take_stores(shards, back),
    })
}

/// The shards of an issuer over the journals under these names, which are opened at the desk and loaded: each old
/// journal is migrated, a torn last line is truncated, and each record is checked. No host takes the issuer. It is
/// faster where the issuer's keys are cached ([`Issuer::keep_all`]).
///
/// The first journal that can't be opened or loaded stops it: its fault comes back with the journals that were opened.
pub fn load_shards<D: Desk>(
    alloc: Global,
    desk: &mut D,
    prefix: &str,
    issuer: &Issuer,
) -> Result<LoadedShards<D::Journal>, NoHost<D::Journal>>
    ensures ready { IfOk result (λ loaded. IsReady issuer.now prefix.now (D.logs desk.old) loaded.olds.items
        loaded.lists.shards.items) }
    ensures back { IfOk result (λ loaded. (loaded.lists.back.items ≡ [])
        × (length loaded.lists.shards.items ≤ vec_capacity loaded.lists.back)) }
    ensures none { IfErr result (ComesToNoHost D.Desk D.Journal.Store issuer.now prefix.now desk.old desk.new) }
    ensures stood { is_ok result ≡ true → D.faults desk.new ≡ D.faults desk.old }
    ensures kept { D.holds desk.new ≡ D.holds desk.old }
{
    let Journals { mut olds, stores } = open_journals(alloc, desk, prefix, issuer)?;
    let Ok(lists) = take_lists(alloc, stores.len()) else {
        let back = HostBack {
            fault: LoadFault::NoMemory,
            shard: 0,
            stores,
        };
        return Err(no_host(back, olds));
    };
    match load_all(alloc, issuer, &mut olds, stores, lists) {
        Ok(lists) => Ok(LoadedShards { olds, lists }),
        Err(back) => Err(no_host(back, olds)),
    }
}
