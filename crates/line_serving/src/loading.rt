//! The host that lines are served with, loaded from the journals at a desk.
ghost use Rattle.std.specs.Prelude.{◌≡◌, ◌<◌, ◌≤◌, [], true, is_ok, IfOk, IfErr};
ghost use Rattle.issuer_base.specs.declared.limits.TheConstants.{MAX_CALLERS};
ghost use Rattle.desk_host.specs.Loading.{ComesToNoHost};
ghost use Rattle.shard_book.specs.declared.replay.LoadFault.TheVariants.{NoMemory as NoRoom};
ghost use Rattle.line_serving.specs.Hosts.{IsReadyTogether, IsFreshTogether, IsReady, IsFresh};

use crate::alone::AloneHost;
use crate::hosts::LineHost;
use desk_host::{Journals, Loaded, NoHost, load_alone, no_host, open_journals};
use issuer_base::Desk;
use issuer_setup::Issuer;
use line_checks::LinesAhead;
use shared_callers::{Lanes, LoadFault};
use std::alloc::Global;
use std::thread::Threads;

/// The host of an issuer with so many callers, 1 to 16, over the journals under these names: they are opened at the
/// desk, and loaded.
///
/// The first journal that can't be opened or loaded stops it: its fault comes back with the journals that were opened.
/// Those behind it may have been loaded meanwhile if there is more than one caller.
pub fn load_host<R: Threads + Sync, D: Desk>(
    rt: &R,
    alloc: Global,
    desk: &mut D,
    prefix: &str,
    issuer: Issuer,
    callers: u8,
) -> Result<Loaded<LineHost<D::Journal>, D::Journal>, NoHost<D::Journal>>
where
    D::Journal: Send,
    requires { (1 ≤ callers) × (callers ≤ MAX_CALLERS) }
    ensures ready { IfOk result (λ loaded. IsReady issuer prefix.now (D.logs desk.old) loaded.olds.items loaded.host) }
    ensures fresh { IfOk result (λ loaded. IsFresh callers loaded.host) }
    ensures stood { is_ok result ≡ true → D.faults desk.new ≡ D.faults desk.old }
    ensures none { IfErr result (ComesToNoHost D.Desk D.Journal.Store issuer prefix.now desk.old desk.new) }
    ensures kept { D.holds desk.new ≡ D.holds desk.old }
{
    if callers == 1 {
        let Ok(ahead) = LinesAhead::new(alloc) else {
            return Err(no_memory(alloc));
        };
        let Loaded { host, olds } = load_alone(alloc, desk, prefix, issuer)?;
        let host = LineHost::Alone(AloneHost::new(host, ahead));
        Ok(Loaded { host, olds })
    } else {
        let Loaded { host, olds } = load_together(rt, alloc, desk, prefix, issuer, callers)?;
        let host = LineHost::Together(host);
        Ok(Loaded { host, olds })
    }
}

/// The host of more than one caller, likewise. Its shards are loaded at once, in a thread for each.
fn load_together<R: Threads + Sync, D: Desk>(
    rt: &R,
    alloc: Global,
    desk: &mut D,
    prefix: &str,
    issuer: Issuer,
    callers: u8,
) -> Result<Loaded<Lanes<D::Journal>, D::Journal>, NoHost<D::Journal>>
where
    D::Journal: Send,
    requires { (1 < callers) × (callers ≤ MAX_CALLERS) }
    ensures ready { IfOk result (λ loaded.
        IsReadyTogether issuer prefix.now (D.logs desk.old) loaded.olds.items loaded.host) }
    ensures fresh { IfOk result (λ loaded. IsFreshTogether callers loaded.host) }
    ensures stood { is_ok result ≡ true → D.faults desk.new ≡ D.faults desk.old }
    ensures none { IfErr result (ComesToNoHost D.Desk D.Journal.Store issuer prefix.now desk.old desk.new) }
    ensures kept { D.holds desk.new ≡ D.holds desk.old }
{
    let Journals { mut olds, stores } = open_journals(alloc, desk, prefix, &issuer)?;
    match Lanes::load(rt, alloc, &mut olds, stores, issuer, callers) {
        Ok(host) => Ok(Loaded { host, olds }),
        Err(back) => Err(no_host(back, olds)),
    }
}

/// No host, since memory ran out before a journal was opened.
fn no_memory<S>(alloc: Global) -> NoHost<S>
    ensures fault { (result.fault ≡ NoRoom) × (result.shard ≡ 0) }
    ensures none { (result.journals.olds.items ≡ []) × (result.journals.stores.items ≡ []) }
{
    NoHost {
        fault: LoadFault::NoMemory,
        shard: 0,
        journals: Journals::none(alloc),
    }
}
