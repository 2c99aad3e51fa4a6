//! The journals of an issuer's shards, opened at a desk and loaded.
ghost use Rattle.std.specs.Prelude.{◌≡◌, ◌<◌, ◌≤◌, ℕ, List, [], length, true, is_ok, string_bytes, IfOk, IfErr};
ghost use Rattle.issuer_base.specs.Desk.{last_after};
ghost use Rattle.issuer_base.specs.OutsideFaults.{CountsFaults};
ghost use Rattle.issuer_base.specs.declared.outside.DeskCall.TheVariants.{Log};
ghost use Rattle.desk_host.specs.Journals.{file_name, AreOpened, HasAllOpened, IsOpened, IsSameElsewhere, IsReadySolo};
ghost use Rattle.desk_host.specs.Loading.{CannotOpen, ComesToNoHost, IsUnopened, is_log_fault, stop_of_load};

use answer_text::Stop;
use host_loading::{HostBack, LoadFault};
use issuer_base::{Desk, DeskFault};
use issuer_setup::Issuer;
use one_caller::Solo;
use std::alloc::{AllocError, Global};

/// What the name of an old journal ends with, after the shard's number.
const OLD_ENDING: &str = "";

/// What the name of a journal ends with.
const ENDING: &str = ".v2";

/// The journals of an issuer's shards, as far as they were opened: each list in the order of the shards' numbers.
pub struct Journals<S> {
    /// The old journals, of version 1. They are read, and never changed.
    pub olds: Vec<S>,

    /// The journals, to which records are appended.
    pub stores: Vec<S>,
}

/// The journals that gave no host, and why.
pub struct NoHost<S> {
    /// Why the shard's journal wasn't opened, or the shard wasn't loaded.
    pub fault: LoadFault,

    /// The shard's number, from 0.
    pub shard: u8,

    /// The journals that were opened.
    pub journals: Journals<S>,
}

/// A host that was loaded, and the old journals from which it was.
pub struct Loaded<H, S> {
    /// The host, which has the journals.
    pub host: H,

    /// The old journals, in the order of the shards' numbers.
    pub olds: Vec<S>,
}

impl<S> Journals<S> {
    /// No journal.
    pub fn none(alloc: Global) -> Self
        ensures olds { result.olds.items ≡ [] }
        ensures stores { result.stores.items ≡ [] }
    {
        Journals {
            olds: Vec::new(alloc),
            stores: Vec::new(alloc),
        }
    }
}

/// The host of one caller of an issuer, over the journals under these names: they are opened at the desk, and loaded.
///
/// The first journal that can't be opened or loaded stops it: its fault comes back with the journals that were opened.
pub fn load_alone<D: Desk>(
    alloc: Global,
    desk: &mut D,
    prefix: &str,
    issuer: Issuer,
) -> Result<Loaded<Solo<D::Journal>, D::Journal>, NoHost<D::Journal>>
    ensures ready { IfOk result (λ loaded.
        IsReadySolo issuer prefix.now (D.logs desk.old) loaded.olds.items loaded.host) }
    ensures some { IfOk result (λ loaded. 0 < loaded.host.issuer.shards) }
    ensures stood { is_ok result ≡ true → D.faults desk.new ≡ D.faults desk.old }
    ensures none { IfErr result (ComesToNoHost D.Desk D.Journal.Store issuer prefix.now desk.old desk.new) }
    ensures kept { D.holds desk.new ≡ D.holds desk.old }
{
    let Journals { mut olds, stores } = open_journals(alloc, desk, prefix, &issuer)?;
    match Solo::load(alloc, &mut olds, stores, issuer) {
        Ok(host) => Ok(Loaded { host, olds }),
        Err(back) => Err(no_host(back, olds)),
    }
}

/// The journals that gave no host: those that come back, and the old ones.
pub fn no_host<S>(back: HostBack<S>, olds: Vec<S>) -> NoHost<S>
    ensures { result ≡ record {
      fault = back.fault;
      shard = back.shard;
      journals = record { olds = olds; stores = back.stores };
    } }
{
    let HostBack {
        fault,
        shard,
        stores,
    } = back;
    NoHost {
        fault,
        shard,
        journals: Journals { olds, stores },
    }
}

/// How a run stops where this shard can't be opened or loaded.
pub fn stop_of_load(fault: LoadFault, shard: u8) -> Stop
    ensures { result ≡ stop_of_load fault shard }
{
    match fault {
        LoadFault::StoreFault => Stop::StoreFault { shard },
        LoadFault::OldLine(line) | LoadFault::OldRecord(line) => Stop::BadOldJournal {
            shard,
            line,
        },
        LoadFault::BadLine(line) | LoadFault::BadRecord(line) => Stop::BadJournal { shard, line },
        LoadFault::NoMemory => Stop::NoMemory,
    }
}

/// The journals of all shards of an issuer, each new: the old ones are opened first. The first journal that can't be
/// opened stops it: its fault comes back with the journals that were opened.
pub fn open_journals<D: Desk>(
    alloc: Global,
    desk: &mut D,
    prefix: &str,
    issuer: &Issuer,
) -> Result<Journals<D::Journal>, NoHost<D::Journal>>
    ensures some { 0 < issuer.now.shards }
    ensures opened { IfOk result (λ journals. HasAllOpened D.Journal.Store issuer.now prefix.now (D.logs desk.old)
        journals.olds.items journals.stores.items) }
    ensures stood { is_ok result ≡ true → D.faults desk.new ≡ D.faults desk.old }
    ensures none { IfErr result (ComesToNoHost D.Desk D.Journal.Store issuer.now prefix.now desk.old desk.new) }
    ensures kept { D.holds desk.new ≡ D.holds desk.old }
{
    let shards = issuer.shards();
    let olds = match open_all(alloc, desk, prefix, OLD_ENDING, shards) {
        Ok(olds) => olds,
        Err(
            HostBack {
                fault,
                shard,
                stores,
            },
        ) => {
            return Err(NoHost {
                fault,
                shard,
                journals: Journals {
                    olds: stores,
                    stores: Vec::new(alloc),
                },
            });
        }
    };
    match open_all(alloc, desk, prefix, ENDING, shards) {
        Ok(stores) => Ok(Journals { olds, stores }),
        Err(back) => Err(no_host(back, olds)),
    }
}

/// The stores of the journals of so many shards whose names end so, in the order of the shards, each new. The first one
/// that can't be opened stops it: its fault comes back with the stores that were opened.
fn open_all<D: Desk>(
    alloc: Global,
    desk: &mut D,
    prefix: &str,
    ending: &str,
    shards: u8,
) -> Result<Vec<D::Journal>, HostBack<D::Journal>>
    requires { (0 < shards) × (shards ≤ 100) }
    ensures count { IfOk result (λ stores. length stores.items ≡ shards) }
    ensures opened { IfOk result (λ stores.
        AreOpened D.Journal.Store (file_name ending.now prefix.now) (D.logs desk.old) stores.items) }
    ensures stood { is_ok result ≡ true → D.faults desk.new ≡ D.faults desk.old }
    ensures none { IfErr result (CannotOpen D.Desk D.Journal.Store (file_name ending.now prefix.now) shards
        desk.old desk.new) }
    ensures elsewhere { (name : List ℕ) → ((shard : ℕ) → name ≡ file_name ending.now prefix.now shard → ⊥)
        → D.logs desk.new name ≡ D.logs desk.old name }
    ensures kept { D.holds desk.new ≡ D.holds desk.old }
{
    let Ok(mut stores) = Vec::with_capacity(alloc, usize::from(shards)) else {
        return Err(HostBack {
            fault: LoadFault::NoMemory,
            shard: 0,
            stores: Vec::new(alloc),
        });
    };
    for shard in 0..shards {
        match open_journal(alloc, desk, prefix, ending, shard) {
            Ok(store) => stores.push_reserved(store),
            Err(fault) => {
                return Err(HostBack {
                    fault,
                    shard,
                    stores,
                });
            }
        }
    }
    Ok(stores)
}

/// The journal of a shard whose name ends so.
fn open_journal<D: Desk>(
    alloc: Global,
    desk: &mut D,
    prefix: &str,
    ending: &str,
    shard: u8,
) -> Result<D::Journal, LoadFault>
    requires { shard < 100 }
    ensures opened { IfOk result (IsOpened D.Journal.Store (D.logs desk.old (file_name ending.now prefix.now shard))) }
    ensures fault { IfErr result IsUnopened }
    ensures count { CountsFaults (D.faults desk.old) (D.faults desk.new) (is_log_fault result) }
    ensures last { D.last_fault desk.new ≡ last_after Log (file_name ending.now prefix.now shard) (is_log_fault result)
        (D.last_fault desk.old) }
    ensures elsewhere { IsSameElsewhere D.Desk (file_name ending.now prefix.now shard) desk.old desk.new }
{
    let Ok(name) = file_name(alloc, prefix, ending, shard) else {
        return Err(LoadFault::NoMemory);
    };
    match desk.log(name.as_str()) {
        Ok(store) => Ok(store),
        Err(DeskFault::Fault) => Err(LoadFault::StoreFault),
        Err(DeskFault::NoMemory) => Err(LoadFault::NoMemory),
    }
}

/// The name of a shard's file that ends so.
fn file_name(alloc: Global, prefix: &str, ending: &str, shard: u8) -> Result<String, AllocError>
    requires { shard < 100 }
    ensures { IfOk result (λ name. string_bytes name ≡ file_name ending.now prefix.now shard) }
{
    let mut name = String::from_str(alloc, prefix)?;
    name.push('.')?;
    name.push(char::from(b'0' + shard / 10))?;
    name.push(char::from(b'0' + shard % 10))?;
    name.push_str(ending)?;
    Ok(name)
}
