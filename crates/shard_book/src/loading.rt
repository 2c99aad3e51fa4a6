//! Loads the rows of a shard from its old store and its store.
ghost use Rattle.std.specs.Prelude.{◌≡◌, ◌≢◌, ◌<◌, ◌≤◌, [], length, IfOk, IfErr};
ghost use Rattle.issuer_base.specs.declared.limits.TheConstants.{MAX_STORE_BYTES};
ghost use Rattle.journal_rec.specs.declared.limits.TheConstants.{MOST_RECORD_BYTES};
ghost use Rattle.shard_book.specs.Loading.{IsWithin};
ghost use Rattle.shard_book.specs.Loads.{TakesStores};
ghost use Rattle.shard_book.specs.Migrating.{EndsReading, HasReadOld};
ghost use Rattle.shard_book.specs.ShardRows.{AreRowsOf, RowsStandFor};

use crate::ahead::Ahead;
use crate::migrating::{append_steps, check_text, text_bytes};
use crate::reading::take_text;
use crate::replay::{LoadFault, Taken, TakenOver, Version};
use crate::rows::Rows;
use issuer_base::{MAX_STORE_BYTES, MAX_UNSYNCED_BYTES, NoMemory, Store, StoreFail};
use issuer_setup::Issuer;
use journal_rec::{MOST_RECORD_BYTES, VERSION_LINE};
use std::alloc::Global;

/// The largest part of a store that is read at a time, or appended before a sync: more bytes than any record has.
const BUFFER_BYTES: usize = MAX_UNSYNCED_BYTES;

/// Reads both stores, continues the store with what it lacks of the old one's text, and replays the records of its
/// whole lines into the rows of this shard.
///
/// It allocates all memory before it reads the stores. An old store that is longer than any store may be counts as one
/// for which memory doesn't suffice.
pub(crate) fn take_over<S: Store>(
    alloc: Global,
    old: &mut S,
    store: &mut S,
    issuer: &Issuer,
    shard: u8,
) -> Result<TakenOver, LoadFault>
    requires { shard < issuer.now.shards }
    ensures ends { EndsReading issuer.now shard (S.bytes old.old) (S.bytes store.old) (S.bytes store.new)
        (S.disk store.old) (S.disk store.new) result }
    ensures rows { IfOk result (λ over. AreRowsOf issuer.now over.rows × (over.rows.shard ≡ shard)) }
    ensures within { IfOk result (λ over. IsWithin over.taken (S.size store.new)) }
    ensures stores { TakesStores S.size S.bytes S.disk S.room S.faults result old.old old.new store.old store.new }
    ensures untouched { IfErr result
        (λ fault. fault ≡ LoadFault.NoMemory → (old.new ≡ old.old) × (store.new ≡ store.old)) }
{
    if old.len() > MAX_STORE_BYTES {
        return Err(LoadFault::NoMemory);
    }
    let Ok(rows) = Rows::new(alloc, issuer, shard) else {
        return Err(LoadFault::NoMemory);
    };
    let size = old.len().max(store.len());
    let Ok(ours) = buffer(alloc, size) else {
        return Err(LoadFault::NoMemory);
    };
    let Ok(theirs) = buffer(alloc, size) else {
        return Err(LoadFault::NoMemory);
    };
    let Ok(ahead) = Ahead::new(alloc) else {
        return Err(LoadFault::NoMemory);
    };
    let mut ours = ours;
    let mut theirs = theirs;
    let mut ahead = ahead;
    take_both(rows, issuer, old, store, &mut ours, &mut theirs, &mut ahead)
}

/// Reads both stores into rows without records.
fn take_both<S: Store>(
    rows: Rows,
    issuer: &Issuer,
    old: &mut S,
    store: &mut S,
    ours: &mut [u8],
    theirs: &mut [u8],
    ahead: &mut Ahead,
) -> Result<TakenOver, LoadFault>
    requires rows { RowsStandFor issuer.now rows [] }
    requires few { S.size old.old ≤ MAX_STORE_BYTES }
    requires room { (MOST_RECORD_BYTES ≤ length ours.old) × (MOST_RECORD_BYTES ≤ length theirs.old) }
    ensures ends { EndsReading issuer.now rows.shard (S.bytes old.old) (S.bytes store.old) (S.bytes store.new)
        (S.disk store.old) (S.disk store.new) result }
    ensures rows { IfOk result (λ over. AreRowsOf issuer.now over.rows × (over.rows.shard ≡ rows.shard)) }
    ensures within { IfOk result (λ over. IsWithin over.taken (S.size store.new)) }
    ensures stores { TakesStores S.size S.bytes S.disk S.room S.faults result old.old old.new store.old store.new }
    ensures memory { IfErr result (λ fault. fault ≢ LoadFault.NoMemory) }
{
    let from = Taken {
        records: 0,
        bytes: 0,
    };
    let TakenOver { rows, taken } = match take_text(
        Version::One,
        rows,
        from,
        issuer,
        old,
        ours,
        ahead,
    ) {
        Ok(over) => over,
        Err(fault) => return Err(fault),
    };
    match check_text(old, taken.bytes as u64, store, ours, theirs) {
        Ok(()) => continue_journal(rows, taken, issuer, old, store, ours, ahead),
        Err(fault) => Err(fault),
    }
}

/// Continues a store that agrees with the text of the old one: appends what it lacks of this text, or replays the
/// records that it has after it.
fn continue_journal<S: Store>(
    rows: Rows,
    known: Taken,
    issuer: &Issuer,
    old: &mut S,
    store: &mut S,
    buffer: &mut [u8],
    ahead: &mut Ahead,
) -> Result<TakenOver, LoadFault>
    requires rows { AreRowsOf issuer.now rows }
    requires known { IsWithin known (S.size old.old) × (S.size old.old ≤ MAX_STORE_BYTES) }
    requires room { MOST_RECORD_BYTES ≤ length buffer.old }
    ensures ends { HasReadOld issuer.now rows.shard (S.bytes old.old) (S.bytes store.old) rows known
        → EndsReading issuer.now rows.shard (S.bytes old.old) (S.bytes store.old) (S.bytes store.new)
        (S.disk store.old) (S.disk store.new) result }
    ensures rows { IfOk result (λ over. AreRowsOf issuer.now over.rows × (over.rows.shard ≡ rows.shard)) }
    ensures within { IfOk result (λ over. IsWithin over.taken (S.size store.new)) }
    ensures stores { TakesStores S.size S.bytes S.disk S.room S.faults result old.old old.new store.old store.new }
    ensures memory { IfErr result (λ fault. fault ≢ LoadFault.NoMemory) }
{
    let from = Taken {
        records: known.records,
        bytes: VERSION_LINE.len() + known.bytes,
    };
    if store.len() > text_bytes(known.bytes as u64) {
        return take_text(Version::Two, rows, from, issuer, store, buffer, ahead);
    }
    match append_steps(old, known.bytes as u64, store, buffer) {
        Ok(()) => Ok(TakenOver { rows, taken: from }),
        Err(StoreFail) => Err(LoadFault::StoreFault),
    }
}

/// A buffer for the parts of a store of this size: as many bytes as the store has, up to a limit, and enough for any
/// record.
fn buffer(alloc: Global, size: u64) -> Result<Vec<u8>, NoMemory>
    ensures { IfOk result (λ bytes. MOST_RECORD_BYTES ≤ length bytes.items) }
{
    Ok(vec![in alloc; 0; buffer_bytes(size)]?)
}

fn buffer_bytes(size: u64) -> usize
    ensures { MOST_RECORD_BYTES ≤ result }
{
    if size >= BUFFER_BYTES as u64 {
        return BUFFER_BYTES;
    }
    MOST_RECORD_BYTES.max(size as usize)
}
