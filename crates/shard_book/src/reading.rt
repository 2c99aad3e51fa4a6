//! Reads the text of a journal from its store, one part after another.
ghost use Rattle.std.specs.Prelude.{◌≡◌, ◌≢◌, ℕ, ◌^◌, ◌<◌, ◌≤◌, List, length, drop, IfOk, IfErr, IfSome, MatchResult, OnOk};
ghost use Rattle.issuer_base.specs.declared.entry.Entry.{Entry};
ghost use Rattle.issuer_setup.specs.IssuerSetup.{Setup};
ghost use Rattle.journal_rec.specs.RecordText.{IsUnbroken};
ghost use Rattle.shard_book.specs.Loading.{IsUnbrokenIn, IsWithin, ReadsFront, ReadsText, StopsReplay, is_by_store};
ghost use Rattle.shard_book.specs.Loads.{Reads};
ghost use Rattle.shard_book.specs.ShardRows.{ShardRows, AreRowsOf, AreSame};

use crate::ahead::Ahead;
use crate::newline::has_newline;
use crate::replay::{LoadFault, Taken, TakenOver, Version};
use crate::rows::Rows;
use issuer_base::Store;
use issuer_setup::Issuer;
use journal_rec::MOST_RECORD_BYTES;
use journal_store::read_from;

/// Replays the records of a store's whole lines after those that were replayed, which are a prefix of the store's text.
pub(crate) fn take_text<S: Store>(
    version: Version,
    rows: Rows,
    from: Taken,
    issuer: &Issuer,
    store: &mut S,
    buffer: &mut [u8],
    ahead: &mut Ahead,
) -> Result<TakenOver, LoadFault>
    requires rows { AreRowsOf issuer.now rows }
    requires within { IsWithin from (S.size store.old) }
    requires room { MOST_RECORD_BYTES ≤ length buffer.old }
    ensures ends { (first : List Entry) → ReadsFront version issuer.now rows.shard first (S.bytes store.old) rows from
        → MatchResult result
        (λ over. ReadsText version issuer.now rows.shard first (S.bytes store.old) over.rows over.taken)
        (StopsReplay version issuer.now rows.shard first (S.bytes store.old)) }
    ensures within { IfOk result (λ over. IsWithin over.taken (S.size store.old)) }
    ensures same { IfOk result (λ over. AreSame rows over.rows) }
    ensures read { Reads S.size S.bytes S.disk S.room S.faults (is_by_store result) store.old store.new }
    ensures memory { IfErr result (λ fault. fault ≢ LoadFault.NoMemory) }
{
    let mut rows = rows;
    let taken = match rows.adopt_parts(version, from, issuer, store, buffer, ahead) {
        Ok(taken) => taken,
        Err(fault) => return Err(fault),
    };
    match check_rest(version, store, taken, buffer) {
        Ok(()) => Ok(TakenOver { rows, taken }),
        Err(fault) => Err(fault),
    }
}

impl Rows {
    /// Replays the records of a store's lines after those that were replayed, part by part, until a part has no whole
    /// line.
    fn adopt_parts<S: Store>(
        &mut self,
        version: Version,
        from: Taken,
        issuer: &Issuer,
        store: &mut S,
        buffer: &mut [u8],
        ahead: &mut Ahead,
    ) -> Result<Taken, LoadFault>
        requires rows { AreRowsOf issuer.now self.old }
        requires within { IsWithin from (S.size store.old) }
        ensures front { (first : List Entry)
            → ReadsFront version issuer.now self.old.shard first (S.bytes store.old) self.old from
            → MatchResult result (ReadsFront version issuer.now self.old.shard first (S.bytes store.old) self.new)
            (StopsReplay version issuer.now self.old.shard first (S.bytes store.old)) }
        ensures end { IfOk result (λ taken.
            IsUnbrokenIn (length buffer.old) taken.bytes (S.bytes store.old)) }
        ensures within { IfOk result (λ taken. IsWithin taken (S.size store.old)) }
        ensures same { AreSame self.old self.new }
        ensures read { Reads S.size S.bytes S.disk S.room S.faults (is_by_store result) store.old store.new }
        ensures memory { IfErr result (λ fault. fault ≢ LoadFault.NoMemory) }
    {
        let mut taken = from;
        'parts: while (taken.bytes as u64) < store.len() {
            match self.adopt_part(version, issuer, store, taken, buffer, ahead) {
                Ok(more) => {
                    if more.bytes == taken.bytes {
                        return Ok(more);
                    }
                    taken = more;
                }
                Err(fault) => return Err(fault),
            }
        }
        Ok(taken)
    }

    /// Replays the records of the whole lines after those that were replayed, as far as the buffer reaches. The result
    /// is what has then been replayed.
    fn adopt_part<S: Store>(
        &mut self,
        version: Version,
        issuer: &Issuer,
        store: &mut S,
        taken: Taken,
        buffer: &mut [u8],
        ahead: &mut Ahead,
    ) -> Result<Taken, LoadFault>
        requires rows { AreRowsOf issuer.now self.old }
        requires within { IsWithin taken (S.size store.old) × (S.size store.old < 2 ^ 64) }
        ensures front { (first : List Entry)
            → ReadsFront version issuer.now self.old.shard first (S.bytes store.old) self.old taken
            → MatchResult result (ReadsFront version issuer.now self.old.shard first (S.bytes store.old) self.new)
            (StopsReplay version issuer.now self.old.shard first (S.bytes store.old)) }
        ensures end { IfOk result (λ more. more.bytes ≡ taken.bytes
            → IsUnbrokenIn (length buffer.old) taken.bytes (S.bytes store.old)) }
        ensures within { IfOk result (λ more. (taken.bytes ≤ more.bytes) × IsWithin more (S.size store.old)) }
        ensures same { AreSame self.old self.new }
        ensures read { Reads S.size S.bytes S.disk S.room S.faults (is_by_store result) store.old store.new }
        ensures memory { IfErr result (λ fault. fault ≢ LoadFault.NoMemory) }
    {
        let Ok(count) = read_from(store, taken.bytes as u64, buffer) else {
            return Err(LoadFault::StoreFault);
        };
        match self.adopt_lines(version, issuer, &buffer[..count], taken.records, ahead) {
            Ok(more) => Ok(Taken {
                records: taken.records + more.records,
                bytes: taken.bytes + more.bytes,
            }),
            Err(fault) => Err(fault),
        }
    }
}

/// Checks that no newline is after the replayed text, if none is in its next bytes that fit the buffer. A line with so
/// many bytes is that of no record.
fn check_rest<S: Store>(
    version: Version,
    store: &mut S,
    taken: Taken,
    buffer: &mut [u8],
) -> Result<(), LoadFault>
    requires within { IsWithin taken (S.size store.old) }
    requires room { MOST_RECORD_BYTES ≤ length buffer.old }
    ensures rest { IsUnbrokenIn (length buffer.old) taken.bytes (S.bytes store.old)
        → OnOk result (IfSome (S.bytes store.old) (λ text. IsUnbroken (drop taken.bytes text))) }
    ensures stopped { (issuer : Setup) (shard : ℕ) (first : List Entry) (rows : ShardRows)
        → ReadsFront version issuer shard first (S.bytes store.old) rows taken
        → IsUnbrokenIn (length buffer.old) taken.bytes (S.bytes store.old)
        → IfErr result (StopsReplay version issuer shard first (S.bytes store.old)) }
    ensures read { Reads S.size S.bytes S.disk S.room S.faults (is_by_store result) store.old store.new }
    ensures memory { IfErr result (λ fault. fault ≢ LoadFault.NoMemory) }
{
    let room = buffer.len() as u64;
    let from = taken.bytes as u64;
    if store.len() - from <= room {
        return Ok(());
    }
    let Ok(found) = has_newline(store, from + room, buffer) else {
        return Err(LoadFault::StoreFault);
    };
    if found {
        return Err(version.bad_line(taken.records));
    }
    Ok(())
}
