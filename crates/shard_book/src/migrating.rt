//! Continues a journal with what it lacks of the text of the old one.
ghost use Rattle.std.specs.Prelude.{◌≡◌, ◌≢◌, ◌⊎◌, ◌∷◌, ◌+◌, ◌^◌, ◌<◌, ◌≤◌, ℕ, List, [], length, take, drop, MatchOption, IfOk, IfErr, IfSome, OnOk, is_err, slice_index};
ghost use Rattle.issuer_base.specs.Stores.{BothTold};
ghost use Rattle.issuer_base.specs.declared.limits.TheConstants.{MAX_STORE_BYTES};
ghost use Rattle.journal_rec.specs.RecordText.{version_line};
ghost use Rattle.shard_book.specs.Loading.{IsOutside, is_by_store, is_store_failure, newlines_in};
ghost use Rattle.shard_book.specs.Loads.{MovesText, Reads, ReadsBoth};
ghost use Rattle.shard_book.specs.Migrating.{Agree, IsTextAfter, NamesDifference, PassesMoving};
ghost use Rattle.shard_book.specs.Versions.{IsPartOf};

use crate::replay::LoadFault;
use issuer_base::{MAX_STORE_BYTES, Store, StoreFail};
use journal_rec::VERSION_LINE;
use journal_store::read_from;

/// How many bytes the text of a journal of version 2 has whose records have so many.
pub(crate) fn text_bytes(bytes: u64) -> u64
    requires { bytes ≤ MAX_STORE_BYTES }
    ensures { result ≡ 3 + bytes }
{
    VERSION_LINE.len() as u64 + bytes
}

/// Reads the text of a journal of version 2, of which the old store has the records in its first bytes, from an offset
/// on. Returns how many bytes it read, at least one.
fn read_text<S: Store>(
    old: &mut S,
    bytes: u64,
    at: u64,
    into: &mut [u8],
) -> Result<usize, StoreFail>
    requires within { bytes ≤ S.size old.old }
    requires ahead { at < 3 + bytes }
    requires room { 0 < length into.old }
    ensures some { IfOk result (λ count. (0 < count) × (count ≤ length into.new) × (at + count ≤ 3 + bytes)) }
    ensures given { (text : List ℕ) → IsTextAfter (S.bytes old.old) bytes text
        → IfOk result (λ count. IfSome (S.bytes old.old) (λ _. take count into.new ≡ take count (drop at text))) }
    ensures read { Reads S.size S.bytes S.disk S.room S.faults (is_err result) old.old old.new }
{
    if at < VERSION_LINE.len() as u64 {
        return Ok(copy_line(at as usize, into));
    }
    let from = at - VERSION_LINE.len() as u64;
    let room = (bytes - from).min(into.len() as u64) as usize;
    let Ok(count) = read_from(old, from, &mut into[..room]) else {
        return Err(StoreFail);
    };
    Ok(count)
}

/// Copies the first line of a journal of version 2 from an offset on, as far as it fits.
fn copy_line(at: usize, into: &mut [u8]) -> usize
    requires ahead { at < 3 }
    requires room { 0 < length into.old }
    ensures some { (0 < result) × (result ≤ length into.new) × (at + result ≤ 3) }
    ensures given { take result into.new ≡ take result (drop at version_line) }
{
    let line = &VERSION_LINE[at..];
    let count = line.len().min(into.len());
    into[..count].copy_from_slice(&line[..count]);
    count
}

/// Checks that the store's bytes and the text agree as far as both go. The first line in which they differ is bad.
pub(crate) fn check_text<S: Store>(
    old: &mut S,
    bytes: u64,
    store: &mut S,
    ours: &mut [u8],
    theirs: &mut [u8],
) -> Result<(), LoadFault>
    requires bytes { (bytes ≤ S.size old.old) × (bytes ≤ MAX_STORE_BYTES) }
    requires room { (0 < length ours.old) × (0 < length theirs.old) }
    ensures agree { (text : List ℕ) → IsTextAfter (S.bytes old.old) bytes text
        → OnOk result (IfSome (S.bytes store.old) (Agree text)) }
    ensures differ { (text : List ℕ) → IsTextAfter (S.bytes old.old) bytes text
        → IfErr result (NamesDifference text (S.bytes store.old)) }
    ensures read { ReadsBoth S.size S.bytes S.disk S.room S.faults (is_by_store result)
        old.old old.new store.old store.new }
    ensures memory { IfErr result (λ fault. fault ≢ LoadFault.NoMemory) }
{
    let end = store.len().min(text_bytes(bytes));
    let mut at = 0;
    'parts: while at < end {
        match check_part(old, bytes, store, at, ours, theirs) {
            Ok(count) => at += count as u64,
            Err(fault) => return Err(fault),
        }
    }
    Ok(())
}

/// Checks that the store's bytes and the text agree in a part from an offset on, and returns how many bytes it has.
fn check_part<S: Store>(
    old: &mut S,
    bytes: u64,
    store: &mut S,
    at: u64,
    ours: &mut [u8],
    theirs: &mut [u8],
) -> Result<usize, LoadFault>
    requires bytes { (bytes ≤ S.size old.old) × (bytes ≤ MAX_STORE_BYTES) }
    requires at { (at < 3 + bytes) × (at < S.size store.old) }
    requires room { (0 < length ours.old) × (0 < length theirs.old) }
    ensures some { IfOk result (λ count. (0 < count) × (at + count ≤ S.size store.old) × (at + count ≤ 3 + bytes)) }
    ensures agree { (text : List ℕ) → IsTextAfter (S.bytes old.old) bytes text → IfOk result
        (λ count. IfSome (S.bytes store.old) (λ told. take count (drop at told) ≡ take count (drop at text))) }
    ensures differ { (text : List ℕ) → IsTextAfter (S.bytes old.old) bytes text
        → IfSome (S.bytes store.old) (λ told. take at told ≡ take at text)
        → IfErr result (NamesDifference text (S.bytes store.old)) }
    ensures read { ReadsBoth S.size S.bytes S.disk S.room S.faults (is_by_store result)
        old.old old.new store.old store.new }
    ensures memory { IfErr result (λ fault. fault ≢ LoadFault.NoMemory) }
{
    let Ok(given) = read_text(old, bytes, at, theirs) else {
        return Err(LoadFault::StoreFault);
    };
    let room = given.min(ours.len());
    let Ok(count) = read_from(store, at, &mut ours[..room]) else {
        return Err(LoadFault::StoreFault);
    };
    match first_difference(&ours[..count], &theirs[..count]) {
        None => Ok(count),
        Some(same) => Err(line_fault(store, at + same as u64, ours)),
    }
}

/// The index of the first byte in which two texts of the same length differ.
fn first_difference(ours: &[u8], theirs: &[u8]) -> Option<usize>
    requires { length ours.now ≡ length theirs.now }
    ensures { MatchOption result (ours.now ≡ theirs.now) (λ same. (same < length ours.now)
        × (take same ours.now ≡ take same theirs.now) × (slice_index ours.now same ≢ slice_index theirs.now same)) }
{
    if ours == theirs {
        return None;
    }
    let mut same = 0;
    'bytes: while same < ours.len() && ours[same] == theirs[same] {
        same += 1;
    }
    Some(same)
}

/// The fault that names the line of a store in which the byte at this offset is.
fn line_fault<S: Store>(store: &mut S, at: u64, buffer: &mut [u8]) -> LoadFault
    requires inside { at < S.size store.old }
    requires few { at + 1 < 2 ^ 64 }
    requires room { 0 < length buffer.old }
    ensures line { IsOutside result
        ⊎ IfSome (S.bytes store.old) (λ told. result ≡ LoadFault.BadLine (newlines_in (take at told) + 1)) }
    ensures read { Reads S.size S.bytes S.disk S.room S.faults (is_store_failure result) store.old store.new }
    ensures memory { result ≢ LoadFault.NoMemory }
{
    match count_newlines(store, at, buffer) {
        Ok(lines) => LoadFault::BadLine(lines + 1),
        Err(StoreFail) => LoadFault::StoreFault,
    }
}

/// How many newlines the first bytes of a store have.
fn count_newlines<S: Store>(store: &mut S, end: u64, buffer: &mut [u8]) -> Result<u64, StoreFail>
    requires within { end ≤ S.size store.old }
    requires room { 0 < length buffer.old }
    ensures few { IfOk result (λ lines. lines ≤ end) }
    ensures lines { IfOk result (λ lines. IfSome (S.bytes store.old) (λ told. lines ≡ newlines_in (take end told))) }
    ensures read { Reads S.size S.bytes S.disk S.room S.faults (is_err result) store.old store.new }
{
    let mut at = 0u64;
    let mut lines = 0u64;
    'parts: while at < end {
        let room = (end - at).min(buffer.len() as u64) as usize;
        let Ok(count) = read_from(store, at, &mut buffer[..room]) else {
            return Err(StoreFail);
        };
        lines += newlines(&buffer[..count]);
        at += count as u64;
    }
    Ok(lines)
}

/// How many newlines a part of a text has.
fn newlines(part: &[u8]) -> u64
    ensures lines { result ≡ newlines_in part.now }
    ensures few { result ≤ length part.now }
{
    let mut count = 0u64;
    let mut at = 0;
    'bytes: while at < part.len() {
        count += newline_count(part[at]);
        at += 1;
    }
    count
}

/// 1 for a newline, and 0 for another byte.
fn newline_count(byte: u8) -> u64
    ensures one { result ≡ newlines_in (byte ∷ []) }
    ensures few { result ≤ 1 }
{
    if byte == b'\n' {
        return 1;
    }
    0
}

/// Appends the remainder of the text to a store that has a prefix of it.
///
/// It appends at most as many bytes as the buffer has before it syncs them: so if a sync fails, no more bytes than
/// these are in doubt.
pub(crate) fn append_steps<S: Store>(
    old: &mut S,
    bytes: u64,
    store: &mut S,
    buffer: &mut [u8],
) -> Result<(), StoreFail>
    requires bytes { (bytes ≤ S.size old.old) × (bytes ≤ MAX_STORE_BYTES) }
    requires room { 0 < length buffer.old }
    requires lacks { S.size store.old ≤ 3 + bytes }
    ensures part { (text : List ℕ) → IsTextAfter (S.bytes old.old) bytes text
        → IfSome (S.bytes store.old) (IsPartOf text) → IfSome (S.bytes store.new) (IsPartOf text) }
    ensures grows { S.size store.old ≤ S.size store.new }
    ensures disk { (text : List ℕ) → IsTextAfter (S.bytes old.old) bytes text
        → IfSome (S.bytes store.old) (IsPartOf text)
        → BothTold (PassesMoving text) (S.disk store.old) (S.disk store.new) }
    ensures size { OnOk result (S.size store.new ≡ 3 + bytes) }
    ensures stores { MovesText S.size S.bytes S.disk S.room S.faults (3 + bytes) (is_err result)
        old.old old.new store.old store.new }
{
    'steps: while store.len() < text_bytes(bytes) {
        match append_step(old, bytes, store, buffer) {
            Ok(()) => {}
            Err(StoreFail) => return Err(StoreFail),
        }
    }
    Ok(())
}

/// Appends the next bytes of the text to a store that has a prefix of it, as many as the buffer takes, and syncs them.
fn append_step<S: Store>(
    old: &mut S,
    bytes: u64,
    store: &mut S,
    buffer: &mut [u8],
) -> Result<(), StoreFail>
    requires within { bytes ≤ S.size old.old }
    requires room { 0 < length buffer.old }
    requires lacks { S.size store.old < 3 + bytes }
    ensures part { (text : List ℕ) → IsTextAfter (S.bytes old.old) bytes text
        → IfSome (S.bytes store.old) (IsPartOf text) → IfSome (S.bytes store.new) (IsPartOf text) }
    ensures grows { S.size store.old ≤ S.size store.new }
    ensures disk { (text : List ℕ) → IsTextAfter (S.bytes old.old) bytes text
        → IfSome (S.bytes store.old) (IsPartOf text)
        → BothTold (PassesMoving text) (S.disk store.old) (S.disk store.new) }
    ensures size { OnOk result ((S.size store.old < S.size store.new) × (S.size store.new ≤ 3 + bytes)) }
    ensures stores { MovesText S.size S.bytes S.disk S.room S.faults (3 + bytes) (is_err result)
        old.old old.new store.old store.new }
{
    let Ok(count) = read_text(old, bytes, store.len(), buffer) else {
        return Err(StoreFail);
    };
    let Ok(()) = store.append(&buffer[..count]) else {
        return Err(StoreFail);
    };
    store.sync()
}
