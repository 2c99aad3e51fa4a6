//! A reader of a journal's records, one at a time, through one buffer of fixed size.
ghost use Rattle.std.specs.Prelude.{◌≡◌, ℕ, ◌+◌, ◌-◌, ◌^◌, ◌<◌, ◌≤◌, Option, List, [], length, vec_len, min};
ghost use Rattle.std.specs.Prelude.{IfOk, IfErr, IfSome, OnOk, None, IsErr, is_err, false};
ghost use Rattle.issuer_base.specs.OutsideFaults.{CountsFaults};
ghost use Rattle.issuer_base.specs.declared.entry.Entry.{Entry};
ghost use Rattle.journal_rec.specs.RecordText.{IsUnbroken};
ghost use Rattle.journal_rec.specs.declared.limits.TheConstants.{MOST_RECORD_BYTES};
ghost use Rattle.shard_book.specs.LineAhead.{IsLineAhead};
ghost use Rattle.shard_book.specs.Loads.{IsOnlyRead};

use issuer_base::{Entry, NoMemory, Store, StoreFail};
use journal_rec::{VERSION_LINE, read_entry};
use journal_store::read_from;
use shard_book::{first_newline, has_newline};
use std::alloc::Global;

/// How many bytes of a store are in memory.
const BUFFER_BYTES: usize = 65_536;

/// Why a journal's records can't be read on.
#[derive(Clone, Copy, PartialEq, Eq, Debug)]
pub enum RecordFault {
    /// The store failed.
    StoreFault,
    /// This whole line, counted from 1, is that of no record; or it is the first, and isn't `v2`.
    BadLine(u64),
}

/// Reads the records of a journal of version 2 from the start of its store, which must stay the same meanwhile.
#[derive(Drop)]
pub struct RecordReader {
    buffer: Vec<u8>,

    // The unread bytes in the buffer.
    start: usize,
    end: usize,

    /// The offset in the store of the first unread byte.
    taken: u64,

    /// How many records were read.
    records: u64,
    ghost sized: { MOST_RECORD_BYTES ≤ vec_len buffer },
    ghost in_order: { start ≤ end },
    ghost in_bounds: { end ≤ vec_len buffer },
    ghost fits: { taken + (end - start) < 2 ^ 64 },
    ghost few: { records + records ≤ taken },
}

impl RecordReader {
    ghost use Rattle.journal_reader.specs.Reading.{HasRead, IsBuffered, IsWithin, Gives, Stops, StartsOtherwise, ahead_of, has_failed};
    ghost use Rattle.journal_reader.specs.Reading.{read_by};

    /// A reader that has read nothing. Only this call allocates.
    pub fn new(alloc: Global) -> Result<Self, NoMemory>
        ensures { IfOk result (λ reader. (reader.taken ≡ 0) × (reader.records ≡ 0) × (ahead_of reader ≡ [])) }
    {
        Ok(RecordReader {
            buffer: vec![in alloc; 0; BUFFER_BYTES]?,
            start: 0,
            end: 0,
            taken: 0,
            records: 0,
        })
    }

    /// Begins at the start of a store: reads its first line, `v2`.
    pub fn begin<S: Store>(&mut self, store: &mut S) -> Result<(), RecordFault>
        ensures read { OnOk result (HasRead self.new (S.bytes store.old) []) }
        ensures within { OnOk result (IsWithin self.new (S.size store.old)) }
        ensures stopped { IfErr result (StartsOtherwise (S.bytes store.old)) }
        ensures none { self.new.records ≡ 0 }
        ensures only_read { IsOnlyRead S.size S.bytes S.disk S.room store.old store.new }
        ensures count { CountsFaults (S.faults store.old) (S.faults store.new) (has_failed result) }
    {
        self.taken = 0;
        self.records = 0;
        let Ok(()) = self.fill(store) else {
            return Err(RecordFault::StoreFault);
        };
        if !self.ahead().starts_with(&VERSION_LINE) {
            return Err(RecordFault::BadLine(1));
        }
        self.start += VERSION_LINE.len();
        self.taken += VERSION_LINE.len() as u64;
        Ok(())
    }

    /// The next record, or none where no whole line is left.
    pub fn next_record<S: Store>(&mut self, store: &mut S) -> Result<Option<Entry>, RecordFault>
        requires within { IsWithin self.old (S.size store.old) }
        ensures counted { self.new.records ≡ self.old.records + read_by result }
        ensures given { (history : List Entry) → HasRead self.old (S.bytes store.old) history
            → IfOk result (Gives self.new (S.bytes store.old) history) }
        ensures stopped { (history : List Entry) → HasRead self.old (S.bytes store.old) history
            → IfErr result (Stops (S.bytes store.old) history) }
        ensures within { IsWithin self.new (S.size store.old) }
        ensures grown { IfOk result (λ found. IfSome found (λ _. self.old.taken < self.new.taken)) }
        ensures only_read { IsOnlyRead S.size S.bytes S.disk S.room store.old store.new }
        ensures count { CountsFaults (S.faults store.old) (S.faults store.new) (has_failed result) }
    {
        if let Some(length) = first_newline(self.ahead()) {
            return self.take_line(length);
        }
        let Ok(()) = self.fill(store) else {
            return Err(RecordFault::StoreFault);
        };
        match first_newline(self.ahead()) {
            Some(length) => self.take_line(length),
            None => self.check_rest(store),
        }
    }

    /// The unread bytes in memory.
    fn ahead(&self) -> &[u8]
        ensures { result.now ≡ ahead_of self.now }
    {
        &self.buffer[self.start..self.end]
    }

    /// Reads the bytes of the store from the first unread one on, as far as the buffer reaches.
    fn fill<S: Store>(&mut self, store: &mut S) -> Result<(), StoreFail>
        requires within { self.old.taken ≤ S.size store.old }
        ensures buffered { OnOk result (IfSome (S.bytes store.old) (IsBuffered self.new)) }
        ensures all { OnOk result (length (ahead_of self.new)
            ≡ min (vec_len self.new.buffer) (S.size store.old - self.old.taken)) }
        ensures none { IsErr result → ahead_of self.new ≡ [] }
        ensures same { (self.new.taken ≡ self.old.taken) × (self.new.records ≡ self.old.records) }
        ensures only_read { IsOnlyRead S.size S.bytes S.disk S.room store.old store.new }
        ensures count { CountsFaults (S.faults store.old) (S.faults store.new) (is_err result) }
    {
        self.start = 0;
        self.end = 0;
        let size = store.len();
        prove!(self.taken <= size);
        let Ok(count) = read_from(store, self.taken, &mut self.buffer) else {
            return Err(StoreFail);
        };
        self.end = count;
        Ok(())
    }

    /// Takes the next line, of so many bytes, which is in memory.
    fn take_line(&mut self, length: usize) -> Result<Option<Entry>, RecordFault>
        requires { IsLineAhead (ahead_of self.old) length }
        ensures counted { self.new.records ≡ self.old.records + read_by result }
        ensures given { (bytes : Option (List ℕ)) (history : List Entry) → HasRead self.old bytes history
            → IfOk result (Gives self.new bytes history) }
        ensures stopped { (bytes : Option (List ℕ)) (history : List Entry) → HasRead self.old bytes history
            → IfErr result (Stops bytes history) }
        ensures within { (size : ℕ) → IsWithin self.old size → IsWithin self.new size }
        ensures grown { IfOk result (λ _. self.old.taken < self.new.taken) }
        ensures own { has_failed result ≡ false }
    {
        let Ok(entry) = read_entry(&self.ahead()[..length]) else {
            return Err(RecordFault::BadLine(self.records + 2));
        };
        self.start += length + 1;
        self.taken += length as u64 + 1;
        self.records += 1;
        Ok(Some(entry))
    }

    /// Checks that no newline is after the bytes in memory, which have none and are as many as the store has or the
    /// buffer holds. A line with so many bytes is that of no record.
    fn check_rest<S: Store>(&mut self, store: &mut S) -> Result<Option<Entry>, RecordFault>
        requires ahead { IsUnbroken (ahead_of self.old)
            × (length (ahead_of self.old) ≡ min (vec_len self.old.buffer) (S.size store.old - self.old.taken)) }
        requires within { self.old.taken ≤ S.size store.old }
        ensures given { (history : List Entry) → HasRead self.old (S.bytes store.old) history
            → IfOk result (Gives self.new (S.bytes store.old) history) }
        ensures stopped { (history : List Entry) → HasRead self.old (S.bytes store.old) history
            → IfErr result (Stops (S.bytes store.old) history) }
        ensures none { IfOk result (λ found. found ≡ None) }
        ensures kept { (self.new.records ≡ self.old.records) × IsWithin self.new (S.size store.old) }
        ensures only_read { IsOnlyRead S.size S.bytes S.disk S.room store.old store.new }
        ensures count { CountsFaults (S.faults store.old) (S.faults store.new) (has_failed result) }
    {
        let from = self.taken + self.ahead().len() as u64;
        if from >= store.len() {
            return Ok(None);
        }
        self.start = 0;
        self.end = 0;
        match has_newline(store, from, &mut self.buffer) {
            Ok(true) => Err(RecordFault::BadLine(self.records + 2)),
            Ok(false) => Ok(None),
            Err(StoreFail) => Err(RecordFault::StoreFault),
        }
    }
}
