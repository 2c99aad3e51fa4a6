//! Records, filed for lookup by card and ATC.
ghost use Rattle.std.specs.Prelude.{◌≡◌, ◌+◌, ◌<◌, ◌++◌, [], ◌∷◌, length, drop, slice_get, option_map, find, count_by, IfOk, OnOk, OnErr, MatchOption, ℕ, if◌then◌else◌};
ghost use Rattle.std.specs.List.{position_or_len};
ghost use Rattle.clearing_check.specs.Records.{has_atc, is_certified, is_open, opens, place_of, certify};
ghost use Rattle.clearing_check.specs.NextOpen.{IsNextOpen};
ghost use Rattle.clearing_check.specs.Verdicts.{verdict_by, certifies};

use crate::atc_pages::AtcPages;
use crate::filed::Filed;
use crate::verdict::{Verdict, verdict_by};
use issuer_base::{NoMemory, Request};
use std::alloc::Global;
use std::marker::Model;

/// An open record, and where to go on from it.
#[derive(Clone, Copy)]
pub struct OpenRecord {
    /// The number of its shard, from 0.
    pub shard: u8,

    /// Its index in the shard's journal.
    pub place: u64,

    /// The number of the record after it.
    pub next: usize,
}

/// Records, filed for lookup by card and ATC.
///
/// A contract sees the list of the records, in the order in which they were added.
#[derive(Drop)]
pub struct FiledRecords {
    records: Vec<Filed>,

    /// One more than the number of the first record, for each ATC of a card.
    pages: AtcPages,
}

impl Model for FiledRecords {
    ghost use Rattle.std.specs.Prelude.{List};
    ghost use Rattle.clearing_check.specs.declared.filed.Filed.{Filed};
    ghost use Rattle.clearing_check.specs.Inside.{AreFiled};

    ghost Value = { List Filed };

    ghost view = { λ records. records.records.items };

    ghost invariant = { λ records. AreFiled (record {
      records = records.records.items;
      pages = records.pages;
    }) };
}

impl FiledRecords {
    /// No records, with a directory of this many cards.
    pub fn new(alloc: Global, cards: u32) -> Result<FiledRecords, NoMemory>
        ensures { IfOk result (λ records. records ≡ []) }
    {
        Ok(FiledRecords {
            records: Vec::new(alloc),
            pages: AtcPages::new(alloc, cards)?,
        })
    }

    /// Adds a record after the others.
    pub fn push(&mut self, filed: Filed) -> Result<(), NoMemory>
        ensures added { OnOk result (self.new ≡ self.old ++ filed ∷ []) }
        ensures refused { OnErr result (self.new ≡ self.old) }
    {
        let slot = slot_after(self.records.len())?;
        self.records.reserve(1)?;
        self.pages.set_first(filed.card, filed.atc, slot)?;
        self.records.push_reserved(filed);
        Ok(())
    }

    /// The first record of this ATC of the card, in time that doesn't grow with the number of records.
    pub fn find(&self, card: u32, atc: u16) -> Option<Filed>
        ensures { result ≡ find (has_atc card atc) self.now }
    {
        self.record(self.number_of(card, atc))
    }

    /// The record with this number, if there is one.
    fn record(&self, number: usize) -> Option<Filed>
        ensures { (card atc : ℕ) → number ≡ position_or_len (has_atc card atc) self.now
            → result ≡ find (has_atc card atc) self.now }
    {
        self.records.get(number).copied()
    }

    /// The verdict on a request of the card with this number, by the first record of its ATC. A record that it certifies
    /// is certified. The record is looked up once.
    pub(crate) fn judge(&mut self, card: u32, request: &Request) -> Verdict
        ensures verdict { result ≡ verdict_by (find (has_atc card request.now.atc) self.old) request.now }
        ensures certified { self.new
            ≡ if certifies result then certify card request.now.atc self.old else self.old }
    {
        let number = self.number_of(card, request.parts().atc);
        let verdict = verdict_by(self.record(number), request);
        if let Verdict::Certified { .. } = verdict {
            self.certify_at(number);
        }
        verdict
    }

    /// Certifies the first record of this ATC of the card. A record that is certified stays certified.
    pub fn certify(&mut self, card: u32, atc: u16)
        ensures { self.new ≡ certify card atc self.old }
    {
        let number = self.number_of(card, atc);
        self.certify_at(number);
    }

    /// Certifies the record with this number, if there is one.
    fn certify_at(&mut self, number: usize)
        ensures { (card atc : ℕ) → number ≡ position_or_len (has_atc card atc) self.old
            → self.new ≡ certify card atc self.old }
    {
        if number < self.records.len() {
            self.records[number].certified = true;
        }
    }

    /// The number of the first record of this ATC of the card, or that of all records if there is none.
    fn number_of(&self, card: u32, atc: u16) -> usize
        ensures { result ≡ position_or_len (has_atc card atc) self.now }
    {
        match self.pages.get(card, atc) {
            0 => self.records.len(),
            slot => slot as usize - 1,
        }
    }

    /// Where the open record of this index is: its shard, and its index in the shard's journal. `None` exactly past the
    /// last. This reads the records up to it: [`FiledRecords::next_open`] lists them all in one pass.
    pub fn left(&self, index: u64) -> Option<(u8, u64)>
        ensures { result ≡ option_map place_of (slice_get (opens self.now) index) }
    {
        nth_open(self.records.as_slice(), index)
    }

    /// The first open record from this number on. `None` exactly if there is none. This reads the records up to it.
    pub fn next_open(&self, from: usize) -> Option<OpenRecord>
        ensures { MatchOption result (opens (drop from self.now) ≡ []) (IsNextOpen self.now from) }
    {
        let mut next = from;
        'records: while next < self.records.len() {
            let filed = &self.records[next];
            next += 1;
            if is_open(filed) {
                return Some(OpenRecord {
                    shard: filed.shard,
                    place: filed.place,
                    next,
                });
            }
        }
        None
    }

    /// How many records are certified. This reads all records.
    pub fn certified_count(&self) -> u64
        ensures { result ≡ count_by is_certified self.now }
    {
        self.records.iter().filter(|filed| filed.certified).count() as u64
    }

    /// How many records are open. This reads all records.
    pub fn open_count(&self) -> u64
        ensures { result ≡ length (opens self.now) }
    {
        self.records.iter().filter(|filed| is_open(filed)).count() as u64
    }
}

/// The slot of the record after this many; with 2^32 - 1 records there is none, as if memory ran out.
fn slot_after(count: usize) -> Result<u32, NoMemory>
    ensures slot { IfOk result (λ slot. slot ≡ count + 1) }
    ensures few { OnOk result (count < 4_294_967_295) }
{
    if count < u32::MAX as usize {
        Ok(count as u32 + 1)
    } else {
        Err(NoMemory)
    }
}

/// Where the open record of this index among these records is.
fn nth_open(records: &[Filed], index: u64) -> Option<(u8, u64)>
    ensures { result ≡ option_map place_of (slice_get (opens records.now) index) }
{
    let mut left = index;
    for filed in records {
        if is_open(filed) {
            if left == 0 {
                return Some((filed.shard, filed.place));
            }
            left -= 1;
        }
    }
    None
}

/// Whether the record is open.
fn is_open(filed: &Filed) -> bool
    ensures { result ≡ is_open filed.now }
{
    filed.approved && !filed.certified
}
