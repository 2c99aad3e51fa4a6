//! The book of a clearing check.
ghost use Rattle.std.specs.Prelude.{◌≡◌, ◌++◌, [], length, drop, slice_get, option_map, Result, IsSome, IfOk, OnOk, OnErr, MatchOption};
ghost use Rattle.std.specs.List.{list_any, count_by};
ghost use Rattle.std.specs.Option.{option_to_list};
ghost use Rattle.clearing_check.specs.Records.{has_atc, is_certified, opens, place_of};
ghost use Rattle.clearing_check.specs.NextOpen.{IsNextOpen};
ghost use Rattle.clearing_check.specs.ClearingLine.{Presented, IsLookUp};
ghost use Rattle.clearing_check.specs.Verdicts.{filed_of, verdict, verdict_on, records_after, after_line};
ghost use Rattle.clearing_check.specs.declared.verdict.Verdict.{Verdict};
ghost use Rattle.issuer_setup.specs.KeySlots.{keys_at};

use crate::filed::Filed;
use crate::filed_records::{FiledRecords, OpenRecord};
use crate::presented::{is_right, look_up};
use crate::verdict::Verdict;
use issuer_base::{Entry, MAX_CHIP_BYTES, NoMemory, Refusal};
use issuer_setup::Issuer;
use line_checks::LookedUpRequest;
use std::alloc::Global;
use std::marker::Model;

/// The decided records of an issuer's journals, and which of them clearing lines certified.
///
/// A contract sees the list of the records, in the order in which they were added.
#[derive(Drop)]
pub struct Book {
    records: FiledRecords,
}

impl Model for Book {
    ghost use Rattle.std.specs.Prelude.{List};
    ghost use Rattle.clearing_check.specs.declared.filed.Filed.{Filed};

    ghost Value = { List Filed };

    ghost view = { λ book. book.records };
}

impl Book {
    /// The empty book. It allocates the directory of the issuer's cards.
    pub fn new(alloc: Global, issuer: &Issuer) -> Result<Book, NoMemory>
        ensures { IfOk result (λ book. book ≡ []) }
    {
        let records = FiledRecords::new(alloc, issuer.cards())?;
        Ok(Book { records })
    }

    /// Files the record at this index of this shard's journal, if it is decided. Of records on one ATC of a card a line
    /// is compared with the first. The order of the records is that of [`Book::left`].
    pub fn add(
        &mut self,
        issuer: &Issuer,
        shard: u8,
        place: u64,
        entry: &Entry,
    ) -> Result<(), NoMemory>
        ensures filed { OnOk result (self.new ≡ self.old ++ filed_of issuer.now shard place entry.now) }
        ensures refused { OnErr result (self.new ≡ self.old) }
    {
        if let Some(filed) = filed_of(issuer, shard, place, entry) {
            self.records.push(filed)?;
        }
        Ok(())
    }

    /// Whether a decided record on this ATC of the card with this number was added.
    pub fn has(&self, card: u32, atc: u16) -> bool
        ensures { result ≡ list_any (has_atc card atc) self.now }
    {
        self.records.find(card, atc).is_some()
    }

    /// The verdict on a clearing line, without its newline. A record that the line certifies is certified. It doesn't
    /// allocate.
    pub fn judge(&mut self, issuer: &Issuer, line: &[u8]) -> Verdict
        ensures verdict { result ≡ verdict issuer.now self.old line.now }
        ensures certified { self.new ≡ after_line issuer.now self.old line.now }
    {
        let mut data = [0; MAX_CHIP_BYTES];
        let found = look_up(issuer, line, &mut data);
        self.judge_presented(issuer, &found)
    }

    /// The verdict on a line that was looked up ([`PresentedAhead`]), as [`Book::judge`] gives it. Its cryptogram is
    /// checked now, unless it was checked with others.
    pub fn judge_presented(
        &mut self,
        issuer: &Issuer,
        found: &Result<LookedUpRequest, Verdict>,
    ) -> Verdict
        requires known { IfOk found.now (λ sought. IsSome (keys_at issuer.now sought.slot)) }
        ensures verdict { (presented : Result Presented Verdict) → IsLookUp issuer.now presented found.now
            → result ≡ verdict_on self.old presented }
        ensures certified { (presented : Result Presented Verdict) → IsLookUp issuer.now presented found.now
            → self.new ≡ records_after self.old presented }
    {
        let sought = match found {
            Ok(sought) => sought,
            Err(verdict) => return *verdict,
        };
        if !is_right(issuer, sought) {
            return Verdict::Refused(Refusal::BadCryptogram);
        }
        self.records.judge(sought.card, &sought.request)
    }

    /// Where the open record of this index is, its shard and its index in the shard's journal: of the approved records
    /// that aren't certified, in the order in which they were added. `None` exactly past the last.
    pub fn left(&self, index: u64) -> Option<(u8, u64)>
        ensures { result ≡ option_map place_of (slice_get (opens self.now) index) }
    {
        self.records.left(index)
    }

    /// The first open record from this number on; the first record has number 0. `None` exactly if there is none. So all
    /// open records are listed in one pass, in the order of [`Book::left`].
    pub fn next_open(&self, from: usize) -> Option<OpenRecord>
        ensures { MatchOption result (opens (drop from self.now) ≡ []) (IsNextOpen self.now from) }
    {
        self.records.next_open(from)
    }

    /// How many records are certified. This reads all records.
    pub fn certified_count(&self) -> u64
        ensures { result ≡ count_by is_certified self.now }
    {
        self.records.certified_count()
    }

    /// How many records are open. This reads all records.
    pub fn open_count(&self) -> u64
        ensures { result ≡ length (opens self.now) }
    {
        self.records.open_count()
    }
}

/// What is filed of the record at this index of this shard's journal, if it is decided.
fn filed_of(issuer: &Issuer, shard: u8, place: u64, entry: &Entry) -> Option<Filed>
    ensures { option_to_list result ≡ filed_of issuer.now shard place entry.now }
{
    let Entry::Decided { request, reply } = entry else {
        return None;
    };
    let parts = request.parts();
    let card = issuer.card(&parts.pan, parts.psn)?;
    Some(Filed {
        card,
        atc: parts.atc,
        amount: parts.amount,
        currency: parts.currency,
        date: parts.date,
        un: parts.un,
        approved: reply.approve,
        shard,
        place,
        certified: false,
    })
}
