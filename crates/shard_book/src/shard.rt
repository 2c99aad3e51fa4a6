//! A shard over a store: what it answers or takes, and what it records before that.
ghost use Rattle.std.specs.Prelude.{◌≡◌, ℕ, ◌≤◌, ◌/◌, slice_get, Some, List, length, ◌<◌, Ok, Err, IfOk, IfErr, MatchResult, false, IsTrue, is_err};
ghost use Rattle.issuer_base.specs.Stores.{BothTold, LeavesOnly};
ghost use Rattle.issuer_base.specs.declared.entry.Entry.{Entry};
ghost use Rattle.issuer_base.specs.CardNames.{named};
ghost use Rattle.issuer_setup.specs.IssuerSetup.{Setup};
ghost use Rattle.row_core.specs.Replying.{reply_to};
ghost use Rattle.line_checks.specs.AtHand.{IsCommandAtHand, IsStatusAtHand, order_asked, record_of};
ghost use Rattle.journal_rec.specs.Record.{is_record, IsRecord};
ghost use Rattle.journal_rec.specs.RecordText.{journal_text, text_of};
ghost use Rattle.journal_rec.specs.declared.limits.TheConstants.{LEAST_RECORD_BYTES, MOST_QUEUED_BYTES, MOST_RECORD_BYTES};
ghost use Rattle.journal_store.specs.Images.{IsEitherImage};
ghost use Rattle.journal_store.specs.Opening.{IsNotOpened};
ghost use Rattle.shard_book.specs.Loading.{IsOldText, IsWithin};
ghost use Rattle.shard_book.specs.Steps.{IsLaunchAt};
ghost use Rattle.shard_book.specs.Shards.{number_in, IsUnder, HasCard, store_in, disk_in, places_in, reported_in, StandsFor, HasTail, Adds, IsTextOf, IsImageLeft, IsSettled, StandsForLeft};
ghost use Rattle.shard_book.specs.Recorded.{AddsRecorded};
ghost use Rattle.shard_book.specs.Room.{most_of, UsesRoom, LoadsWithin};
ghost use Rattle.shard_book.specs.Answering.{is_store_fault, LeavesTail, reported_after, AnswersClaimed, AnswersQueueing, AnswersSetting, AnswersOrder};
ghost use Rattle.shard_book.specs.Calls.{AnswersBy, CountsPut, IsOrderFor, IsRequestFor, KeepsCall, KeepsShard, LeavesImages, LeavesImagesOf, LeavesPut, MayRecord};
ghost use Rattle.shard_book.specs.Loads.{HaveRoom, IsLoadedFrom, IsNotLoaded, IsOnlyRead, IsOpenedFrom, LoadsAs, StoresWork};
ghost use Rattle.shard_book.specs.Taking.{IsReadRecord, IsRecordFor, IsReplicaOf, KeepsReplica, LeavesReplicas, LeavesTaken, Takes, is_failed_store};

use crate::ahead::look_up_record;
use crate::loading::take_over;
use crate::replay::{LoadFault, Taken, TakenOver, Version};
use crate::rows::Rows;
use crate::taking::TakeFault;
use arpc_methods::MadeAhead;
use arrayvec::ArrayVec;
use issuer_base::{
    Answer, Entry, MAX_FAULTS_REPORTED, NoMemory, Refusal, Reply, Request, Store, StoreFail,
};
use issuer_setup::Issuer;
use journal_rec::{write_decided, write_entry};
use journal_store::Journal;
use line_checks::{CheckedCommand, CheckedOrder, CheckedRequest, CheckedStatus, LookedUp};
use row_core::{Known, Launch, Row};
use std::alloc::Global;

/// A shard of an issuer over a store: the rows of its cards, and the journal of its records.
pub struct Shard<S: Store> {
    journal: Journal<S>,
    rows: Rows,

    /// How many calls since loading reported that the store failed, counted up to [`MAX_FAULTS_REPORTED`].
    reported: u64,
}

/// A store from which no shard was loaded, and why.
pub struct LoadBack<S> {
    pub fault: LoadFault,
    pub store: S,
}

impl<S: Store> Shard<S> {
    /// Loads the shard with this number of an issuer from its old store, of version 1, and its store. It replays the
    /// records of the old store's whole lines, and appends to the store what it lacks of their text. Then it replays
    /// the records of the store's further whole lines, truncates a torn last line, and syncs the store. The first bad
    /// line stops it, and then the store is unchanged. The old store is only read.
    ///
    /// It allocates all memory before it reads the stores. No later call allocates.
    pub fn load(
        alloc: Global,
        old: &mut S,
        store: S,
        shard: u8,
        issuer: &Issuer,
    ) -> Result<Shard<S>, LoadBack<S>>
        requires { shard < issuer.now.shards }
        ensures loaded { MatchResult result (IsLoadedFrom issuer.now shard old.old old.new store)
            (λ back. IsNotLoaded S.size S.bytes S.disk S.faults issuer.now shard old.old store back.fault
            old.new back.store) }

        // The text of a legal history, or a part of the old store's, is loaded, and as just this history. Only memory
        // or the stores themselves can stop it.
        ensures exact { (past history : List Entry) → IsOldText issuer.now shard (S.bytes old.old) past
            → IsTextOf issuer.now shard past (S.bytes store) history
            → LoadsAs (λ loaded. IsSettled issuer.now loaded history) result }

        // So is what a crash left of a history, under whatever decision table: as that history, or as it and the one
        // record whose text is whole.
        ensures image { (past history : List Entry) → IsOldText issuer.now shard (S.bytes old.old) past
            → IsImageLeft issuer.now shard past (S.bytes store) history
            → LoadsAs (StandsForLeft issuer.now shard (S.bytes store) history) result }
        ensures old { IsOnlyRead S.size S.bytes S.disk S.room old.old old.new }

        // Stores that work at the sizes that they have or may grow to don't fail.
        ensures room { (spare : ℕ)
            → HaveRoom spare (S.size old.old) (S.room old.old) (S.size store) (S.room store)
            → StoresWork result }
    {
        let mut store = store;
        match take_over(alloc, old, &mut store, issuer, shard) {
            Ok(TakenOver { rows, taken }) => open(store, rows, taken),
            Err(fault) => Err(LoadBack { fault, store }),
        }
    }

    /// The answer to a checked request of a card of this shard. `won` says whether the caller may decide it.
    ///
    /// A new decision is durable before it is answered.
    pub fn answer(&mut self, issuer: &Issuer, found: &CheckedRequest, won: bool) -> Answer
        requires { IsRequestFor issuer.now self.old found.now }
        ensures answer { AnswersBy issuer.now self.old (λ shard history after.
            AnswersClaimed shard (reply_to issuer.now) won history found.now.request result after) self.new }

        // After a new record nothing is in doubt. After a fault this very record may be, or what was in doubt before.
        ensures tail { (history : List Entry) (tail : List ℕ) → StandsFor issuer.now self.old history
            → HasTail self.old history tail
            → LeavesTail (Entry.Decided found.now.request (reply_to issuer.now history found.now.request))
            history tail result self.new }
        ensures crash { LeavesImages issuer.now self.old self.new }

        // With room for so many bytes and more the store doesn't fail, and the room for the more is left.
        ensures room { UsesRoom MOST_RECORD_BYTES (is_store_fault result) self.old self.new }
        ensures kept { KeepsShard issuer.now self.old result self.new }
    {
        let shard = self.rows.shard();
        match self.rows.known(found) {
            Some(Known::Kept(reply, place)) => {
                return Answer::Kept {
                    shard,
                    place,
                    reply: reply.copy(),
                };
            }
            Some(Known::Below(greatest)) => return Answer::Refused(Refusal::Below(greatest)),
            Some(Known::Taken(place)) => return Answer::Refused(Refusal::Taken { shard, place }),
            None => {}
        }
        if !won {
            return Answer::Refused(Refusal::Pending);
        }
        let mut reply = Reply {
            arc: [0; 2],
            approve: false,
            bytes: ArrayVec::new(),
        };
        let launch = self.rows.decide(issuer, found, &mut reply);
        let Ok(place) = self.add_decision(found, &reply, launch) else {
            return Answer::Refused(Refusal::StoreFault);
        };
        Answer::Fresh {
            shard,
            place,
            reply,
        }
    }

    /// The answer to a checked order for a card of this shard. Its record is durable before it is answered.
    pub fn order(&mut self, issuer: &Issuer, found: &CheckedOrder) -> Answer
        requires { IsOrderFor issuer.now self.old found.now }
        ensures answer { AnswersBy issuer.now self.old (λ shard history after.
            AnswersOrder shard history (order_asked found.now) result after) self.new }

        // As for a request: nothing is in doubt after the record, and after a fault this very record may be.
        ensures tail { (history : List Entry) (tail : List ℕ) → HasTail self.old history tail
            → LeavesTail (record_of found.now) history tail result self.new }
        ensures crash { LeavesImages issuer.now self.old self.new }
        ensures room { UsesRoom (most_of (record_of found.now)) (is_store_fault result) self.old self.new }
        ensures kept { KeepsShard issuer.now self.old result self.new }
    {
        match found {
            CheckedOrder::Command(found) => self.queue(issuer, found),
            CheckedOrder::Status(found) => self.set_status(issuer, found),
        }
    }

    /// Takes the next record of another host's history if it is a valid successor under whatever decision table. The
    /// result is its index. The record is durable before the row of its card changes.
    pub fn take(&mut self, issuer: &Issuer, entry: &Entry) -> Result<u64, TakeFault>
        requires { IsRecordFor issuer.now self.old entry.now }
        ensures taken { (history : List Entry) → IsReplicaOf issuer.now self.old history
            → Takes issuer.now self.old history entry.now result self.new }

        // As for a request: nothing is in doubt after the record, and after the store's fault this very record may be.
        ensures tail { (history : List Entry) (tail : List ℕ) → HasTail self.old history tail
            → LeavesTaken entry.now history tail result self.new }
        ensures crash { LeavesReplicas issuer.now self.old self.new }
        ensures room { UsesRoom (most_of entry.now) (is_failed_store result) self.old self.new }
        ensures kept { KeepsReplica issuer.now self.old result self.new }
    {
        let found = look_up_record(issuer, entry);
        self.take_looked_up(issuer, entry, write_entry(entry).as_slice(), &found, None)
    }

    /// Takes a record as [`Shard::take`] does, and appends this text, which is the record's. `found` is what
    /// [`look_up_record`] gave for it, possibly with the verdict of [`check_in_lanes`](line_checks::check_in_lanes). The
    /// ARPC isn't computed again if `made` has it, by [`add_answer`](crate::add_answer); it changes nothing else.
    pub fn take_looked_up(
        &mut self,
        issuer: &Issuer,
        entry: &Entry,
        text: &[u8],
        found: &Result<LookedUp, Refusal>,
        made: Option<&MadeAhead>,
    ) -> Result<u64, TakeFault>
        requires under { IsUnder issuer.now self.old }
        requires read { IsReadRecord issuer.now entry.now text.now found.now }
        ensures taken { (history : List Entry) → IsReplicaOf issuer.now self.old history
            → Takes issuer.now self.old history entry.now result self.new }
        ensures tail { (history : List Entry) (tail : List ℕ) → HasTail self.old history tail
            → LeavesTaken entry.now history tail result self.new }
        ensures crash { LeavesReplicas issuer.now self.old self.new }
        ensures room { UsesRoom (most_of entry.now) (is_failed_store result) self.old self.new }
        ensures kept { KeepsReplica issuer.now self.old result self.new }
    {
        let Some(accepted) = self.rows.accept(Version::Two, issuer, entry, found, made) else {
            return Err(TakeFault::NotLegal);
        };
        let Ok(place) = self.put_text(text) else {
            return Err(TakeFault::StoreFault);
        };
        self.rows.apply_record(&accepted, place);
        Ok(place)
    }

    /// The row of a card of this shard.
    pub fn row(&self, card: u32) -> &Row
        requires { HasCard self.now card }
        ensures { slice_get self.now.rows.rows (card / self.now.rows.shards) ≡ Some result.now }
    {
        self.rows.row(card)
    }

    /// How many records the shard has.
    pub fn places(&self) -> u64
        ensures history { (issuer : Setup) (history : List Entry) → StandsFor issuer self.now history
            → result ≡ length history }
        ensures places { result ≡ places_in self.now }
    {
        self.journal.records()
    }

    /// How many calls since loading reported that the store failed. The count saturates at 2^62.
    pub fn faults(&self) -> u64
        ensures { result ≡ reported_in self.now }
    {
        self.reported
    }

    /// Appends each recorded ATC of each card of the shard once, with the number of its card. If memory runs out,
    /// the list is unchanged.
    pub fn recorded(&self, list: &mut Vec<(u32, u16)>) -> Result<(), NoMemory>
        ensures recorded { (issuer : Setup) (history : List Entry) → StandsFor issuer self.now history
            → IfOk result (λ _. AddsRecorded issuer (number_in self.now) history list.old.items list.new.items) }
        ensures unchanged { IfErr result (λ _. list.new.items ≡ list.old.items) }
    {
        let count = list.len();
        let listed = self.rows.list_recorded(list);
        if listed.is_err() {
            list.truncate(count);
        }
        listed
    }

    /// The store. It has the text of the records, and after it what is in doubt.
    pub fn into_store(self) -> S
        ensures { result ≡ store_in self }
    {
        let Shard {
            journal,
            rows: _,
            reported: _,
        } = self;
        journal.into_store()
    }

    /// The answer to a command.
    fn queue(&mut self, issuer: &Issuer, found: &CheckedCommand) -> Answer
        requires under { IsUnder issuer.now self.old }
        requires home { HasCard self.old found.now.card }
        requires at_hand { IsCommandAtHand issuer.now found.now }
        ensures answer { AnswersBy issuer.now self.old (λ shard history after.
            AnswersQueueing shard history (named found.now.pan found.now.psn) found.now.command result after) self.new }
        ensures tail { (history : List Entry) (tail : List ℕ) → HasTail self.old history tail
            → LeavesTail (Entry.Queued found.now.pan found.now.psn found.now.command) history tail result self.new }
        ensures crash { LeavesImages issuer.now self.old self.new }
        ensures room { UsesRoom MOST_QUEUED_BYTES (is_store_fault result) self.old self.new }
        ensures kept { KeepsShard issuer.now self.old result self.new }
    {
        if !self.rows.takes_command(found.card) {
            return Answer::Refused(Refusal::QueueFull);
        }
        let Ok(place) = self.put(&found.to_entry()) else {
            return Answer::Refused(Refusal::StoreFault);
        };
        self.rows.push(found.card, found.command.copy());
        Answer::Queued {
            shard: self.rows.shard(),
            place,
        }
    }

    /// The answer to a status.
    fn set_status(&mut self, issuer: &Issuer, found: &CheckedStatus) -> Answer
        requires under { IsUnder issuer.now self.old }
        requires home { HasCard self.old found.now.card }
        requires at_hand { IsStatusAtHand issuer.now found.now }
        ensures answer { AnswersBy issuer.now self.old (λ shard history after.
            AnswersSetting shard history (named found.now.pan found.now.psn) found.now.status result after) self.new }
        ensures tail { (history : List Entry) (tail : List ℕ) → HasTail self.old history tail
            → LeavesTail (Entry.Status found.now.pan found.now.psn found.now.status) history tail result self.new }
        ensures crash { LeavesImages issuer.now self.old self.new }
        ensures room { UsesRoom MOST_RECORD_BYTES (is_store_fault result) self.old self.new }
        ensures kept { KeepsShard issuer.now self.old result self.new }
    {
        let Ok(place) = self.put(&found.to_entry()) else {
            return Answer::Refused(Refusal::StoreFault);
        };
        self.rows.set_status(found.card, found.status);
        Answer::Set {
            shard: self.rows.shard(),
            place,
        }
    }

    /// Records the decision of a request, and applies it to the row of its card by the launch of its batch. The result
    /// is the record's index.
    fn add_decision(
        &mut self,
        found: &CheckedRequest,
        reply: &Reply,
        launch: Option<Launch>,
    ) -> Result<u64, StoreFail>
        requires home { HasCard self.old found.now.card }
        requires some { 1 ≤ length reply.now.bytes.items }
        requires launch { IsLaunchAt self.old.rows found.now launch }
        ensures added { (issuer : Setup) (history : List Entry) → MayRecord issuer self.old found.now reply.now history
            → Adds issuer self.new history (Entry.Decided found.now.request reply.now) result }
        ensures tail { (history : List Entry) (tail : List ℕ) → HasTail self.old history tail
            → LeavesPut history tail (Entry.Decided found.now.request reply.now) result self.new }
        ensures crash { (issuer : Setup) (history : List Entry) → MayRecord issuer self.old found.now reply.now history
            → LeavesImagesOf issuer history self.old self.new }
        ensures room { UsesRoom MOST_RECORD_BYTES (is_err result) self.old self.new }
        ensures kept { (issuer : Setup) → IsUnder issuer self.old
            → KeepsCall issuer self.old (is_err result) self.new }
    {
        let mut text = ArrayVec::new();
        write_decided(&mut text, &found.request, reply);
        let place = self.put_text(text.as_slice())?;
        self.rows.apply(found, reply, launch, place);
        Ok(place)
    }

    /// Appends the text of a record to the journal and syncs it. The result is the record's index.
    fn put(&mut self, entry: &Entry) -> Result<u64, StoreFail>
        requires { IsTrue (is_record entry.now) }
        ensures put { (history : List Entry) (tail : List ℕ) → HasTail self.old history tail
            → LeavesPut history tail entry.now result self.new }
        ensures record { IsRecord entry.now }
        ensures rows { self.new.rows ≡ self.old.rows }
        ensures crash { (history : List Entry) (tail : List ℕ) → HasTail self.old history tail
            → BothTold (LeavesOnly (IsEitherImage (journal_text history) tail (text_of entry.now)))
            (disk_in self.old) (disk_in self.new) }
        ensures room { UsesRoom (most_of entry.now) (is_err result) self.old self.new }
        ensures counts { CountsPut self.old (is_err result) self.new }
    {
        self.put_text(write_entry(entry).as_slice())
    }

    /// Appends this text of a record to the journal and syncs it. The result is the record's index.
    fn put_text(&mut self, text: &[u8]) -> Result<u64, StoreFail>
        requires { LEAST_RECORD_BYTES ≤ length text.now }
        ensures put { (history : List Entry) (tail : List ℕ) (entry : Entry)
            → text.now ≡ text_of entry → HasTail self.old history tail
            → LeavesPut history tail entry result self.new }
        ensures rows { self.new.rows ≡ self.old.rows }
        ensures crash { (history : List Entry) (tail : List ℕ) (entry : Entry)
            → text.now ≡ text_of entry → HasTail self.old history tail
            → BothTold (LeavesOnly (IsEitherImage (journal_text history) tail (text_of entry)))
            (disk_in self.old) (disk_in self.new) }
        ensures room { UsesRoom (length text.now) (is_err result) self.old self.new }
        ensures counts { CountsPut self.old (is_err result) self.new }
    {
        let written = self.journal.put(text);
        self.reported = reported_after(self.reported, written.is_err());
        written
    }
}

/// Opens the journal of a store from whose prefix the rows were replayed.
fn open<S: Store>(store: S, rows: Rows, taken: Taken) -> Result<Shard<S>, LoadBack<S>>
    requires within { IsWithin taken (S.size store) }
    ensures opened { MatchResult result (IsOpenedFrom store rows taken)
        (λ back. (back.fault ≡ LoadFault.StoreFault)
        × IsNotOpened S.bytes S.disk S.faults store taken.bytes back.store) }
    ensures room { LoadsWithin (S.size store) (S.room store) result }
{
    match Journal::open(store, taken.bytes as u64, taken.records) {
        Ok(journal) => Ok(Shard {
            journal,
            rows,
            reported: 0,
        }),
        Err(store) => Err(LoadBack {
            fault: LoadFault::StoreFault,
            store,
        }),
    }
}

/// How many calls reported that the store failed, after one more call.
fn reported_after(reported: u64, failed: bool) -> u64
    ensures { result ≡ reported_after reported failed }
{
    if failed && reported < MAX_FAULTS_REPORTED {
        return reported + 1;
    }
    reported
}
