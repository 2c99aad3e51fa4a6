//! A text of records that is appended to: a record is durable in the store before it counts.
ghost use Rattle.std.specs.Prelude.{◌≡◌, ◌⊎◌, ◌+◌, ◌^◌, ◌<◌, ◌≤◌, ℕ, List, [], ◌++◌, length, false, IsErr, IsOkAnd, MatchResult, OnOk, is_err, true};
ghost use Rattle.issuer_base.specs.OutsideFaults.{CountsFaults};
ghost use Rattle.issuer_base.specs.Stores.{BothTold, HasRoom, LeavesOnly, Passes};
ghost use Rattle.journal_store.specs.Images.{HasSafeText, IsEitherImage};

use crate::settling::settle;
use issuer_base::{Store, StoreFail};

/// The text of a shard's records in a store.
///
/// A record that a call couldn't make durable is in doubt: some prefix of it, or all, may follow the text. It is
/// truncated before the next record is written.
pub struct Journal<S: Store> {
    store: S,

    /// How many bytes of the store are durable and acknowledged: those of the text.
    sure: u64,

    /// How many records the text has.
    records: u64,

    /// Whether the store may hold more than the text.
    in_doubt: bool,
    ghost within: { sure ≤ S.size store },
    ghost exact: { in_doubt ≡ false → S.size store ≡ sure },
    ghost few: { records ≤ sure },
    ghost fits: { sure < 2 ^ 64 },
}

impl<S: Store> Journal<S> {
    ghost use Rattle.journal_store.specs.Holding.{Holds};
    ghost use Rattle.journal_store.specs.Opening.{IsNotOpened, IsOpened};

    /// The journal of a store whose first `sure` bytes are the text of so many records. The store is truncated to them,
    /// and they are made durable. If the store fails it is returned.
    pub fn open(store: S, sure: u64, records: u64) -> Result<Journal<S>, S>
        requires within { sure ≤ S.size store }
        requires few { records ≤ sure }
        ensures opened { MatchResult result (IsOpened store sure records)
            (IsNotOpened S.bytes S.disk S.faults store sure) }
        ensures room { (spare : ℕ) → HasRoom spare (S.size store) (S.room store)
            → IsOkAnd result (λ journal. HasRoom spare (S.size journal.store) (S.room journal.store)) }
    {
        let mut store = store;
        if settle(&mut store, sure).is_err() {
            return Err(store);
        }
        Ok(Journal {
            store,
            sure,
            records,
            in_doubt: false,
        })
    }

    /// How many records the text has.
    pub fn records(&self) -> u64
        ensures { result ≡ self.now.records }
    {
        self.records
    }

    /// The store, with the text and, after it, what may be in doubt.
    pub fn into_store(self) -> S
        ensures { result ≡ self.store }
    {
        let Journal {
            store,
            sure: _,
            records: _,
            in_doubt: _,
        } = self;
        store
    }

    /// Appends a record and makes it durable, and returns its index. A record that is in doubt is truncated first.
    pub fn put(&mut self, piece: &[u8]) -> Result<u64, StoreFail>
        requires { 0 < length piece.now }
        ensures put { (count : ℕ) (text tail : List ℕ) → Holds self.old count text tail
            → MatchResult result (λ place. (place ≡ count) × Holds self.new (count + 1) (text ++ piece.now) [])
            (λ _. Holds self.new count text tail ⊎ Holds self.new count text piece.now) }
        ensures settled { OnOk result (self.new.in_doubt ≡ false) }

        // A crash since the start of the call leaves the text and a prefix of what was in doubt, or of the record.
        ensures crash { (count : ℕ) (text tail : List ℕ) → Holds self.old count text tail
            → BothTold (LeavesOnly (IsEitherImage text tail piece.now)) (S.disk self.old.store)
            (S.disk self.new.store) }

        // With room for the record and so much more the store doesn't fail, and the room for the more is left.
        ensures room { (spare : ℕ) → HasRoom (length piece.now + spare) (S.size self.old.store) (S.room self.old.store)
            → IsOkAnd result (λ _. HasRoom spare (S.size self.new.store) (S.room self.new.store)) }
        ensures count { CountsFaults (S.faults self.old.store) (S.faults self.new.store) (is_err result) }
    {
        self.clear()?;
        self.write(piece)
    }

    /// Cuts away what is in doubt.
    fn clear(&mut self) -> Result<(), StoreFail>
        ensures cleared { OnOk result (self.new.in_doubt ≡ false) }
        ensures holds { (count : ℕ) (text tail : List ℕ) → Holds self.old count text tail
            → OnOk result (Holds self.new count text []) }
        ensures failed { (count : ℕ) (text tail : List ℕ) → Holds self.old count text tail → IsErr result
            → Holds self.new count text tail }
        ensures passes { (count : ℕ) (text tail : List ℕ) → Holds self.old count text tail
            → BothTold (Passes (HasSafeText text tail)) (S.disk self.old.store) (S.disk self.new.store) }
        ensures room { (spare : ℕ) → HasRoom spare (S.size self.old.store) (S.room self.old.store)
            → IsOkAnd result (λ _. HasRoom spare (S.size self.new.store) (S.room self.new.store)) }
        ensures count { CountsFaults (S.faults self.old.store) (S.faults self.new.store) (is_err result) }
    {
        if !self.in_doubt {
            return Ok(());
        }
        self.store.cut(self.sure)?;
        self.in_doubt = false;
        Ok(())
    }

    /// Appends a record, where nothing is in doubt.
    fn write(&mut self, piece: &[u8]) -> Result<u64, StoreFail>
        requires some { 0 < length piece.now }
        requires cleared { self.old.in_doubt ≡ false }
        ensures put { (count : ℕ) (text : List ℕ) → Holds self.old count text []
            → MatchResult result (λ place. (place ≡ count) × Holds self.new (count + 1) (text ++ piece.now) [])
            (λ _. Holds self.new count text piece.now) }
        ensures settled { OnOk result (self.new.in_doubt ≡ false) }
        ensures passes { (count : ℕ) (text : List ℕ) → Holds self.old count text []
            → BothTold (Passes (HasSafeText text piece.now)) (S.disk self.old.store) (S.disk self.new.store) }
        ensures room { (spare : ℕ) → HasRoom (length piece.now + spare) (S.size self.old.store) (S.room self.old.store)
            → IsOkAnd result (λ _. HasRoom spare (S.size self.new.store) (S.room self.new.store)) }
        ensures count { CountsFaults (S.faults self.old.store) (S.faults self.new.store) (is_err result) }
    {
        self.in_doubt = true;
        self.store.append(piece)?;
        self.store.sync()?;
        self.in_doubt = false;
        let place = self.records;
        self.records = place + 1;
        self.sure += piece.len() as u64;
        Ok(place)
    }
}
