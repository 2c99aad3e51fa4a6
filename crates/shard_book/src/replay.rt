//! Replays the records of a text, line by line.
ghost use Rattle.std.specs.Prelude.{◌≡◌, ◌≢◌, ◌+◌, ◌^◌, ◌<◌, ◌≤◌, List, length, drop, IfOk, IfErr, MatchResult, All, false};
ghost use Rattle.issuer_base.specs.declared.entry.Entry.{Entry};
ghost use Rattle.issuer_base.specs.declared.limits.TheConstants.{WINDOW};
ghost use Rattle.shard_book.specs.Loading.{IsWithin, StopsLines, TakesLines, is_store_failure};
ghost use Rattle.shard_book.specs.ReadAhead.{AreLookedUp, StopsWithin, TakesAll};
ghost use Rattle.journal_rec.specs.Record.{IsRecord};
ghost use Rattle.card_history.specs.LegalRecords.{IsLegalHistory};
ghost use Rattle.journal_rec.specs.RecordText.{IsUnbroken};
ghost use Rattle.shard_book.specs.Versions.{bad_line, bad_record, grounds_in, window_in};
ghost use Rattle.shard_book.specs.ShardRows.{AreRowsOf, AreSame, RowsStandFor};

use crate::ahead::Ahead;
use crate::newline::next_newline;
use crate::rows::Rows;
use issuer_base::{OLD_WINDOW, WINDOW};
use issuer_setup::Issuer;

/// Why a journal isn't loaded.
#[derive(Clone, Copy, PartialEq, Eq, Debug)]
pub enum LoadFault {
    /// The store or the old store failed: the fault lies with a store.
    StoreFault,

    /// This whole line of the old journal, counted from 1, is that of no record: the old journal isn't one that a host
    /// wrote.
    OldLine(u64),

    /// This whole line of the old journal, counted from 1, is that of a record which is no valid successor of those
    /// before it: the old journal is of another issuer, or was changed.
    OldRecord(u64),

    /// This line, counted from 1, is that of no record, or isn't that of the old journal: the journal isn't one that
    /// this host wrote after this old one.
    BadLine(u64),

    /// This whole line, counted from 1, is that of a record which is no valid successor of those before it: the journal
    /// is of another issuer, or was changed.
    BadRecord(u64),

    /// Memory ran out.
    NoMemory,
}

/// The version of a journal: whether its records are its whole text, and how far back their window reaches.
#[derive(Clone, Copy)]
pub enum Version {
    /// An old journal: its text is that of its records.
    One,

    /// A journal whose first line names its version.
    Two,
}

impl Version {
    /// How many ATCs the window of its records has.
    pub(crate) fn window(self) -> u16
        ensures window { result ≡ window_in self }
        ensures within { result ≤ WINDOW }
    {
        match self {
            Version::One => OLD_WINDOW,
            Version::Two => WINDOW,
        }
    }

    /// The fault of the line after so many records, if it is that of no record.
    pub(crate) fn bad_line(self, records: u64) -> LoadFault
        requires { records + 2 < 2 ^ 64 }
        ensures { result ≡ bad_line self records }
    {
        match self {
            Version::One => LoadFault::OldLine(records + 1),
            Version::Two => LoadFault::BadLine(records + 2),
        }
    }

    /// The fault of the line after so many records, if it is that of a record which is no valid successor.
    fn bad_record(self, records: u64) -> LoadFault
        requires { records + 2 < 2 ^ 64 }
        ensures { result ≡ bad_record self records }
    {
        match self {
            Version::One => LoadFault::OldRecord(records + 1),
            Version::Two => LoadFault::BadRecord(records + 2),
        }
    }
}

/// What was replayed of a store: the rows of its shard, and how many records and bytes they come from.
#[derive(Drop)]
pub(crate) struct TakenOver {
    pub(crate) rows: Rows,
    pub(crate) taken: Taken,
}

/// How many records were replayed from the beginning of a text, and how many bytes they have.
#[derive(Clone, Copy)]
pub(crate) struct Taken {
    pub(crate) records: u64,
    pub(crate) bytes: usize,
}

impl Rows {
    /// Replays the records of the whole lines of a part of a journal, the first of which has this index. It reads them
    /// ahead, up to 128 at a time; what was read ahead before doesn't matter.
    pub(crate) fn adopt_lines(
        &mut self,
        version: Version,
        issuer: &Issuer,
        text: &[u8],
        place: u64,
        ahead: &mut Ahead,
    ) -> Result<Taken, LoadFault>
        requires rows { AreRowsOf issuer.now self.old }
        requires room { place + place + length text.now < 2 ^ 64 }
        ensures taken { (history : List Entry) → RowsStandFor issuer.now self.old history → place ≡ length history
            → IsLegalHistory (grounds_in version issuer.now) self.old.shard history → MatchResult result
            (λ taken. TakesLines version issuer.now self.old.shard history text.now taken self.new)
            (StopsLines version issuer.now self.old.shard history text.now) }
        ensures rest { IfOk result (λ taken. IsUnbroken (drop taken.bytes text.now)) }
        ensures within { IfOk result (λ taken. IsWithin taken (length text.now)) }
        ensures own { IfErr result (λ fault. is_store_failure fault ≡ false) }
        ensures memory { IfErr result (λ fault. fault ≢ LoadFault.NoMemory) }
        ensures same { AreSame self.old self.new }
    {
        let mut taken = Taken {
            records: 0,
            bytes: 0,
        };
        'lines: while let Some(_) = next_newline(text, taken.bytes) {
            let end = ahead.read(issuer, text, taken.bytes);
            let records = ahead.len() as u64;
            if records == 0 {
                return Err(version.bad_line(place + taken.records));
            }
            match self.adopt_all(version, issuer, ahead, place + taken.records) {
                Ok(()) => {
                    taken.bytes = end;
                    taken.records += records;
                }
                Err(fault) => return Err(fault),
            }
        }
        Ok(taken)
    }

    /// Replays the records that were read ahead, the first of which has this index.
    fn adopt_all(
        &mut self,
        version: Version,
        issuer: &Issuer,
        ahead: &Ahead,
        place: u64,
    ) -> Result<(), LoadFault>
        requires rows { AreRowsOf issuer.now self.old }
        requires records { All IsRecord ahead.now.entries }
        requires found { AreLookedUp issuer.now ahead.now }
        requires room { place + length ahead.now.entries + 2 < 2 ^ 64 }
        ensures taken { (history : List Entry) → RowsStandFor issuer.now self.old history → place ≡ length history
            → IsLegalHistory (grounds_in version issuer.now) self.old.shard history → MatchResult result
            (λ _. TakesAll version issuer.now self.old.shard history ahead.now.entries self.new)
            (StopsWithin version issuer.now self.old.shard history ahead.now.entries) }
        ensures own { IfErr result (λ fault. is_store_failure fault ≡ false) }
        ensures memory { IfErr result (λ fault. fault ≢ LoadFault.NoMemory) }
        ensures same { AreSame self.old self.new }
    {
        for (i, entry) in ahead.entries().iter().enumerate() {
            let place = place + i as u64;
            let made = ahead.made(i);
            if !self.adopt(version, issuer, entry, ahead.found(i), made.as_ref(), place) {
                return Err(version.bad_record(place));
            }
        }
        Ok(())
    }
}
