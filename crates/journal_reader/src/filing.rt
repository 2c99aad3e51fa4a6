//! Files the decided records of journals, one journal after another.
ghost use Rattle.std.specs.Prelude.{◌≡◌, ◌+◌, ◌^◌, ◌<◌, List, [], ◌++◌, length, IfErr, OnOk, OnErr, true, false};
ghost use Rattle.issuer_base.specs.OutsideFaults.{CountsFaults};
ghost use Rattle.issuer_base.specs.declared.entry.Entry.{Entry};
ghost use Rattle.issuer_base.specs.CardNames.{named};
ghost use Rattle.issuer_setup.specs.CardList.{number_of};
ghost use Rattle.shard_book.specs.Loads.{IsOnlyRead};
ghost use Rattle.host_loading.specs.Loading.{AreOnlyRead};
ghost use Rattle.clearing_check.specs.Verdicts.{filed_of};
ghost use Rattle.journal_reader.specs.Filing.{AreBefore, CountAt, FilesAll, FilesBefore, FilesJournal, HoldsHistory, IsRefused};
ghost use Rattle.journal_reader.specs.Filing.{StopsFiling};
ghost use Rattle.journal_reader.specs.Filing.{IsSpared, fault_of, fits, is_at_home, is_bad, is_store_fault, fails_at};

use crate::reader::{RecordFault, RecordReader};
use clearing_check::Book;
use issuer_base::{Entry, NoMemory, Pan, Store};
use issuer_setup::Issuer;

/// Why the records of a journal can't be filed.
#[derive(Clone, Copy, PartialEq, Eq, Debug)]
pub enum FilingFault {
    /// The store failed.
    StoreFault,

    /// This whole line, counted from 1, isn't `v2` if it is the first; or it is that of no record, of one of no card of
    /// the shard, or of one on an ATC that is decided already. The store no longer has the journal that was loaded.
    BadLine(u64),

    /// Memory ran out.
    NoMemory,
}

/// The first journal whose records can't be filed, and why.
#[derive(Clone, Copy)]
pub struct NotFiled {
    /// Why not.
    pub fault: FilingFault,

    /// The number of its shard, from 0.
    pub shard: u8,
}

/// Files the decided records of all journals of an issuer in an empty book, by shard and index. The stores are only
/// read, with the reader's buffer.
pub fn file_journals<S: Store>(
    issuer: &Issuer,
    stores: &mut Vec<S>,
    reader: &mut RecordReader,
    book: &mut Book,
) -> Result<(), NotFiled>
    requires count { length stores.old.items ≡ issuer.now.shards }
    requires empty { book.old ≡ [] }
    ensures filed { OnOk result (FilesAll S.bytes issuer.now stores.old.items book.new) }

    // Where not all are filed, the first ones are, up to the record that can't be.
    ensures stopped { IfErr result (λ none. FilesBefore S.bytes issuer.now stores.old.items none book.new) }

    // A store whose bytes are known to be the text of a legal history has no bad line.
    ensures exact { IfErr result (λ none. none.shard < issuer.now.shards
        × IsSpared S.bytes issuer.now stores.old.items none.shard none.fault) }
    ensures only_read { AreOnlyRead S.size S.bytes S.disk S.room stores.old.items stores.new.items }
    ensures count { CountAt S.faults stores.old.items stores.new.items (fails_at result) }
{
    for shard in 0..issuer.shards() {
        let store = &mut stores[usize::from(shard)];
        match file_journal(issuer, shard, store, reader, book) {
            Ok(()) => {}
            Err(fault) => return Err(NotFiled { fault, shard }),
        }
    }
    Ok(())
}

/// Files the decided records of a shard's journal.
fn file_journal<S: Store>(
    issuer: &Issuer,
    shard: u8,
    store: &mut S,
    reader: &mut RecordReader,
    book: &mut Book,
) -> Result<(), FilingFault>
    ensures filed { OnOk result (FilesJournal issuer.now shard (S.bytes store.old) book.old book.new) }
    ensures stopped { IfErr result (StopsFiling issuer.now shard (S.bytes store.old) book.old book.new) }
    ensures before { OnOk result (AreBefore issuer.now shard book.old → AreBefore issuer.now (shard + 1) book.new) }
    ensures exact { (history : List Entry) → HoldsHistory issuer.now shard (S.bytes store.old) history
        → AreBefore issuer.now shard book.old → IfErr result (λ fault. is_bad fault ≡ false) }
    ensures only_read { IsOnlyRead S.size S.bytes S.disk S.room store.old store.new }
    ensures count { CountsFaults (S.faults store.old) (S.faults store.new) (is_store_fault result) }
{
    match reader.begin(store) {
        Ok(()) => {}
        Err(fault) => return Err(fault_of(fault)),
    }
    let mut place = 0;
    'records: loop {
        match reader.next_record(store) {
            Ok(Some(entry)) => match file_record(issuer, shard, place, &entry, book) {
                Ok(()) => place += 1,
                Err(fault) => return Err(fault),
            },
            Ok(None) => return Ok(()),
            Err(fault) => return Err(fault_of(fault)),
        }
    }
}

/// Files the record at this index of the shard's journal, if it is decided.
fn file_record(
    issuer: &Issuer,
    shard: u8,
    place: u64,
    entry: &Entry,
    book: &mut Book,
) -> Result<(), FilingFault>
    requires { place + 2 < 2 ^ 64 }
    ensures filed { OnOk result (book.new ≡ book.old ++ filed_of issuer.now shard place entry.now) }
    ensures fit { OnOk result (fits issuer.now shard book.old entry.now ≡ true) }
    ensures refused { IfErr result (IsRefused place (fits issuer.now shard book.old entry.now)) }
    ensures kept { OnErr result (book.new ≡ book.old) }
{
    if !fits(issuer, shard, entry, book) {
        return Err(FilingFault::BadLine(place + 2));
    }
    match book.add(issuer, shard, place, entry) {
        Ok(()) => Ok(()),
        Err(NoMemory) => Err(FilingFault::NoMemory),
    }
}

/// Whether the record may follow those that are filed: its card is one of the shard's, and if it is decided, no filed
/// record is on its ATC.
fn fits(issuer: &Issuer, shard: u8, entry: &Entry, book: &Book) -> bool
    ensures { result ≡ fits issuer.now shard book.now entry.now }
{
    match entry {
        Entry::Decided { request, .. } => {
            let parts = request.parts();
            match issuer.card(&parts.pan, parts.psn) {
                Some(card) => issuer.shard_of(card) == shard && !book.has(card, parts.atc),
                None => false,
            }
        }
        Entry::Queued { pan, psn, .. } | Entry::Status { pan, psn, .. } => {
            is_of_shard(issuer, shard, pan, *psn)
        }
    }
}

/// Whether the account and sequence number are those of a card of the shard.
fn is_of_shard(issuer: &Issuer, shard: u8, pan: &Pan, psn: u8) -> bool
    ensures { result ≡ is_at_home issuer.now shard (number_of (named pan.now psn) issuer.now.cards) }
{
    match issuer.card(pan, psn) {
        Some(card) => issuer.shard_of(card) == shard,
        None => false,
    }
}

/// The reader's fault, as one of filing.
fn fault_of(fault: RecordFault) -> FilingFault
    ensures { result ≡ fault_of fault }
{
    match fault {
        RecordFault::StoreFault => FilingFault::StoreFault,
        RecordFault::BadLine(line) => FilingFault::BadLine(line),
    }
}
