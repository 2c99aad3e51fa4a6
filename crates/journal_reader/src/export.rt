//! The records of journals, read again one journal after another, and their feed lines, written in blocks.
ghost use Rattle.std.specs.Prelude.{◌≡◌, [], length, IfErr, IfOk, true, false};
ghost use Rattle.issuer_base.specs.OutsideFaults.{CountsFaults};
ghost use Rattle.shard_book.specs.Loads.{IsOnlyRead};
ghost use Rattle.host_loading.specs.Loading.{AreOnlyRead};
ghost use Rattle.journal_reader.specs.Filing.{CountAt};
ghost use Rattle.journal_reader.specs.Exporting.{Exports, ExportsJournal, IsSparedIn, IsSparedJournal, Puts};
ghost use Rattle.journal_reader.specs.Exporting.{fails_at, read_failed, write_failed};

use crate::block::Block;
use crate::reader::{RecordFault, RecordReader};
use issuer_base::{NoMemory, Sink, Store, WriteFault};
use issuer_setup::Issuer;
use std::alloc::Global;

/// Why not all records are exported.
#[derive(Clone, Copy)]
pub enum ExportFault {
    /// The sink failed.
    WriteFault,

    /// The journal of this shard can't be read on.
    Unread {
        /// Why not.
        fault: RecordFault,

        /// The number of the shard, from 0.
        shard: u8,
    },
}

/// What it takes to read journals again, and to write the feed lines of their records.
#[derive(Drop)]
pub struct Exporter {
    reader: RecordReader,
    block: Block,
}

impl Exporter {
    /// All the memory that an export takes.
    pub fn new(alloc: Global) -> Result<Self, NoMemory>
        ensures { IfOk result (λ exporter. exporter.block.text.items ≡ []) }
    {
        Ok(Exporter {
            reader: RecordReader::new(alloc)?,
            block: Block::new(alloc)?,
        })
    }

    /// Writes the feed lines of all records of an issuer's journals, by shard and index. The stores are only read.
    /// Where a journal can't be read on, it writes the lines of the records before.
    pub fn export<S: Store, W: Sink>(
        &mut self,
        issuer: &Issuer,
        stores: &mut Vec<S>,
        out: &mut W,
    ) -> Result<(), ExportFault>
        requires count { length stores.old.items ≡ issuer.now.shards }
        requires empty { self.old.block.text.items ≡ [] }
        ensures exported { Exports S.bytes stores.old.items (CountAt S.faults stores.old.items stores.new.items)
            (W.held out.old) (W.held out.new) result }

        // A store whose bytes are known to be the text of a legal history has no bad line.
        ensures exact { IfErr result (IsSparedIn S.bytes issuer.now stores.old.items) }
        ensures only_read { AreOnlyRead S.size S.bytes S.disk S.room stores.old.items stores.new.items }
        ensures store_count { write_failed result ≡ false
            → CountAt S.faults stores.old.items stores.new.items (fails_at result) }
        ensures sink_count { CountsFaults (W.faults out.old) (W.faults out.new) (write_failed result) }
    {
        let read = self.put_journals(issuer, stores, out);
        if is_write_fault(&read) {
            return read;
        }
        match self.block.write(out) {
            Ok(()) => read,
            Err(WriteFault) => Err(ExportFault::WriteFault),
        }
    }

    /// Puts the feed lines of all records into the block, which is written where it is full.
    fn put_journals<S: Store, W: Sink>(
        &mut self,
        issuer: &Issuer,
        stores: &mut Vec<S>,
        out: &mut W,
    ) -> Result<(), ExportFault>
        requires count { length stores.old.items ≡ issuer.now.shards }
        requires empty { self.old.block.text.items ≡ [] }
        ensures put { Puts S.bytes stores.old.items self.new.block.text.items (W.held out.old) (W.held out.new) result }
        ensures exact { IfErr result (IsSparedIn S.bytes issuer.now stores.old.items) }
        ensures only_read { AreOnlyRead S.size S.bytes S.disk S.room stores.old.items stores.new.items }
        ensures store_count { CountAt S.faults stores.old.items stores.new.items (fails_at result) }
        ensures sink_count { CountsFaults (W.faults out.old) (W.faults out.new) (write_failed result) }
    {
        for shard in 0..issuer.shards() {
            let store = &mut stores[usize::from(shard)];
            match self.put_journal(shard, store, out) {
                Ok(()) => {}
                Err(fault) => return Err(fault),
            }
        }
        Ok(())
    }

    /// Puts the feed lines of a shard's records into the block.
    fn put_journal<S: Store, W: Sink>(
        &mut self,
        shard: u8,
        store: &mut S,
        out: &mut W,
    ) -> Result<(), ExportFault>
        ensures put { ExportsJournal shard (S.bytes store.old) self.new.reader.records self.old.block.text.items
            self.new.block.text.items (W.held out.old) (W.held out.new) result }
        ensures exact { IfErr result (IsSparedJournal (S.bytes store.old) shard) }
        ensures only_read { IsOnlyRead S.size S.bytes S.disk S.room store.old store.new }
        ensures store_count { CountsFaults (S.faults store.old) (S.faults store.new) (read_failed result) }
        ensures sink_count { CountsFaults (W.faults out.old) (W.faults out.new) (write_failed result) }
    {
        match self.reader.begin(store) {
            Ok(()) => {}
            Err(fault) => return Err(ExportFault::Unread { fault, shard }),
        }
        let mut place = 0;
        'records: loop {
            match self.reader.next_record(store) {
                Ok(Some(entry)) => match self.block.put_record(shard, place, &entry, out) {
                    Ok(()) => place += 1,
                    Err(WriteFault) => return Err(ExportFault::WriteFault),
                },
                Ok(None) => return Ok(()),
                Err(fault) => return Err(ExportFault::Unread { fault, shard }),
            }
        }
    }
}

/// Whether the sink failed.
fn is_write_fault(read: &Result<(), ExportFault>) -> bool
    ensures { result ≡ write_failed read.now }
{
    match read {
        Ok(()) => false,
        Err(ExportFault::WriteFault) => true,
        Err(ExportFault::Unread { .. }) => false,
    }
}
