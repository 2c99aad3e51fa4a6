//! An export: the records of the journals, as the lines of a feed.
ghost use Rattle.std.specs.Prelude.{◌≡◌, ℕ, List, length};
ghost use Rattle.issuer_setup.specs.IssuerSetup.{Setup};
ghost use Rattle.desk_host.specs.Configuration.{HasSoundParts};
ghost use Rattle.desk_host.specs.SeenStores.{journals_seen};
ghost use Rattle.journal_reader.specs.Filing.{fault_of};
ghost use Rattle.line_serving.specs.Loaded.{AreLoadedFrom};
ghost use Rattle.issuer_top.specs.Exporting.{ways_to_export};
ghost use Rattle.issuer_top.specs.Opening.{SaysIssuer};
ghost use Rattle.issuer_top.specs.ReadAgain.{stop_of_reading};
ghost use Rattle.issuer_top.specs.Seen.{IsSameDesk, seen_by};
ghost use Rattle.issuer_top.specs.Stopping.{EndsExporting};
ghost use Rattle.issuer_top.specs.Ways.{Ends};

use crate::ended::Ended;
use crate::ending::Ending;
use crate::opening::open_issuer;
use crate::run::Run;
use crate::stopping::stop_with;
use answer_text::Stop;
use command_line::ExportWords;
use desk_host::Journals;
use issuer_base::{Desk, NoMemory, Sink};
use issuer_setup::Issuer;
use journal_reader::{ExportFault, Exporter, RecordFault};
use line_serving::load_journals;

impl<D: Desk> Run<D> {
    /// Reads the configuration, and writes the feed of the journals.
    pub fn export<W: Sink>(mut self, names: ExportWords<'_>, out: &mut W) -> Ended<D>
        ensures { let seen = seen_by D.Desk D.Input.Source D.Journal.Store W.Sink self.desk result out.old out.new in
            Ends (ways_to_export names.entry.config.now names.entry.journal.now seen) result.status seen }
    {
        match open_issuer(self.alloc, &mut self.desk, names.config) {
            Ok((issuer, config)) => self.load_to_export(issuer, config, names, out),
            Err(none) => self.not_opened(none, out),
        }
    }

    /// Loads the journals, and writes their feed.
    fn load_to_export<W: Sink>(
        mut self,
        mut issuer: Issuer,
        config: D::Input,
        names: ExportWords<'_>,
        out: &mut W,
    ) -> Ended<D>
        requires { HasSoundParts issuer }
        ensures { (given : D)
            → let seen = seen_by D.Desk D.Input.Source D.Journal.Store W.Sink given result out.old out.new in
            SaysIssuer seen names.entry.config.now issuer
            → IsSameDesk D.Desk given self.desk → D.logs self.desk ≡ D.logs given
            → Ends (ways_to_export names.entry.config.now names.entry.journal.now seen) result.status seen }
    {
        let alloc = self.alloc;
        issuer.keep_all();
        match load_journals(alloc, &mut self.desk, names.journal, &issuer) {
            Ok(journals) => self.write_feed(issuer, journals, config, out),
            Err(none) => self.not_loaded(none, config, out),
        }
    }

    /// Reads the loaded journals again, since their rows don't have all records, and writes the feed of their records.
    fn write_feed<W: Sink>(
        self,
        issuer: Issuer,
        journals: Journals<D::Journal>,
        config: D::Input,
        out: &mut W,
    ) -> Ended<D>
        requires { length journals.stores.items ≡ issuer.shards }
        ensures { (given : D) (name journal : List ℕ)
            → let seen = seen_by D.Desk D.Input.Source D.Journal.Store W.Sink given result out.old out.new in
            SaysIssuer seen name issuer
            → AreLoadedFrom issuer journal (D.logs given)
            (journals_seen D.Journal.Store journals.olds.items journals.stores.items)
            → IsSameDesk D.Desk given self.desk → Ends (ways_to_export name journal seen) result.status seen }
    {
        let Journals { olds, mut stores } = journals;
        let mut exporter = match Exporter::new(self.alloc) {
            Ok(exporter) => exporter,
            Err(NoMemory) => {
                return self.stop(Stop::NoMemory, Some(config), Journals { olds, stores }, out);
            }
        };
        let exported = exporter.export(&issuer, &mut stores, out);
        let ending = end_exporting(exported, out);
        self.ended(ending, Some(config), None, Journals { olds, stores })
    }
}

/// Writes the last line where a journal couldn't be read on, and says how the run ends.
fn end_exporting<W: Sink>(exported: Result<(), ExportFault>, out: &mut W) -> Ending
    ensures { EndsExporting (W.held out.old) (W.held out.new) (W.faults out.old) (W.faults out.new) exported result }
{
    match exported {
        Ok(()) => Ending::Done,
        Err(ExportFault::WriteFault) => Ending::WriteFault,
        Err(ExportFault::Unread { fault, shard }) => stop_with(stop_of_reading(fault, shard), out),
    }
}

/// How a run stops that couldn't read on in this shard's journal.
fn stop_of_reading(fault: RecordFault, shard: u8) -> Stop
    ensures { result ≡ stop_of_reading (fault_of fault) shard }
{
    match fault {
        RecordFault::StoreFault => Stop::StoreFault { shard },
        RecordFault::BadLine(line) => Stop::BadJournal { shard, line },
    }
}
