//! A clearing check: lines of transaction certificates, compared with the records of the journals.
ghost use Rattle.std.specs.Prelude.{◌≡◌, ℕ, List, [], IfOk, length};
ghost use Rattle.issuer_setup.specs.IssuerSetup.{Setup};
ghost use Rattle.line_serving.specs.Clearing.{IsNew};
ghost use Rattle.desk_host.specs.Configuration.{HasSoundParts};
ghost use Rattle.desk_host.specs.SeenStores.{journals_seen};
ghost use Rattle.line_serving.specs.Loaded.{AreLoadedFrom};
ghost use Rattle.issuer_top.specs.Clearing.{FilesBooks, ways_to_clear};
ghost use Rattle.issuer_top.specs.Opening.{SaysIssuer};
ghost use Rattle.issuer_top.specs.ReadAgain.{FailOnlyAt, StayLoaded, none_fails, stop_of_reading};
ghost use Rattle.issuer_top.specs.Seen.{IsSameDesk, seen_by};
ghost use Rattle.issuer_top.specs.Ways.{Ends};

use crate::ended::Ended;
use crate::opening::{open_issuer, stop_of};
use crate::run::Run;
use crate::stopping::end_serving;
use answer_text::Stop;
use clearing_check::Book;
use command_line::ClearWords;
use desk_host::Journals;
use issuer_base::{Desk, NoMemory, Sink};
use issuer_setup::Issuer;
use journal_reader::{FilingFault, NotFiled, RecordReader, file_journals};
use line_serving::{Judge, load_journals};
use std::alloc::Global;

/// What it takes to check clearing lines: a reader for the records of the journals, the book of those that are decided,
/// and a judge for the lines.
#[derive(Drop)]
struct Check {
    reader: RecordReader,
    book: Book,
    judge: Judge,
}

impl Check {
    /// All the memory that a clearing check takes beside its records.
    fn new(alloc: Global, issuer: &Issuer) -> Result<Check, NoMemory>
        ensures { IfOk result (λ check. (check.book ≡ []) × IsNew check.judge) }
    {
        Ok(Check {
            reader: RecordReader::new(alloc)?,
            book: Book::new(alloc, issuer)?,
            judge: Judge::new(alloc)?,
        })
    }
}

impl<D: Desk> Run<D> {
    /// Reads the configuration, and checks the lines of the clearing file against the journals.
    pub fn clear<W: Sink>(mut self, names: ClearWords<'_>, out: &mut W) -> Ended<D>
        ensures { let seen = seen_by D.Desk D.Input.Source D.Journal.Store W.Sink self.desk result out.old out.new in
            Ends (ways_to_clear names.entry.config.now names.entry.clearing.now names.entry.journal.now seen)
            result.status seen }
    {
        match open_issuer(self.alloc, &mut self.desk, names.config) {
            Ok((issuer, config)) => self.load_to_clear(issuer, config, names, out),
            Err(none) => self.not_opened(none, out),
        }
    }

    /// Loads the journals, and checks the lines of the clearing file against them.
    fn load_to_clear<W: Sink>(
        mut self,
        mut issuer: Issuer,
        config: D::Input,
        names: ClearWords<'_>,
        out: &mut W,
    ) -> Ended<D>
        requires { HasSoundParts issuer }
        ensures { (given : D)
            → let seen = seen_by D.Desk D.Input.Source D.Journal.Store W.Sink given result out.old out.new in
            SaysIssuer seen names.entry.config.now issuer
            → IsSameDesk D.Desk given self.desk → D.logs self.desk ≡ D.logs given
            → Ends (ways_to_clear names.entry.config.now names.entry.clearing.now names.entry.journal.now seen)
            result.status seen }
    {
        let alloc = self.alloc;
        issuer.keep_all();
        match load_journals(alloc, &mut self.desk, names.journal, &issuer) {
            Ok(journals) => self.file_records(issuer, journals, config, names.clearing, out),
            Err(none) => self.not_loaded(none, config, out),
        }
    }

    /// Reads the loaded journals again, since their rows don't have all records, and checks the lines of the clearing
    /// file under this name against their records.
    fn file_records<W: Sink>(
        self,
        issuer: Issuer,
        journals: Journals<D::Journal>,
        config: D::Input,
        name: &str,
        out: &mut W,
    ) -> Ended<D>
        requires { length journals.stores.items ≡ issuer.shards }
        ensures { (given : D) (config_name journal : List ℕ)
            → let seen = seen_by D.Desk D.Input.Source D.Journal.Store W.Sink given result out.old out.new in
            SaysIssuer seen config_name issuer
            → AreLoadedFrom issuer journal (D.logs given)
            (journals_seen D.Journal.Store journals.olds.items journals.stores.items)
            → IsSameDesk D.Desk given self.desk
            → Ends (ways_to_clear config_name name.now journal seen) result.status seen }
    {
        let Journals { olds, mut stores } = journals;
        let mut check = match Check::new(self.alloc, &issuer) {
            Ok(check) => check,
            Err(NoMemory) => {
                return self.stop(Stop::NoMemory, Some(config), Journals { olds, stores }, out);
            }
        };
        match file_journals(&issuer, &mut stores, &mut check.reader, &mut check.book) {
            Ok(()) => {
                self.check_lines(check, issuer, Journals { olds, stores }, config, name, out)
            }
            Err(none) => {
                let stop = stop_of_filing(none);
                self.stop(stop, Some(config), Journals { olds, stores }, out)
            }
        }
    }

    /// Checks the lines of the clearing file under this name against the records that were filed.
    fn check_lines<W: Sink>(
        mut self,
        mut check: Check,
        issuer: Issuer,
        journals: Journals<D::Journal>,
        config: D::Input,
        name: &str,
        out: &mut W,
    ) -> Ended<D>
        requires { IsNew check.judge }
        ensures { (given : D) (config_name journal : List ℕ)
            → let seen = seen_by D.Desk D.Input.Source D.Journal.Store W.Sink given result out.old out.new in
            SaysIssuer seen config_name issuer
            → (stay : StayLoaded issuer journal (D.logs given)
            (journals_seen D.Journal.Store journals.olds.items journals.stores.items))
            → FailOnlyAt (journals_seen D.Journal.Store journals.olds.items journals.stores.items).stores none_fails
            → FilesBooks issuer (journals_seen D.Journal.Store journals.olds.items journals.stores.items) stay.first
            check.book
            → IsSameDesk D.Desk given self.desk
            → Ends (ways_to_clear config_name name.now journal seen) result.status seen }
    {
        let mut clearing = match self.desk.read(name) {
            Ok(clearing) => clearing,
            Err(fault) => return self.stop(stop_of(fault), Some(config), journals, out),
        };
        let served = check
            .judge
            .clear(&issuer, &mut check.book, &mut clearing, out);
        let ending = end_serving(served, out);
        self.ended(ending, Some(config), Some(clearing), journals)
    }
}

/// How a run stops whose journals weren't filed.
fn stop_of_filing(none: NotFiled) -> Stop
    ensures { result ≡ stop_of_reading none.fault none.shard }
{
    let NotFiled { fault, shard } = none;
    match fault {
        FilingFault::StoreFault => Stop::StoreFault { shard },
        FilingFault::BadLine(line) => Stop::BadJournal { shard, line },
        FilingFault::NoMemory => Stop::NoMemory,
    }
}
