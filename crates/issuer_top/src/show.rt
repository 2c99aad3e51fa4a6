//! All cards of the journals, shown.
ghost use Rattle.std.specs.Prelude.{◌≡◌, ◌<◌, ℕ, List};
ghost use Rattle.issuer_setup.specs.IssuerSetup.{Setup};
ghost use Rattle.desk_host.specs.Configuration.{HasSoundParts};
ghost use Rattle.desk_host.specs.Journals.{IsReadySolo};
ghost use Rattle.issuer_top.specs.Opening.{SaysIssuer};
ghost use Rattle.issuer_top.specs.Seen.{IsSameDesk, seen_by};
ghost use Rattle.issuer_top.specs.Showing.{ways_to_show};
ghost use Rattle.issuer_top.specs.Ways.{Ends};

use crate::ended::Ended;
use crate::ending::end_writing;
use crate::opening::open_issuer;
use crate::run::Run;
use command_line::ShowWords;
use desk_host::{Journals, Loaded, load_alone, show};
use issuer_base::{Desk, Sink};
use issuer_setup::Issuer;
use one_caller::Solo;

impl<D: Desk> Run<D> {
    /// Reads the configuration, loads the journals, and shows all cards.
    pub fn show<W: Sink>(mut self, names: ShowWords<'_>, out: &mut W) -> Ended<D>
        ensures { let seen = seen_by D.Desk D.Input.Source D.Journal.Store W.Sink self.desk result out.old out.new in
            Ends (ways_to_show names.entry.config.now names.entry.journal.now seen) result.status seen }
    {
        match open_issuer(self.alloc, &mut self.desk, names.config) {
            Ok((issuer, config)) => self.show_issuer(issuer, config, names.journal, out),
            Err(none) => self.not_opened(none, out),
        }
    }

    /// Loads the journals of an issuer, and shows all cards.
    fn show_issuer<W: Sink>(
        mut self,
        issuer: Issuer,
        config: D::Input,
        journal: &str,
        out: &mut W,
    ) -> Ended<D>
        ensures { (given : D) (name : List ℕ)
            → let seen = seen_by D.Desk D.Input.Source D.Journal.Store W.Sink given result out.old out.new in
            SaysIssuer seen name issuer
            → HasSoundParts issuer → IsSameDesk D.Desk given self.desk → D.logs self.desk ≡ D.logs given
            → Ends (ways_to_show name journal.now seen) result.status seen }
    {
        match load_alone(self.alloc, &mut self.desk, journal, issuer) {
            Ok(loaded) => self.show_cards(loaded, config, out),
            Err(none) => self.not_loaded(none, config, out),
        }
    }

    /// Shows all cards of the host.
    fn show_cards<W: Sink>(
        self,
        loaded: Loaded<Solo<D::Journal>, D::Journal>,
        config: D::Input,
        out: &mut W,
    ) -> Ended<D>
        requires { 0 < loaded.host.issuer.shards }
        ensures { (given : D) (name journal : List ℕ) (issuer : Setup)
            → let seen = seen_by D.Desk D.Input.Source D.Journal.Store W.Sink given result out.old out.new in
            SaysIssuer seen name issuer
            → IsReadySolo issuer journal (D.logs given) loaded.olds.items loaded.host → HasSoundParts issuer
            → D.faults self.desk ≡ D.faults given → Ends (ways_to_show name journal seen) result.status seen }
    {
        let Loaded { host, olds } = loaded;
        let ending = end_writing(show(&host, out));
        let stores = host.close();
        self.ended(ending, Some(config), None, Journals { olds, stores })
    }
}
