//! A run: what it gives back, and how it stops.
ghost use Rattle.std.specs.Prelude.{◌≡◌, ℕ, List, None, Some};
ghost use Rattle.std.specs.Option.{option_map};
ghost use Rattle.desk_host.specs.Loading.{stop_of_load};
ghost use Rattle.issuer_top.specs.Opening.{OpensNoIssuer};
ghost use Rattle.issuer_top.specs.Refusing.{ways_to_refuse};
ghost use Rattle.issuer_top.specs.Seen.{desk_seen, input_seen, seen_by};
ghost use Rattle.issuer_top.specs.Status.{status_of};
ghost use Rattle.issuer_top.specs.Stopping.{GivesStop};
ghost use Rattle.issuer_top.specs.Stops.{ways_to_give_no_issuer};
ghost use Rattle.issuer_top.specs.Ways.{Ends};

use crate::ended::Ended;
use crate::ending::{Ending, status_of};
use crate::opening::NotOpened;
use crate::stopping::stop_with;
use answer_text::Stop;
use desk_host::{Journals, NoHost, stop_of_load};
use issuer_base::{Desk, Sink};
use std::alloc::Global;

/// What a run works with: memory, and the desk.
pub struct Run<D> {
    /// Where its memory comes from.
    pub alloc: Global,
    /// The desk.
    pub desk: D,
}

impl<D: Desk> Run<D> {
    /// What the run gives back where it ended so and opened this.
    pub fn ended(
        self,
        ending: Ending,
        config: Option<D::Input>,
        requests: Option<D::Input>,
        journals: Journals<D::Journal>,
    ) -> Ended<D>
        ensures { result ≡ record {
          status = status_of ending;
          desk = self.desk;
          config = config;
          requests = requests;
          olds = journals.olds;
          stores = journals.stores;
        } }
    {
        let Run { alloc: _, desk } = self;
        let Journals { olds, stores } = journals;
        Ended {
            status: status_of(ending),
            desk,
            config,
            requests,
            olds,
            stores,
        }
    }

    /// Stops the run before its request file is opened: writes the last line, and gives back what was opened.
    pub fn stop<W: Sink>(
        self,
        stop: Stop,
        config: Option<D::Input>,
        journals: Journals<D::Journal>,
        out: &mut W,
    ) -> Ended<D>
        ensures { (ending : Ending)
            × GivesStop (W.held out.old) (W.held out.new) (W.faults out.old) (W.faults out.new) stop ending
            × (result ≡ record {
              status = status_of ending;
              desk = self.desk;
              config = config;
              requests = None;
              olds = journals.olds;
              stores = journals.stores;
            }) }
    {
        let ending = stop_with(stop, out);
        self.ended(ending, config, None, journals)
    }

    /// Stops the run whose journals gave no host.
    pub fn not_loaded<W: Sink>(
        self,
        none: NoHost<D::Journal>,
        config: D::Input,
        out: &mut W,
    ) -> Ended<D>
        ensures { (ending : Ending)
            × GivesStop (W.held out.old) (W.held out.new) (W.faults out.old) (W.faults out.new)
            (stop_of_load none.fault none.shard) ending
            × (result ≡ record {
              status = status_of ending;
              desk = self.desk;
              config = Some config;
              requests = None;
              olds = none.journals.olds;
              stores = none.journals.stores;
            }) }
    {
        let NoHost {
            fault,
            shard,
            journals,
        } = none;
        self.stop(stop_of_load(fault, shard), Some(config), journals, out)
    }

    /// Stops the run whose configuration gave no issuer.
    pub fn not_opened<W: Sink>(self, none: NotOpened<D::Input>, out: &mut W) -> Ended<D>
        ensures { (given : D) (name : List ℕ)
            → let seen = seen_by D.Desk D.Input.Source D.Journal.Store W.Sink given result out.old out.new in
            OpensNoIssuer (desk_seen D.Desk given self.desk) name
            (option_map (input_seen D.Input.Source) none.config) none.cause
            → Ends (ways_to_give_no_issuer name seen) result.status seen }
    {
        let NotOpened { cause, config } = none;
        let journals = Journals::none(self.alloc);
        self.stop(cause, config, journals, out)
    }

    /// Stops the run whose words are no command.
    pub fn refuse<W: Sink>(self, out: &mut W) -> Ended<D>
        ensures { let seen = seen_by D.Desk D.Input.Source D.Journal.Store W.Sink self.desk result out.old out.new in
            Ends (ways_to_refuse seen) result.status seen }
    {
        let journals = Journals::none(self.alloc);
        self.stop(Stop::Usage, None, journals, out)
    }
}
