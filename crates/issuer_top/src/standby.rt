//! A standby: the records of a feed, taken into journals.
ghost use Rattle.std.specs.Prelude.{◌≡◌, ◌≤◌, ℕ, List, [], length, vec_capacity};
ghost use Rattle.issuer_setup.specs.IssuerSetup.{Setup};
ghost use Rattle.desk_host.specs.Configuration.{HasSoundParts};
ghost use Rattle.desk_host.specs.Journals.{IsReady};
ghost use Rattle.host_loading.specs.Hosts.{AreShards};
ghost use Rattle.issuer_top.specs.Opening.{SaysIssuer};
ghost use Rattle.issuer_top.specs.Seen.{IsSameDesk, seen_by};
ghost use Rattle.issuer_top.specs.Standing.{ways_to_stand_by};
ghost use Rattle.issuer_top.specs.Stopping.{EndsFollowing};
ghost use Rattle.issuer_top.specs.Ways.{Ends};

use crate::ended::Ended;
use crate::ending::Ending;
use crate::opening::{open_issuer, stop_of};
use crate::run::Run;
use crate::stopping::stop_with;
use answer_text::Stop;
use command_line::StandbyWords;
use desk_host::Journals;
use host_loading::{Lists, take_stores};
use issuer_base::{Desk, NoMemory, Sink};
use issuer_setup::Issuer;
use line_serving::{Followed, Follower, LoadedShards, load_shards};
use standby_node::Standby;

impl<D: Desk> Run<D> {
    /// Reads the configuration, and takes the feed into the journals.
    pub fn stand_by<W: Sink>(mut self, names: StandbyWords<'_>, out: &mut W) -> Ended<D>
        ensures { let seen = seen_by D.Desk D.Input.Source D.Journal.Store W.Sink self.desk result out.old out.new in
            Ends (ways_to_stand_by names.entry.config.now names.entry.feed.now names.entry.journal.now seen)
            result.status seen }
    {
        match open_issuer(self.alloc, &mut self.desk, names.config) {
            Ok((issuer, config)) => self.load_standby(issuer, config, names, out),
            Err(none) => self.not_opened(none, out),
        }
    }

    /// Loads the journals, and takes the feed into them.
    fn load_standby<W: Sink>(
        mut self,
        mut issuer: Issuer,
        config: D::Input,
        names: StandbyWords<'_>,
        out: &mut W,
    ) -> Ended<D>
        requires { HasSoundParts issuer }
        ensures { (given : D)
            → let seen = seen_by D.Desk D.Input.Source D.Journal.Store W.Sink given result out.old out.new in
            SaysIssuer seen names.entry.config.now issuer
            → IsSameDesk D.Desk given self.desk → D.logs self.desk ≡ D.logs given
            → Ends (ways_to_stand_by names.entry.config.now names.entry.feed.now names.entry.journal.now seen)
            result.status seen }
    {
        let alloc = self.alloc;
        issuer.keep_all();
        match load_shards(alloc, &mut self.desk, names.journal, &issuer) {
            Ok(loaded) => self.follow_feed(issuer, loaded, config, names.feed, out),
            Err(none) => self.not_loaded(none, config, out),
        }
    }

    /// Takes the feed under this name into the journals of these shards.
    fn follow_feed<W: Sink>(
        mut self,
        issuer: Issuer,
        loaded: LoadedShards<D::Journal>,
        config: D::Input,
        name: &str,
        out: &mut W,
    ) -> Ended<D>
        requires sound { HasSoundParts issuer }
        requires shards { AreShards issuer loaded.lists.shards.items }
        requires back { (loaded.lists.back.items ≡ [])
            × (length loaded.lists.shards.items ≤ vec_capacity loaded.lists.back) }
        ensures { (given : D) (config_name journal : List ℕ)
            → let seen = seen_by D.Desk D.Input.Source D.Journal.Store W.Sink given result out.old out.new in
            SaysIssuer seen config_name issuer
            → IsReady issuer journal (D.logs given) loaded.olds.items loaded.lists.shards.items
            → IsSameDesk D.Desk given self.desk
            → Ends (ways_to_stand_by config_name name.now journal seen) result.status seen }
    {
        let LoadedShards {
            olds,
            lists: Lists { shards, back },
        } = loaded;
        let mut follower = match Follower::new(self.alloc) {
            Ok(follower) => follower,
            Err(NoMemory) => {
                let stores = take_stores(shards, back);
                return self.stop(Stop::NoMemory, Some(config), Journals { olds, stores }, out);
            }
        };
        let mut feed = match self.desk.read(name) {
            Ok(feed) => feed,
            Err(fault) => {
                let stores = take_stores(shards, back);
                return self.stop(stop_of(fault), Some(config), Journals { olds, stores }, out);
            }
        };
        let mut node = Standby::new(shards);
        let followed = follower.follow(&issuer, &mut node, &mut feed, out);
        let ending = end_following(followed, out);
        let stores = take_stores(node.promote(), back);
        self.ended(ending, Some(config), Some(feed), Journals { olds, stores })
    }
}

/// Writes the last line where a feed was taken only in part, and says how the run ends.
fn end_following<W: Sink>(followed: Followed, out: &mut W) -> Ending
    ensures { EndsFollowing (W.held out.old) (W.held out.new) (W.faults out.old) (W.faults out.new) followed result }
{
    match followed {
        Followed::All => Ending::Done,
        Followed::WriteFault => Ending::WriteFault,
        Followed::ReadFault => stop_with(Stop::ReadFault, out),
        Followed::TooLong { line } => stop_with(Stop::TooLong { line }, out),
        Followed::BadFeed { line } => stop_with(Stop::BadFeed { line }, out),
        Followed::StoreFault { shard } => stop_with(Stop::StoreFault { shard }, out),
    }
}
