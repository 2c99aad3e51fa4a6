//! What a bridge does beside reading: it takes over, learns of its journals, answers, and parts.
ghost use Rattle.std.specs.Prelude.{◌≡◌, ◌↔◌, ◌+◌, ◌<◌, ◌≤◌, ℕ, length, true, false, IsTrue, IsOk, IsSome, IfSome, Some, None, slice_get, slice_set, [], ◌∷◌, ◌++◌, drop, option_map};
ghost use Rattle.one_history.specs.Machines.{World, Knows, count_at};
ghost use Rattle.one_history.specs.Events.{Call, Part, CanCall, next};
ghost use Rattle.bridge_rule.specs.declared.limits.TheConstants.{LOGS};
ghost use Rattle.bridge_rule.specs.Openings.{barrier_of};
ghost use Rattle.bridge_rule.specs.Logs.{with_known, known_at, text_of, known_of};
ghost use Rattle.bridge_rule.specs.Bridges.{StandsIn, IsTold, IsServing, IsLearning, IsFollowing, WaitsForKnown, log_at, place_counts, with_role, with_held, with_logs, parted_role, released, told_bridge, learned};
ghost use Rattle.bridge_rule.specs.Events.{KnowsAll, IsNextKnown, DoesLearn, DoesHold, DoesReply, DoesEnd};

use crate::bridge::Bridge;
use crate::held::{Held, Place};
use crate::opening::{Name, Opening, Text, copied};
use crate::role::Role;

/// There is no room for one more record, or for one more answer.
#[derive(Drop)]
pub struct Full;

impl Bridge {
    /// The bridge was told all of its journals: it may read messages.
    pub fn told(&mut self)
        ensures role { IsTold self.new.role }
        ensures state { self.new ≡ told_bridge self.old }
        ensures event { (world : World) → StandsIn self.old world → KnowsAll self.old world → StandsIn self.new world }
    {
        if matches!(&self.role, Role::Untold) {
            self.role = Role::Following;
        }
    }

    /// The next record of a journal: of a host that records, or of journals that the bridge is told.
    pub fn learn(&mut self, shard: u8, text: &Text) -> Result<(), Full>
        requires shard { shard < LOGS }
        requires role { IsLearning self.old.role }
        ensures room { IsOk result ↔ (length (log_at self.old.logs shard).beyond < (log_at self.old.logs shard).room) }
        ensures within { shard < length self.old.logs }
        ensures state { IsOk result → self.new ≡ learned self.old shard text.now.items }
        ensures event { IsOk result → (world : World) → StandsIn self.old world
            → IsNextKnown self.old world shard text.now.items → DoesLearn self.old.role self.new world shard }
    {
        if self.learn_next(shard, text) {
            Ok(())
        } else {
            Err(Full)
        }
    }

    /// The record with this index, if the bridge knows it beyond those that count: it is published.
    pub fn known(&self, shard: u8, index: u64) -> Option<&Text>
        requires shard { shard < LOGS }
        ensures text { option_map text_of result ≡ known_at (log_at self.now.logs shard) index }
        ensures knows { IfSome result (λ text. (world : World) → StandsIn self.now world → IsServing self.now.role
            → Knows (world.machines self.now.machine) (record { shard = shard; index = index; text = text.now.items })) }
    {
        self.text_at(shard, index)
    }

    /// The queue delivers here from now on: the bridge makes a barrier of this name, and waits until that counts.
    pub fn call(&mut self, name: &Name) -> Opening
        requires role { IsFollowing self.old.role }
        ensures barrier { barrier_of result
            ≡ record { number = self.old.last.number + 1; name = name.now.items; machine = self.old.machine } }
        ensures state { self.new ≡ with_role self.old (Role.Beginning result) }
        ensures event { (world : World) → StandsIn self.old world → CanCall world name.now.items
            → StandsIn self.new (next world (Call self.old.machine (self.old.last.number + 1) name.now.items)) }
    {
        let opening = Opening {
            number: self.last.number + 1,
            name: copied(name),
            machine: copied(&self.machine),
        };
        self.role = Role::Beginning(opening.copy());
        self.held.clear();
        opening
    }

    /// Whether the record at this place counts.
    pub fn has(&self, place: Place) -> bool
        ensures counts { IsTrue result ↔ (place.index < (log_at self.now.logs place.shard).count) }
        ensures read { (world : World) → StandsIn self.now world → IsTrue result ↔ (place.index
            < length ((count_at world (world.machines self.now.machine).read).histories place.shard)) }
    {
        match self.logs.get(usize::from(place.shard)) {
            None => false,
            Some(log) => place.index < log.count(),
        }
    }

    /// Whether the bridge knows the record at this place, if there is one, so that an answer may wait for it.
    pub fn knows(&self, place: Option<Place>) -> bool
        ensures { IsTrue result ↔ WaitsForKnown self.now.logs place }
    {
        match place {
            None => true,
            Some(place) => self.knows_at(place),
        }
    }

    /// Whether the bridge knows the record at this place.
    fn knows_at(&self, place: Place) -> bool
        ensures { IsTrue result ↔ (place.index < known_of (log_at self.now.logs place.shard)) }
    {
        match self.logs.get(usize::from(place.shard)) {
            None => false,
            Some(log) => place.index < log.known_count(),
        }
    }

    /// The host has answered: its reply waits behind all others until the record that it names counts.
    pub fn hold(&mut self, held: Held) -> Result<(), Full>
        requires role { IsServing self.old.role }
        requires known { WaitsForKnown self.old.logs held.place }
        ensures room { IsOk result ↔ (length self.old.held < self.old.room) }
        ensures state { IsOk result → self.new ≡ with_held self.old (self.old.held ++ held ∷ []) }
        ensures event { IsOk result → (world : World) → StandsIn self.old world
            → DoesHold self.new world held.reply held.place }
    {
        if self.hold_last(held) {
            Ok(())
        } else {
            Err(Full)
        }
    }

    /// The first that waits, if its record counts: its reply is sent.
    pub fn release(&mut self) -> Option<Held>
        requires role { IsServing self.old.role }
        ensures event { IfSome result (λ held. (world : World) → StandsIn self.old world
            → DoesReply self.new world held.reply held.place) }
        ensures first { result ≡ released self.old.logs self.old.held }
        ensures rest { IsSome result → self.new ≡ with_held self.old (drop 1 self.old.held) }
        ensures unchanged { result ≡ None → self.new ≡ self.old }
    {
        let first = self.first_held()?;
        if !self.may_go(first.place) {
            return None;
        }
        self.pop_first();
        Some(first)
    }

    /// The host has ended by itself: nobody waits any more, and another host begins.
    pub fn host_ended(&mut self)
        requires role { IsServing self.old.role }
        ensures state { self.new ≡ with_held self.old [] }
        ensures event { (world : World) (keep : ℕ → ℕ) → StandsIn self.old world
            → ((shard : ℕ) → (world.machines self.old.machine).known shard ≤ keep shard)
            → DoesEnd self.new world keep }
    {
        self.clear_held();
    }

    /// The connection is lost, or the partition is to stop: the bridge follows, and its host is killed if there is one.
    pub fn part(&mut self)
        ensures state { self.new ≡ with_role self.old (parted_role self.old.role) }
        ensures event { (world : World) → StandsIn self.old world → StandsIn self.new (next world (Part self.old.machine)) }
    {
        self.leave();
    }

    /// It neither serves nor waits for its barrier, and nobody waits.
    fn leave(&mut self)
        ensures { self.new ≡ with_role self.old (parted_role self.old.role) }
    {
        self.held.clear();
        match &self.role {
            Role::Untold => {}
            Role::Following => {}
            Role::Beginning(_) => self.role = Role::Following,
            Role::Serving(_) => self.role = Role::Untold,
        }
    }

    /// Nobody waits.
    fn clear_held(&mut self)
        ensures { self.new ≡ with_held self.old [] }
    {
        self.held.clear();
    }

    /// This waits behind all others, if there is room.
    fn hold_last(&mut self, held: Held) -> bool
        ensures room { IsTrue result ↔ (length self.old.held < self.old.room) }
        ensures held { result ≡ true → self.new ≡ with_held self.old (self.old.held ++ held ∷ []) }
    {
        self.held.try_push_back(held).is_ok()
    }

    /// The first that waits no longer waits.
    fn pop_first(&mut self)
        ensures { self.new ≡ with_held self.old (drop 1 self.old.held) }
    {
        let _first = self.held.pop_front();
    }

    /// One more record of a shard is known, if there is room.
    fn learn_next(&mut self, shard: u8, text: &Text) -> bool
        requires shard { shard < LOGS }
        ensures room { IsTrue result ↔ (length (log_at self.old.logs shard).beyond < (log_at self.old.logs shard).room) }
        ensures learned { result ≡ true → self.new ≡ with_logs self.old
            (slice_set self.old.logs shard (with_known (log_at self.old.logs shard) text.now.items)) }
        ensures within { shard < length self.old.logs }
    {
        self.logs[usize::from(shard)].learn(text)
    }

    /// The text with this index, if it is known beyond those that count.
    fn text_at(&self, shard: u8, index: u64) -> Option<&Text>
        requires shard { shard < LOGS }
        ensures { option_map text_of result ≡ known_at (log_at self.now.logs shard) index }
    {
        self.logs[usize::from(shard)].known(index)
    }

    /// The first that waits.
    fn first_held(&self) -> Option<Held>
        ensures { result ≡ slice_get self.now.held 0 }
    {
        match self.held.front() {
            None => None,
            Some(held) => Some(*held),
        }
    }

    /// Whether the record that has to count does.
    fn may_go(&self, place: Option<Place>) -> bool
        ensures { result ≡ place_counts self.now.logs place }
    {
        match place {
            None => true,
            Some(place) => self.has(place),
        }
    }
}
