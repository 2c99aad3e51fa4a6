//! The turns of a partition, one at each event.
ghost use Rattle.std.specs.Prelude.{◌≡◌, ◌<◌, [], length, ⊤, IsOk, IsErr, MatchResult, List};
ghost use Rattle.bridge_rule.specs.declared.limits.TheConstants.{LOGS};
ghost use Rattle.bridge_rule.specs.Logs.{known_of};
ghost use Rattle.bridge_rule.specs.Bridges.{indexed, log_at, IsLearning, IsServing, WaitsForKnown};
ghost use Rattle.bridge_turns.specs.Partitions.{outcome_of};
ghost use Rattle.bridge_turns.specs.Laws.{Accepts};
ghost use Rattle.bridge_turns.specs.Refusals.{Refuses};
ghost use Rattle.bridge_turns.specs.Turns.{turned, parts, has, told, connected, lost, called, loaded, ended, answered, again_by};
ghost use Rattle.bridge_lines.specs.News.{IsWithin};
ghost use Rattle.bridge_lines.specs.Acts.{Act};
ghost use Rattle.bridge_turns.specs.Saying.{IsOutcome};

use crate::link::Link;
use crate::partition::Partition;
use crate::speaker::Speaker;
use bridge_lines::{Action, Answered, Event, Message, Why};
use bridge_rule::{Held, Name, Placed, copied};

impl Partition {
    /// Takes what happened, and says what is to be done, in this order.
    ///
    /// An event that isn't taken has nothing said, and the partition isn't used any more.
    pub fn take<S: Speaker>(&mut self, event: &Event, speaker: &mut S) -> Result<(), Why>
        requires { IsWithin event.now }
        ensures accepts { IsOk result → Accepts self.old event.now }
        ensures turn { IsOk result → (start : S) (said : List Act) → S.says start speaker.old said
            → IsOutcome self.new (S.says start speaker.new) (turned event.now (outcome_of self.old said)) }
        ensures silent { IsErr result → (start : S) (said : List Act) → S.says start speaker.old said → S.says start speaker.new said }
        ensures refused { MatchResult result (λ _. ⊤) (λ why. Refuses self.old event.now why) }
    {
        match event {
            Event::Has(one) => return self.has(one),
            Event::Told => self.told(speaker),
            Event::Connected(name) => self.connected(name, speaker),
            Event::Lost => self.lost(speaker),
            Event::Called(name) => self.called(name, speaker),
            Event::Message(message) => return self.read(message, speaker),
            Event::Loaded => return self.loaded(speaker),
            Event::Ended => self.ended(),
            Event::Answered(answer) => return self.answered(*answer, speaker),
            Event::Again => self.again(speaker),
        }
        Ok(())
    }

    /// The host is killed, if there is one, and the bridge follows.
    fn part<S: Speaker>(&mut self, speaker: &mut S)
        ensures { (start : S) (said : List Act) → S.says start speaker.old said
            → IsOutcome self.new (S.says start speaker.new) (parts (outcome_of self.old said)) }
    {
        if self.bridge.is_serving() {
            speaker.say(&Action::End);
        }
        self.bridge.part();
    }

    /// The journals have this record: the next one of its shard that the bridge doesn't know.
    fn has(&mut self, one: &Placed) -> Result<(), Why>
        requires { one.now.shard < LOGS }
        ensures accepts { IsOk result → IsLearning self.old.bridge.role × (one.now.shard < length self.old.bridge.logs)
            × (one.now.index ≡ known_of (log_at self.old.bridge.logs one.now.shard)) }
        ensures state { IsOk result → self.new ≡ (has (indexed one.now) (outcome_of self.old [])).state }
        ensures refused { MatchResult result (λ _. ⊤) (λ why. Refuses self.old (Event.Has one.now) why) }
    {
        if !self.bridge.is_learning() || one.index != self.bridge.known_count(one.shard) {
            return Err(Why::OutOfTurn);
        }
        match self.bridge.learn(one.shard, &one.text) {
            Ok(()) => Ok(()),
            Err(_full) => Err(Why::NoRoom),
        }
    }

    /// The bridge knows what the journals have.
    fn told<S: Speaker>(&mut self, speaker: &mut S)
        ensures { (start : S) (said : List Act) → S.says start speaker.old said
            → IsOutcome self.new (S.says start speaker.new) (told (outcome_of self.old said)) }
    {
        if self.bridge.is_serving() {
            self.publish(speaker);
            return;
        }
        if self.bridge.is_told() {
            return;
        }
        self.bridge.told();
        if matches!(&self.link, Link::InLine) {
            speaker.say(&Action::Ready);
        }
    }

    /// The stream can be read and written.
    fn connected<S: Speaker>(&mut self, name: &Name, speaker: &mut S)
        ensures { (start : S) (said : List Act) → S.says start speaker.old said
            → IsOutcome self.new (S.says start speaker.new) (connected name.now (outcome_of self.old said)) }
    {
        self.part(speaker);
        self.link = Link::Reading(copied(name));
        speaker.say(&Action::Publish(&Message::Mark(copied(name))));
    }

    /// The connection is lost.
    fn lost<S: Speaker>(&mut self, speaker: &mut S)
        ensures { (start : S) (said : List Act) → S.says start speaker.old said
            → IsOutcome self.new (S.says start speaker.new) (lost (outcome_of self.old said)) }
    {
        self.part(speaker);
        self.link = Link::Away;
    }

    /// The queue delivers here.
    fn called<S: Speaker>(&mut self, name: &Name, speaker: &mut S)
        ensures { (start : S) (said : List Act) → S.says start speaker.old said
            → IsOutcome self.new (S.says start speaker.new) (called name.now.items (outcome_of self.old said)) }
    {
        let in_line = matches!(&self.link, Link::InLine);
        if !in_line || !self.bridge.is_following() {
            return;
        }
        let opening = self.bridge.call(name);
        speaker.say(&Action::Publish(&Message::Opening(opening)));
    }

    /// The host has loaded the journals.
    fn loaded<S: Speaker>(&mut self, speaker: &mut S) -> Result<(), Why>
        ensures turn { IsOk result → (start : S) (said : List Act) → S.says start speaker.old said
            → IsOutcome self.new (S.says start speaker.new) (loaded (outcome_of self.old said)) }
        ensures silent { IsErr result → (start : S) (said : List Act) → S.says start speaker.old said → S.says start speaker.new said }
        ensures refused { MatchResult result (λ _. ⊤) (λ why. Refuses self.old Event.Loaded why) }
    {
        if !self.bridge.is_serving() {
            return Ok(());
        }
        self.hold_lasts()?;
        self.forget_published();
        self.publish(speaker);
        Ok(())
    }

    /// The host has ended by itself.
    fn ended(&mut self)
        ensures { self.new ≡ (ended (outcome_of self.old [])).state }
    {
        if self.bridge.is_serving() {
            self.bridge.host_ended();
        }
    }

    /// The host has answered.
    fn answered<S: Speaker>(&mut self, answer: Answered, speaker: &mut S) -> Result<(), Why>
        ensures accepts { IsOk result → IsServing self.old.bridge.role → WaitsForKnown self.old.bridge.logs answer.place }
        ensures turn { IsOk result → (start : S) (said : List Act) → S.says start speaker.old said
            → IsOutcome self.new (S.says start speaker.new) (answered answer (outcome_of self.old said)) }
        ensures silent { IsErr result → (start : S) (said : List Act) → S.says start speaker.old said → S.says start speaker.new said }
        ensures refused { MatchResult result (λ _. ⊤) (λ why. Refuses self.old (Event.Answered answer) why) }
    {
        if !self.bridge.is_serving() {
            return Ok(());
        }
        if !self.bridge.knows(answer.place) {
            return Err(Why::OutOfTurn);
        }
        let held = Held {
            reply: Some(answer.number),
            place: answer.place,
        };
        if self.bridge.hold(held).is_err() {
            return Err(Why::NoRoom);
        }
        self.release(speaker);
        Ok(())
    }

    /// What didn't come back is written again.
    fn again<S: Speaker>(&mut self, speaker: &mut S)
        ensures { (start : S) (said : List Act) → S.says start speaker.old said
            → IsOutcome self.new (S.says start speaker.new) (again_by self.old.link (outcome_of self.old said)) }
    {
        if let Link::Reading(name) = &self.link {
            speaker.say(&Action::Publish(&Message::Mark(copied(name))));
            return;
        }
        if self.bridge.is_serving() {
            self.forget_published();
            self.publish(speaker);
            return;
        }
        if let Some(own) = self.bridge.waited_for() {
            speaker.say(&Action::Publish(&Message::Opening(own)));
        }
    }
}
