//! What a partition does where it reads a message of the stream.
ghost use Rattle.std.specs.Prelude.{◌≡◌, ◌<◌, ◌≤◌, ◌++◌, length, map, ⊤, IsOk, IsErr, MatchResult, List};
ghost use Rattle.bridge_rule.specs.declared.limits.TheConstants.{LOGS, INDEX_END};
ghost use Rattle.bridge_rule.specs.Bridges.{IsTold, ArePlaced, indexed, with_logs, logs_read, steps_read};
ghost use Rattle.bridge_turns.specs.Laws.{AcceptsMessage, AcceptsRecords};
ghost use Rattle.bridge_turns.specs.Refusals.{IsUnlike, Refuses};
ghost use Rattle.bridge_lines.specs.declared.limits.TheConstants.{MAX_RECORDS};
ghost use Rattle.bridge_turns.specs.Partitions.{outcome_of, step_acts, all_step_acts, count_acts, all_count_acts, all_counts};
ghost use Rattle.bridge_turns.specs.Turns.{reads, reads_opening, reads_records, takes_records, reads_mark, turn_acts};
ghost use Rattle.bridge_lines.specs.News.{IsMessageWithin};
ghost use Rattle.bridge_lines.specs.Acts.{Act};
ghost use Rattle.bridge_turns.specs.Saying.{IsOutcome};

use crate::link::Link;
use crate::partition::Partition;
use crate::speaker::Speaker;
use bridge_lines::{Action, Counted, Cut, Event, Message, Records, Why};
use bridge_rule::{Bridge, LOGS, Name, Opening, Placed, Step, Turn, is_same_name};

impl Partition {
    /// Reads the stream's next message.
    pub(crate) fn read<S: Speaker>(&mut self, message: &Message, speaker: &mut S) -> Result<(), Why>
        requires { IsMessageWithin message.now }
        ensures turn { IsOk result → (start : S) (said : List Act) → S.says start speaker.old said
            → IsOutcome self.new (S.says start speaker.new) (reads message.now (outcome_of self.old said)) }
        ensures accepts { IsOk result → IsTold self.old.bridge.role × AcceptsMessage self.old.bridge message.now }
        ensures silent { IsErr result → (start : S) (said : List Act) → S.says start speaker.old said → S.says start speaker.new said }
        ensures refused { MatchResult result (λ _. ⊤) (λ why. Refuses self.old (Event.Message message.now) why) }
    {
        if !self.bridge.is_told() {
            return Err(Why::OutOfTurn);
        }
        match message {
            Message::Opening(opening) => self.read_opening(opening, speaker),
            Message::Records(records) => return self.read_records(records, speaker),
            Message::Mark(word) => self.read_mark(word, speaker),
            Message::Nothing => {}
        }
        Ok(())
    }

    /// Reads a barrier.
    fn read_opening<S: Speaker>(&mut self, opening: &Opening, speaker: &mut S)
        requires told { IsTold self.old.bridge.role }
        requires number { opening.now.number < INDEX_END }
        ensures { (start : S) (said : List Act) → S.says start speaker.old said
            → IsOutcome self.new (S.says start speaker.new) (reads_opening opening.now (outcome_of self.old said)) }
    {
        if !self.bridge.is_next(opening) {
            return;
        }
        let turn = self.bridge.read_barrier(opening);
        self.forget_published();
        speaker.say(&Action::Position(opening));
        say_turn(turn, speaker);
    }

    /// Reads records by a name.
    fn read_records<S: Speaker>(&mut self, message: &Records, speaker: &mut S) -> Result<(), Why>
        requires told { IsTold self.old.bridge.role }
        requires placed { ArePlaced message.now.records.items }
        requires few { length message.now.records.items ≤ MAX_RECORDS }
        ensures accepts { IsOk result → AcceptsRecords self.old.bridge message.now }
        ensures turn { IsOk result → (start : S) (said : List Act) → S.says start speaker.old said
            → IsOutcome self.new (S.says start speaker.new)
            (reads_records message.now.name.items (map indexed message.now.records.items) (outcome_of self.old said)) }
        ensures silent { IsErr result → (start : S) (said : List Act) → S.says start speaker.old said → S.says start speaker.new said }
        ensures refused { MatchResult result (λ _. ⊤) (λ why. (why ≡ Why.Diverged) × IsUnlike self.old.bridge message.now) }
    {
        self.take_records(message, speaker)?;
        if self.bridge.is_serving() {
            self.release(speaker);
        }
        Ok(())
    }

    /// Takes the records that count.
    fn take_records<S: Speaker>(&mut self, message: &Records, speaker: &mut S) -> Result<(), Why>
        requires told { IsTold self.old.bridge.role }
        requires placed { ArePlaced message.now.records.items }
        requires few { length message.now.records.items ≤ MAX_RECORDS }
        ensures accepts { IsOk result → AcceptsRecords self.old.bridge message.now }
        ensures turn { IsOk result → (start : S) (said : List Act) → S.says start speaker.old said
            → IsOutcome self.new (S.says start speaker.new)
            (takes_records message.now.name.items (map indexed message.now.records.items) (outcome_of self.old said)) }
        ensures silent { IsErr result → (start : S) (said : List Act) → S.says start speaker.old said → S.says start speaker.new said }
        ensures refused { MatchResult result (λ _. ⊤) (λ why. (why ≡ Why.Diverged) × IsUnlike self.old.bridge message.now) }
    {
        copy_counts(&self.bridge, &mut self.counts);
        take_message(&mut self.bridge, message, &mut self.steps, speaker)?;
        say_counts(&self.counts, &self.bridge, speaker);
        Ok(())
    }

    /// Reads a mark.
    fn read_mark<S: Speaker>(&mut self, word: &Name, speaker: &mut S)
        ensures { (start : S) (said : List Act) → S.says start speaker.old said
            → IsOutcome self.new (S.says start speaker.new) (reads_mark self.old.link word.now.items (outcome_of self.old said)) }
    {
        match &self.link {
            Link::Away => return,
            Link::InLine => return,
            Link::Reading(own) => {
                if !is_same_name(own, word) {
                    return;
                }
            }
        }
        self.link = Link::InLine;
        speaker.say(&Action::Ready);
    }
}

/// The bridge takes the records that count.
fn take_message<S: Speaker>(
    bridge: &mut Bridge,
    message: &Records,
    steps: &mut [Step],
    speaker: &mut S,
) -> Result<(), Why>
    requires told { IsTold bridge.old.role }
    requires placed { ArePlaced message.now.records.items }
    requires room { length message.now.records.items ≤ length steps.old }
    ensures state { IsOk result → bridge.new ≡ with_logs bridge.old
        (logs_read bridge.old message.now.name.items (map indexed message.now.records.items)) }
    ensures said { IsOk result → (start : S) (said : List Act) → S.says start speaker.old said
        → S.says start speaker.new (said ++ all_step_acts
        (steps_read bridge.old message.now.name.items (map indexed message.now.records.items)) (map indexed message.now.records.items)) }
    ensures silent { IsErr result → (start : S) (said : List Act) → S.says start speaker.old said → S.says start speaker.new said }
    ensures answer { MatchResult result (λ _. AcceptsRecords bridge.old message.now)
        (λ why. (why ≡ Why.Diverged) × IsUnlike bridge.old message.now) }
{
    let count = message.records.len();
    take_by_steps(bridge, message, &mut steps[..count], speaker)
}

/// The bridge takes the records that count, with a step for each.
fn take_by_steps<S: Speaker>(
    bridge: &mut Bridge,
    message: &Records,
    steps: &mut [Step],
    speaker: &mut S,
) -> Result<(), Why>
    requires told { IsTold bridge.old.role }
    requires placed { ArePlaced message.now.records.items }
    requires room { length steps.old ≡ length message.now.records.items }
    ensures state { IsOk result → bridge.new ≡ with_logs bridge.old
        (logs_read bridge.old message.now.name.items (map indexed message.now.records.items)) }
    ensures said { IsOk result → (start : S) (said : List Act) → S.says start speaker.old said
        → S.says start speaker.new (said ++ all_step_acts
        (steps_read bridge.old message.now.name.items (map indexed message.now.records.items)) (map indexed message.now.records.items)) }
    ensures silent { IsErr result → (start : S) (said : List Act) → S.says start speaker.old said → S.says start speaker.new said }
    ensures answer { MatchResult result (λ _. AcceptsRecords bridge.old message.now)
        (λ why. (why ≡ Why.Diverged) × IsUnlike bridge.old message.now) }
{
    if bridge
        .read_records(&message.name, &message.records, steps)
        .is_err()
    {
        return Err(Why::Diverged);
    }
    say_steps(steps, &message.records, speaker);
    Ok(())
}

/// What a barrier that counts makes of the bridge.
fn say_turn<S: Speaker>(turn: Turn, speaker: &mut S)
    ensures { (start : S) (said : List Act) → S.says start speaker.old said
        → S.says start speaker.new (said ++ turn_acts turn) }
{
    match turn {
        Turn::Nothing => {}
        Turn::Starts => speaker.say(&Action::Begin),
        Turn::Ends => speaker.say(&Action::End),
        Turn::Yields => speaker.say(&Action::Ready),
    }
}

/// What becomes of the journals.
fn say_steps<S: Speaker>(steps: &[Step], records: &[Placed], speaker: &mut S)
    requires { length steps.now ≡ length records.now }
    ensures { (start : S) (said : List Act) → S.says start speaker.old said
        → S.says start speaker.new (said ++ all_step_acts steps.now (map indexed records.now)) }
{
    for i in 0..records.len() {
        say_step(steps[i], &records[i], speaker);
    }
}

/// What becomes of a journal at a record.
fn say_step<S: Speaker>(step: Step, one: &Placed, speaker: &mut S)
    ensures { (start : S) (said : List Act) → S.says start speaker.old said
        → S.says start speaker.new (said ++ step_acts step (indexed one.now)) }
{
    match step {
        Step::Skips => {}
        Step::Stays => {}
        Step::Puts => speaker.say(&Action::Put(one)),
        Step::Replaces => {
            let cut = Cut {
                shard: one.shard,
                length: one.index,
            };
            speaker.say(&Action::Cut(cut));
            speaker.say(&Action::Put(one));
        }
    }
}

/// How many records of each shard count.
fn copy_counts(bridge: &Bridge, counts: &mut [u64])
    requires { length counts.old ≡ LOGS }
    ensures { counts.new ≡ all_counts bridge.now.logs }
{
    for shard in 0..LOGS as u8 {
        counts[usize::from(shard)] = bridge.count(shard);
    }
}

/// How many records count now, of the shards of which more do.
fn say_counts<S: Speaker>(counts: &[u64], bridge: &Bridge, speaker: &mut S)
    requires { length counts.now ≡ LOGS }
    ensures { (start : S) (said : List Act) → S.says start speaker.old said
        → S.says start speaker.new (said ++ all_count_acts counts.now bridge.now.logs) }
{
    for shard in 0..LOGS as u8 {
        say_count(counts[usize::from(shard)], bridge, shard, speaker);
    }
}

/// How many records of this shard count now, if it isn't as many as before.
fn say_count<S: Speaker>(before: u64, bridge: &Bridge, shard: u8, speaker: &mut S)
    requires { shard < LOGS }
    ensures { (start : S) (said : List Act) → S.says start speaker.old said
        → S.says start speaker.new (said ++ count_acts before bridge.now.logs shard) }
{
    let number = bridge.count(shard);
    if number != before {
        speaker.say(&Action::Count(Counted { shard, number }));
    }
}
