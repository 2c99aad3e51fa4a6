//! What a partition does while it serves: it publishes what its host recorded, and sends the replies whose records count.
ghost use Rattle.std.specs.Prelude.{◌≡◌, ◌+◌, ◌<◌, ◌++◌, length, max, replicate, ⊤, IsOk, MatchResult, List};
ghost use Rattle.bridge_rule.specs.declared.limits.TheConstants.{LOGS};
ghost use Rattle.bridge_rule.specs.Bridges.{IsServing, log_at, with_held};
ghost use Rattle.bridge_turns.specs.Publishing.{batch_of, all_added};
ghost use Rattle.bridge_turns.specs.Partitions.{outcome_of, found, found_from, news, all_known, left, gone, reply_acts, all_reply_acts};
ghost use Rattle.bridge_turns.specs.Turns.{publishes, releases, last_of, lasts};
ghost use Rattle.bridge_lines.specs.Acts.{Act};
ghost use Rattle.bridge_turns.specs.Saying.{IsOutcome, IsBatch};

use crate::partition::Partition;
use crate::publisher::Publisher;
use crate::speaker::Speaker;
use bridge_lines::{Action, Why};
use bridge_rule::{Bridge, Held, LOGS, Place};

impl Partition {
    /// The records that weren't published are published.
    pub(crate) fn publish<S: Speaker>(&mut self, speaker: &mut S)
        ensures { (start : S) (said : List Act) → S.says start speaker.old said
            → IsOutcome self.new (S.says start speaker.new) (publishes (outcome_of self.old said)) }
    {
        self.publisher.begin(&self.bridge.served_name());
        publish_logs(&self.bridge, &self.published, &mut self.publisher, speaker);
        self.publisher.close(speaker);
        mark_published(&self.bridge, &mut self.published);
    }

    /// Nothing counts as published.
    pub(crate) fn forget_published(&mut self)
        ensures { self.new ≡ record self.old { published = replicate (length self.old.published) 0 } }
    {
        clear(&mut self.published);
    }

    /// The replies whose records count are sent.
    pub(crate) fn release<S: Speaker>(&mut self, speaker: &mut S)
        requires { IsServing self.old.bridge.role }
        ensures { (start : S) (said : List Act) → S.says start speaker.old said
            → IsOutcome self.new (S.says start speaker.new) (releases (outcome_of self.old said)) }
    {
        release_all(&mut self.bridge, speaker);
    }

    /// What a host that begins may stand on has to count before it answers.
    pub(crate) fn hold_lasts(&mut self) -> Result<(), Why>
        requires { IsServing self.old.bridge.role }
        ensures held { IsOk result → self.new
            ≡ record self.old { bridge = with_held self.old.bridge (self.old.bridge.held ++ lasts self.old.bridge.logs) } }
        ensures refused { MatchResult result (λ _. ⊤) (λ why. (why ≡ Why.NoRoom)
            × (self.old.bridge.room < length self.old.bridge.held + length (lasts self.old.bridge.logs))) }
    {
        hold_lasts(&mut self.bridge)
    }
}

/// Sets each number to 0.
fn clear(numbers: &mut [u64])
    ensures { numbers.new ≡ replicate (length numbers.old) 0 }
{
    for number in numbers.iter_mut() {
        *number = 0;
    }
}

/// The replies whose records count are sent.
fn release_all<S: Speaker>(bridge: &mut Bridge, speaker: &mut S)
    requires { IsServing bridge.old.role }
    ensures bridge { bridge.new ≡ with_held bridge.old (left bridge.old.logs bridge.old.held) }
    ensures said { (start : S) (said : List Act) → S.says start speaker.old said
        → S.says start speaker.new (said ++ all_reply_acts (gone bridge.old.logs bridge.old.held)) }
{
    while let Some(held) = bridge.release() {
        say_reply(held, speaker);
    }
}

/// The reply of what waited is sent, if it is one.
fn say_reply<S: Speaker>(held: Held, speaker: &mut S)
    ensures { (start : S) (said : List Act) → S.says start speaker.old said
        → S.says start speaker.new (said ++ reply_acts held.reply) }
{
    if let Some(number) = held.reply {
        speaker.say(&Action::Reply(number));
    }
}

/// What a host that begins may stand on has to count before it answers.
fn hold_lasts(bridge: &mut Bridge) -> Result<(), Why>
    requires { IsServing bridge.old.role }
    ensures held { IsOk result → bridge.new ≡ with_held bridge.old (bridge.old.held ++ lasts bridge.old.logs) }
    ensures refused { MatchResult result (λ _. ⊤) (λ why. (why ≡ Why.NoRoom)
        × (bridge.old.room < length bridge.old.held + length (lasts bridge.old.logs))) }
{
    for shard in 0..LOGS as u8 {
        if let Err(why) = hold_last(bridge, shard) {
            return Err(why);
        }
    }
    Ok(())
}

/// The last record of a journal beyond those that count has to count, if there is one.
fn hold_last(bridge: &mut Bridge, shard: u8) -> Result<(), Why>
    requires role { IsServing bridge.old.role }
    requires shard { shard < LOGS }
    ensures held { IsOk result → bridge.new ≡ with_held bridge.old (bridge.old.held ++ last_of bridge.old.logs shard) }
    ensures refused { MatchResult result (λ _. ⊤) (λ why. (why ≡ Why.NoRoom)
        × (bridge.old.room < length bridge.old.held + length (last_of bridge.old.logs shard))) }
{
    let known = bridge.known_count(shard);
    if known == bridge.count(shard) {
        return Ok(());
    }
    let place = Place {
        shard,
        index: known - 1,
    };
    let held = Held {
        reply: None,
        place: Some(place),
    };
    match bridge.hold(held) {
        Ok(()) => Ok(()),
        Err(_full) => Err(Why::NoRoom),
    }
}

/// The records of all logs that weren't published go into messages.
fn publish_logs<S: Speaker>(
    bridge: &Bridge,
    published: &[u64],
    publisher: &mut Publisher,
    speaker: &mut S,
)
    requires { length published.now ≡ LOGS }
    ensures { (start : S) (said : List Act) → S.says start speaker.old said
        → IsBatch publisher.new (S.says start speaker.new) (all_added (batch_of publisher.old said) (news bridge.now.logs published.now)) }
{
    for shard in 0..LOGS as u8 {
        let from = greater(published[usize::from(shard)], bridge.count(shard));
        publish_log(bridge, shard, from, publisher, speaker);
    }
}

/// The greater of two numbers.
fn greater(one: u64, other: u64) -> u64
    ensures { result ≡ max one other }
{
    if one < other { other } else { one }
}

/// The records that a log knows from this index on go into messages.
fn publish_log<S: Speaker>(
    bridge: &Bridge,
    shard: u8,
    from: u64,
    publisher: &mut Publisher,
    speaker: &mut S,
)
    requires { shard < LOGS }
    ensures { (start : S) (said : List Act) → S.says start speaker.old said
        → IsBatch publisher.new (S.says start speaker.new) (all_added (batch_of publisher.old said) (found_from (log_at bridge.now.logs shard) shard from)) }
{
    for index in from..bridge.known_count(shard) {
        publish_one(bridge, shard, index, publisher, speaker);
    }
}

/// This record goes into a message, if the log knows it.
fn publish_one<S: Speaker>(
    bridge: &Bridge,
    shard: u8,
    index: u64,
    publisher: &mut Publisher,
    speaker: &mut S,
)
    requires { shard < LOGS }
    ensures { (start : S) (said : List Act) → S.says start speaker.old said
        → IsBatch publisher.new (S.says start speaker.new) (all_added (batch_of publisher.old said) (found (log_at bridge.now.logs shard) shard index)) }
{
    if let Some(text) = bridge.known(shard, index) {
        publisher.add(shard, index, text, speaker);
    }
}

/// All that is known was published.
fn mark_published(bridge: &Bridge, published: &mut [u64])
    requires { length published.old ≡ LOGS }
    ensures { published.new ≡ all_known bridge.now.logs }
{
    for shard in 0..LOGS as u8 {
        published[usize::from(shard)] = bridge.known_count(shard);
    }
}
