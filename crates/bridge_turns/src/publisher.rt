//! Records that are published in messages.
ghost use Rattle.std.specs.Prelude.{◌≡◌, ◌<◌, ◌++◌, [], ◌∷◌, map, vec_capacity, IfOk, List};
ghost use Rattle.bridge_rule.specs.Bridges.{indexed};
ghost use Rattle.bridge_lines.specs.declared.limits.TheConstants.{NUMBER_END};
ghost use Rattle.bridge_lines.specs.Acts.{Act, PublishRecords};
ghost use Rattle.bridge_turns.specs.Publishing.{added, closed, batch_of, named, next_sequence};
ghost use Rattle.bridge_turns.specs.Saying.{IsBatch};

use crate::speaker::Speaker;
use bridge_lines::{Action, MAX_RECORDS, Message, NUMBER_END, Records};
use bridge_rule::{Name, Placed, Text, copied, copied_text};
use issuer_base::NoMemory;
use std::alloc::Global;
use std::marker::Model;

/// The message that is begun, and the number of the last one.
#[derive(Drop)]
pub struct Publisher {
    message: Records,
}

impl Model for Publisher {
    ghost use Rattle.std.specs.Prelude.{◌<◌, ◌≤◌, map, length, vec_capacity};
    ghost use Rattle.bridge_rule.specs.Bridges.{indexed};
    ghost use Rattle.bridge_lines.specs.declared.limits.TheConstants.{MAX_RECORDS, NUMBER_END};
    ghost use Rattle.bridge_turns.specs.Publishing.{Begun};

    ghost Value = { Begun };

    ghost view = { λ publisher. record {
      name = publisher.message.name.items;
      sequence = publisher.message.sequence;
      records = map indexed publisher.message.records.items;
    } };

    ghost invariant = { λ publisher. (MAX_RECORDS ≤ vec_capacity publisher.message.records)
        × (length publisher.message.records.items < MAX_RECORDS) × (publisher.message.sequence < NUMBER_END) };
}

impl Publisher {
    /// No message is begun, and there is room for one. No other call allocates.
    pub fn new(alloc: Global) -> Result<Publisher, NoMemory>
        ensures { IfOk result (λ publisher. publisher ≡ record { name = []; sequence = 0; records = [] }) }
    {
        let message = Records::new(alloc)?;
        Ok(Publisher { message })
    }

    /// Messages have this name from now on.
    pub fn begin(&mut self, name: &Name)
        ensures { self.new ≡ named self.old name.now.items }
    {
        self.message.name = copied(name);
    }

    /// One more record. A message that is full is published.
    pub fn add<S: Speaker>(&mut self, shard: u8, index: u64, text: &Text, speaker: &mut S)
        ensures { (start : S) (said : List Act) → S.says start speaker.old said
            → IsBatch self.new (S.says start speaker.new) (added (batch_of self.old said) (record { shard = shard; index = index; text = text.now.items })) }
    {
        self.message.records.push_reserved(Placed {
            shard,
            index,
            text: copied_text(text),
        });
        if self.message.records.len() == MAX_RECORDS {
            flush(&mut self.message, speaker);
        }
    }

    /// What is begun is published, if there is something.
    pub fn close<S: Speaker>(&mut self, speaker: &mut S)
        ensures { (start : S) (said : List Act) → S.says start speaker.old said
            → IsBatch self.new (S.says start speaker.new) (closed (batch_of self.old said)) }
    {
        if !self.message.records.is_empty() {
            flush(&mut self.message, speaker);
        }
    }
}

/// What is begun is published.
fn flush<S: Speaker>(message: &mut Records, speaker: &mut S)
    requires { message.old.sequence < NUMBER_END }
    ensures name { message.new.name ≡ message.old.name }
    ensures sequence { message.new.sequence ≡ next_sequence message.old.sequence }
    ensures records { message.new.records.items ≡ [] }
    ensures room { vec_capacity message.new.records ≡ vec_capacity message.old.records }
    ensures said { (start : S) (said : List Act) → S.says start speaker.old said
        → S.says start speaker.new (said ++ PublishRecords message.old.name.items
        (next_sequence message.old.sequence) (map indexed message.old.records.items) ∷ []) }
{
    message.sequence = (message.sequence + 1) % NUMBER_END;
    speaker.say(&Action::Publish(&Message::Records(message)));
    message.records.clear();
}
