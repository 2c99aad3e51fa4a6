//! One log: how many of a shard's records count, and the records that the bridge knows beyond them.
ghost use Rattle.std.specs.Prelude.{◌≡◌, ◌<◌, ◌≤◌, ◌↔◌, ◌+◌, length, map, IfOk, IsTrue, Some, None, option_map, true, false};
ghost use Rattle.bridge_rule.specs.Logs.{LogState, new_log, taken_log, step_of, first_known, with_known, forgotten, known_of, known_at, text_of};
ghost use Rattle.bridge_rule.specs.declared.limits.TheConstants.{INDEX_END};

use crate::limits::INDEX_END;
use crate::opening::{Text, copied_text, is_same_text};
use circular_buffer::HeapCircularBuffer;
use issuer_base::NoMemory;
use std::alloc::Global;
use std::marker::Model;

/// What becomes of a journal where a record of a message is read.
#[derive(Clone, Copy)]
pub enum Step {
    /// The record doesn't count: the journal stays.
    Skips,
    /// The record counts, and the journal has it already.
    Stays,
    /// The record counts, and is appended to the journal.
    Puts,
    /// The record counts: the journal is truncated at its index, and then the record is appended.
    Replaces,
}

/// How many of a shard's records count, and the records of its journal that the bridge knows beyond those.
#[derive(Drop)]
pub struct Log {
    count: u64,
    beyond: HeapCircularBuffer<Text>,
}

impl Model for Log {
    ghost use Rattle.std.specs.Prelude.{◌<◌, ◌≤◌, length, map};
    ghost use Rattle.bridge_rule.specs.Logs.{LogState, text_items};
    ghost use Rattle.bridge_rule.specs.declared.limits.TheConstants.{INDEX_END};

    ghost Value = { LogState };

    ghost view = { λ log. record { count = log.count; beyond = map text_items log.beyond.items; room = log.beyond.capacity } };

    ghost invariant = { λ log. log.count ≤ INDEX_END };
}

impl Log {
    /// A log of which so many records count, with room for `room` records beyond them.
    pub fn new(alloc: Global, count: u64, room: usize) -> Result<Log, NoMemory>
        requires { count ≤ INDEX_END }
        ensures { IfOk result (λ log. log ≡ new_log count room) }
    {
        let beyond = HeapCircularBuffer::with_capacity(alloc, room)?;
        Ok(Log { count, beyond })
    }

    /// How many records count.
    pub fn count(&self) -> u64
        ensures { result ≡ self.now.count }
    {
        self.count
    }

    /// How many records of the journal the bridge knows beyond those that count.
    pub fn beyond(&self) -> usize
        ensures { result ≡ length self.now.beyond }
    {
        self.beyond.len()
    }

    /// How many records of the journal the bridge knows.
    pub fn known_count(&self) -> u64
        ensures { result ≡ known_of self.now }
    {
        self.count + self.beyond.len() as u64
    }

    /// The next record of a message: what becomes of the journal.
    pub(crate) fn take(&mut self, index: u64, text: &Text) -> Step
        requires { index < INDEX_END }
        ensures step { result ≡ step_of self.old index text.now.items }
        ensures log { self.new ≡ taken_log self.old index text.now.items }
    {
        if index != self.count {
            return Step::Skips;
        }
        self.count += 1;
        match self.first_is(text) {
            None => Step::Puts,
            Some(true) => {
                let _known = self.beyond.pop_front();
                Step::Stays
            }
            Some(false) => {
                self.beyond.clear();
                Step::Replaces
            }
        }
    }

    /// The bridge knows one more record of the journal. Returns whether there was room for it.
    pub(crate) fn learn(&mut self, text: &Text) -> bool
        ensures room { IsTrue result ↔ (length self.old.beyond < self.old.room) }
        ensures learned { result ≡ true → self.new ≡ with_known self.old text.now.items }
        ensures full { result ≡ false → self.new ≡ self.old }
    {
        self.beyond.try_push_back(copied_text(text)).is_ok()
    }

    /// The bridge knows just the records that count.
    pub(crate) fn forget(&mut self)
        ensures { self.new ≡ forgotten self.old }
    {
        self.beyond.clear();
    }

    /// The record with this index, if the bridge knows it beyond those that count.
    pub(crate) fn known(&self, index: u64) -> Option<&Text>
        ensures { option_map text_of result ≡ known_at self.now index }
    {
        if index < self.count {
            return None;
        }
        self.beyond.get((index - self.count) as usize)
    }

    #[tactic(auto, using(crate::proofs::LogSteps::known_first))]
    /// Whether the first record beyond those that count has this text, if there is one.
    fn first_is(&self, text: &Text) -> Option<bool>
        ensures { result ≡ first_known self.now.beyond text.now.items }
    {
        match self.beyond.front() {
            None => None,
            Some(known) => Some(is_same_text(known, text)),
        }
    }
}
