//! A partition, from its beginning on.
ghost use Rattle.std.specs.Prelude.{◌≡◌, List, ⊤, IsOk, IsErr, IfOk, MatchResult, Some, None};
ghost use Rattle.bridge_lines.specs.Acts.{Act};
ghost use Rattle.bridge_lines.specs.Givens.{given_in};
ghost use Rattle.bridge_lines.specs.Starts.{no_start};
ghost use Rattle.bridge_serve.specs.Runs.{Answers, Takes, begun, desk_of};
ghost use Rattle.bridge_serve.specs.Faults.{IsFault};

use bridge_lines::{Beginning, Event, Given, Records, Why};
use bridge_turns::{Partition, Speaker};
use issuer_base::NoMemory;
use std::alloc::Global;
use std::marker::Model;

/// For how many records of each log beyond those that count there is room.
const ROOM: usize = 160;

/// For how many answers that wait there is room.
const WAITING: usize = 1_024;

/// Why a turn isn't taken.
#[derive(Clone, Copy)]
pub enum Fault {
    Stop(Why),
    NoMemory,
}

/// A partition from its beginning on, and the room for a message's records.
#[derive(Drop)]
pub struct Desk {
    alloc: Global,
    beginning: Beginning,
    partition: Option<Partition>,
    room: Records,
}

impl Model for Desk {
    ghost use Rattle.bridge_lines.specs.Starts.{start_of};
    ghost use Rattle.bridge_serve.specs.Runs.{DeskState};

    ghost Value = { DeskState };

    ghost view = { λ desk. record { start = start_of desk.beginning; partition = desk.partition } };
}

impl Desk {
    /// No barrier counts, and no record.
    pub fn new(alloc: Global) -> Result<Desk, NoMemory>
        ensures { IfOk result (λ desk. desk ≡ desk_of no_start None) }
    {
        Ok(Desk {
            alloc,
            beginning: Beginning::new(),
            partition: None,
            room: Records::new(alloc)?,
        })
    }

    /// Takes the lines of a turn, and says what is to be done. If it isn't taken, nothing is said.
    pub fn take<S: Speaker>(&mut self, turn: &[u8], speaker: &mut S) -> Result<(), Fault>
        ensures taken { IsOk result → (start : S) (said : List Act) → S.says start speaker.old said
            → (after : List Act) × S.says start speaker.new after × Answers turn.now self.old said self.new after }
        ensures refused { MatchResult result (λ _. ⊤) (λ fault. IsFault fault turn.now self.old) }
        ensures silent { IsErr result → (start : S) (said : List Act) → S.says start speaker.old said → S.says start speaker.new said }
    {
        if let Some(given) = Given::parse(turn) {
            self.beginning.take(given);
            self.partition = None;
            return Ok(());
        }
        self.begin()?;
        self.take_event(turn, speaker)
    }

    /// Takes the lines of an event, which come to a partition that has begun.
    fn take_event<S: Speaker>(&mut self, turn: &[u8], speaker: &mut S) -> Result<(), Fault>
        requires { given_in turn.now ≡ None }
        ensures taken { IsOk result → (start : S) (said : List Act) → S.says start speaker.old said
            → (after : List Act) × S.says start speaker.new after × Takes turn.now self.old said self.new after }
        ensures refused { MatchResult result (λ _. ⊤) (λ fault. IsFault fault turn.now self.old) }
        ensures silent { IsErr result → (start : S) (said : List Act) → S.says start speaker.old said → S.says start speaker.new said }
    {
        let Some(event) = Event::parse(turn, &mut self.room) else {
            return Err(Fault::Stop(Why::BadLine));
        };
        let Some(partition) = &mut self.partition else {
            return Err(Fault::NoMemory);
        };
        match partition.take(&event, speaker) {
            Ok(()) => Ok(()),
            Err(why) => Err(Fault::Stop(why)),
        }
    }

    /// Begins, if it hasn't. Only this call allocates.
    fn begin(&mut self) -> Result<(), Fault>
        ensures begun { IsOk result → self.new ≡ desk_of self.old.start (Some (begun self.old)) }
        ensures fault { MatchResult result (λ _. ⊤) (λ fault. fault ≡ Fault.NoMemory) }
    {
        if self.partition.is_some() {
            return Ok(());
        }
        match Partition::new(self.alloc, &self.beginning, ROOM, WAITING) {
            Ok(partition) => {
                self.partition = Some(partition);
                Ok(())
            }
            Err(NoMemory) => Err(Fault::NoMemory),
        }
    }
}
