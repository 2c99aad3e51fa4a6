//! The issuer script commands of a card: those queued, those in flight, and whether the card's scripts are halted.
ghost use Rattle.std.specs.Prelude.{◌≡◌, ◌+◌, ◌≤◌, ◌++◌, ◌↔◌, length, All, IfOk, IsOk, OnErr, IsTrue};
ghost use Rattle.issuer_base.specs.ScriptCommand.{is_command};
ghost use Rattle.card_history.specs.Scripts.{Scripts, no_scripts, with_command};
ghost use Rattle.script_queue.specs.CommandQueue.{TakesOneMore};
ghost use Rattle.row_core.specs.CardRow.{kept_of};
ghost use Rattle.row_core.specs.Launching.{IsLaunch, launched_from, carried};

use cvr_settle::{Flight, Settled, settle};
use issuer_base::{Command, NoMemory, QueueFull, Request};
use script_queue::Queue;
use std::alloc::Global;
use std::marker::Model;

/// How the decision of a request on the newest ATC changes a card's scripts.
#[derive(Clone, Copy)]
pub struct Launch {
    /// How many of the first undone commands the card ran.
    pub(crate) ran: u8,

    /// How many commands the reply carries, from the first after those.
    pub(crate) size: u8,

    /// Whether the card's scripts are halted from now on.
    pub(crate) halted: bool,
}

/// The issuer script commands of a card.
#[derive(Drop)]
pub(crate) struct CardScripts {
    queue: Queue,

    /// The batch of the last reply on a newest ATC.
    flight: Option<Flight>,

    /// Whether no command is sent any more.
    halted: bool,
}

impl Model for CardScripts {
    ghost use Rattle.std.specs.Prelude.{◌-◌, ◌≤◌, length, All, IsTrue};
    ghost use Rattle.std.specs.Option.{option_map_or};
    ghost use Rattle.issuer_base.specs.ScriptCommand.{is_command};
    ghost use Rattle.row_core.specs.CardRow.{KeptScripts};

    ghost Value = { KeptScripts };

    ghost view = { λ scripts. record {
      commands = scripts.queue;
      done = scripts.queue.queued - length scripts.queue.undone;
      flight = scripts.flight;
      halted = scripts.halted;
    } };

    ghost invariant = { λ scripts. let undone = length scripts.queue.undone in
        All (λ command. IsTrue (is_command command)) scripts.queue.undone × (undone ≤ scripts.queue.queued)
        × (option_map_or (λ flight. flight.size) scripts.flight 0 ≤ undone) };
}

impl CardScripts {
    /// No commands. No other call allocates.
    pub(crate) fn new(alloc: Global) -> Result<CardScripts, NoMemory>
        ensures { IfOk result (λ scripts. scripts ≡ kept_of no_scripts) }
    {
        let queue = Queue::new(alloc)?;
        Ok(CardScripts {
            queue,
            flight: None,
            halted: false,
        })
    }

    /// The undone commands, and the count of all.
    pub(crate) fn queue(&self) -> &Queue
        ensures { result.now ≡ self.now.commands }
    {
        &self.queue
    }

    /// How many commands are done.
    pub(crate) fn done(&self) -> u32
        ensures { result ≡ self.now.done }
    {
        self.queue.queued() - u32::from(self.queue.undone())
    }

    /// What is in flight.
    pub(crate) fn flight(&self) -> Option<Flight>
        ensures { result ≡ self.now.flight }
    {
        self.flight
    }

    /// Whether no command is sent any more.
    pub(crate) fn halted(&self) -> bool
        ensures { result ≡ self.now.halted }
    {
        self.halted
    }

    /// How a request on the newest ATC changes them, if it is decided.
    pub(crate) fn launch(&self, request: &Request) -> Launch
        ensures { IsLaunch self.now request.now result }
    {
        let register = request.last_online();
        let count = request.script_count();
        let (ran, halted) = match settle(self.flight, register, count) {
            Settled::Ran(count) => (count, self.halted),
            Settled::Nothing => (0, self.halted),
            Settled::Halt => (0, true),
        };
        let size = if halted {
            0
        } else {
            self.queue.fitting_after(ran)
        };
        Launch { ran, size, halted }
    }

    /// The commands that go with the reply, as two slices.
    pub(crate) fn batch(&self, launch: Launch) -> (&[Command], &[Command])
        requires { launch.ran + launch.size ≤ length self.now.commands.undone }
        ensures batch { result.0.now ++ result.1.now ≡ carried self.now launch }
        ensures form { All (λ command. IsTrue (is_command command)) (result.0.now ++ result.1.now) }
    {
        self.queue.part(launch.ran, launch.size)
    }

    /// The number of the first command of the batch, from 0.
    pub(crate) fn first_number(&self, launch: Launch) -> u32
        requires { launch.ran + launch.size ≤ length self.now.commands.undone }
        ensures { result ≡ self.now.done + launch.ran }
    {
        self.queue.queued() - u32::from(self.queue.undone()) + u32::from(launch.ran)
    }

    /// Settles the old flight and begins that of the reply on this ATC.
    pub(crate) fn apply(&mut self, counter: u16, launch: Launch)
        requires { launch.ran + launch.size ≤ length self.old.commands.undone }
        ensures { self.new ≡ launched_from self.old counter launch }
    {
        self.queue.advance(launch.ran);
        self.halted = launch.halted;
        self.flight = (!launch.halted).then_some(Flight {
            counter,
            size: launch.size,
        });
    }

    /// Removes all commands, as if none was ever queued.
    pub(crate) fn clear(&mut self)
        ensures { self.new ≡ kept_of no_scripts }
    {
        self.queue.clear();
        self.flight = None;
        self.halted = false;
    }

    /// Appends a command to the queue, and returns its number.
    pub(crate) fn push(&mut self, command: Command) -> Result<u32, QueueFull>
        requires { IsTrue (is_command command) }
        ensures taken { IsOk result ↔ TakesOneMore self.old.commands }
        ensures number { IfOk result (λ number. number ≡ self.old.commands.queued) }
        ensures queued { IfOk result (λ number. (scripts : Scripts) → self.old ≡ kept_of scripts
            → scripts.done ≤ length scripts.queue → self.new ≡ kept_of (with_command command scripts)) }
        ensures unchanged { OnErr result (self.new ≡ self.old) }
    {
        self.queue.push(command)
    }
}
