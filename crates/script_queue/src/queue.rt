//! The queue of a card: its undone commands in a ring buffer of fixed size, and the count of all.
ghost use Rattle.std.specs.Prelude.{◌≡◌, ◌+◌, ◌<◌, ◌≤◌, ◌↔◌, [], ◌∷◌, ◌++◌, length, take, drop, slice_get, Some, IfOk, IsOk, IsTrue, OnErr};
ghost use Rattle.script_queue.specs.CommandQueue.{no_commands, TakesOneMore};
ghost use Rattle.script_queue.specs.ScriptTemplate.{fitting_front};

use circular_buffer::HeapCircularBuffer;
use issuer_base::{
    BARE_COMMAND_BYTES, BARE_TEMPLATE_BYTES, Command, MAX_QUEUED, MAX_TEMPLATE_BYTES, MAX_UNDONE,
    NoMemory, QueueFull,
};
use std::alloc::Global;
use std::marker::Model;

/// The issuer script commands of a card: the undone ones, the oldest first, and how many were ever queued.
#[derive(Drop)]
pub struct Queue {
    commands: HeapCircularBuffer<Command>,

    queued: u32,
}

impl Model for Queue {
    ghost use Rattle.std.specs.Prelude.{◌≡◌, ◌≤◌, length};
    ghost use Rattle.issuer_base.specs.declared.limits.TheConstants.{MAX_UNDONE};
    ghost use Rattle.script_queue.specs.CommandQueue.{CommandQueue};

    ghost Value = { CommandQueue };

    ghost view = { λ queue. record { queued = queue.queued; undone = queue.commands.items } };

    ghost invariant = { λ queue. let undone = length queue.commands.items in
        (queue.commands.capacity ≡ MAX_UNDONE) × (undone ≤ MAX_UNDONE) × (undone ≤ queue.queued) };
}

impl Queue {
    /// A queue of no commands, with room for [`MAX_UNDONE`] of them. No other call allocates.
    pub fn new(alloc: Global) -> Result<Queue, NoMemory>
        ensures { IfOk result (λ queue. queue ≡ no_commands) }
    {
        let commands = HeapCircularBuffer::with_capacity(alloc, usize::from(MAX_UNDONE))?;
        Ok(Queue {
            commands,
            queued: 0,
        })
    }

    /// How many commands are undone, at most [`MAX_UNDONE`].
    pub fn undone(&self) -> u8
        ensures count { result ≡ length self.now.undone }
        ensures within { result ≤ MAX_UNDONE }
    {
        self.commands.len() as u8
    }

    /// How many commands were ever queued, including the done ones.
    pub fn queued(&self) -> u32
        ensures count { result ≡ self.now.queued }
        ensures undone { length self.now.undone ≤ result }
    {
        self.queued
    }

    /// Whether one more command may be queued.
    pub fn takes_one_more(&self) -> bool
        ensures { IsTrue result ↔ TakesOneMore self.now }
    {
        self.undone() < MAX_UNDONE && self.queued < MAX_QUEUED
    }

    /// Appends a command, and returns its number: the first command that was ever queued has the number 0.
    pub fn push(&mut self, command: Command) -> Result<u32, QueueFull>
        ensures taken { IsOk result ↔ TakesOneMore self.old }
        ensures number { IfOk result (λ number. number ≡ self.old.queued) }
        ensures queued { IfOk result (λ number. self.new
            ≡ record { queued = number + 1; undone = self.old.undone ++ command ∷ [] }) }
        ensures unchanged { OnErr result (self.new ≡ self.old) }
    {
        if self.queued == MAX_QUEUED {
            return Err(QueueFull);
        }
        self.commands.try_push_back(command).map_err(|_| QueueFull)?;
        let number = self.queued;
        self.queued += 1;
        Ok(number)
    }

    /// The undone command at this index, the oldest at 0.
    pub fn at(&self, index: u8) -> &Command
        requires { index < length self.now.undone }
        ensures { slice_get self.now.undone index ≡ Some result.now }
    {
        self.commands.get(usize::from(index)).unwrap()
    }

    /// `count` undone commands after the first `skip`, as the two slices of the ring buffer.
    pub fn part(&self, skip: u8, count: u8) -> (&[Command], &[Command])
        requires { skip + count ≤ length self.now.undone }
        ensures { result.0.now ++ result.1.now ≡ take count (drop skip self.now.undone) }
    {
        let (first, second) = self.commands.as_slices();
        between(first, second, usize::from(skip), usize::from(count))
    }

    /// Removes the first `count` undone commands, which are done now.
    pub fn advance(&mut self, count: u8)
        requires { count ≤ length self.old.undone }
        ensures { self.new ≡ record { queued = self.old.queued; undone = drop count self.old.undone } }
    {
        let left = self.commands.len() - usize::from(count);
        self.commands.truncate_front(left);
    }

    /// Removes all commands, as if none was ever queued. The room for them stays.
    pub fn clear(&mut self)
        ensures { self.new ≡ no_commands }
    {
        self.commands.clear();
        self.queued = 0;
    }

    /// How many of the first undone commands fit into one template of at most [`MAX_TEMPLATE_BYTES`] bytes.
    pub fn fitting(&self) -> u8
        ensures within { result ≤ length self.now.undone }
        ensures front { take result self.now.undone ≡ fitting_front self.now.undone }
    {
        self.fitting_after(0)
    }

    /// How many of the undone commands after the first `skip` fit into one template, as in `fitting`.
    pub fn fitting_after(&self, skip: u8) -> u8
        requires { skip ≤ length self.now.undone }
        ensures within { skip + result ≤ length self.now.undone }
        ensures front { take result (drop skip self.now.undone) ≡ fitting_front (drop skip self.now.undone) }
    {
        let mut room = MAX_TEMPLATE_BYTES - BARE_TEMPLATE_BYTES;
        let mut count = 0;
        for index in skip..self.undone() {
            let size = BARE_COMMAND_BYTES + self.at(index).body.len();
            if size > room {
                break;
            }
            room -= size;
            count += 1;
        }
        count
    }
}

/// `count` items after the first `skip` of a list that is given as two slices.
fn between<'a>(
    first: &'a [Command],
    second: &'a [Command],
    skip: usize,
    count: usize,
) -> (&'a [Command], &'a [Command])
    requires { skip + count ≤ length first.now + length second.now }
    ensures { result.0.now ++ result.1.now ≡ take count (drop skip (first.now ++ second.now)) }
{
    if skip >= first.len() {
        let start = skip - first.len();
        return (&first[..0], &second[start..start + count]);
    }
    let first = &first[skip..];
    if count <= first.len() {
        return (&first[..count], &second[..0]);
    }
    (first, &second[..count - first.len()])
}
