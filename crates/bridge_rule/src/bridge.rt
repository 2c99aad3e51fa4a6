//! A partition's bridge on one machine.
ghost use Rattle.std.specs.Prelude.{◌≡◌, ◌↔◌, ◌<◌, ◌≤◌, ◌+◌, ◌==◌, ℕ, length, map, All, IsTrue, IfOk};
ghost use Rattle.bridge_rule.specs.declared.limits.TheConstants.{LOGS, INDEX_END};
ghost use Rattle.bridge_rule.specs.Bridges.{BridgeState, StandsIn, IsTold, IsFollowing, IsLearning, IsServing, new_bridge, log_at, waited_for, served_name, is_told, follows, serves};
ghost use Rattle.bridge_rule.specs.Events.{IsPosition};
ghost use Rattle.bridge_rule.specs.Logs.{new_log, known_of};
ghost use Rattle.one_history.specs.Events.{KeepsPosition, Crash, next};
ghost use Rattle.one_history.specs.Machines.{World};

use crate::held::Held;
use crate::limits::{INDEX_END, LOGS};
use crate::log::Log;
use crate::opening::{Name, Opening, copied};
use crate::role::Role;
use circular_buffer::HeapCircularBuffer;
use issuer_base::NoMemory;
use std::alloc::Global;
use std::marker::Model;

/// A partition's bridge on one machine: what counts as far as it has read, its role, what it knows of its journals, and
/// the answers that wait.
#[derive(Drop)]
pub struct Bridge {
    pub(crate) machine: Name,
    pub(crate) last: Opening,
    pub(crate) role: Role,
    pub(crate) logs: Vec<Log>,
    pub(crate) held: HeapCircularBuffer<Held>,
}

impl Model for Bridge {
    ghost use Rattle.std.specs.Prelude.{◌≡◌, ◌<◌, length};
    ghost use Rattle.bridge_rule.specs.Bridges.{BridgeState};
    ghost use Rattle.bridge_rule.specs.declared.limits.TheConstants.{LOGS, INDEX_END};

    ghost Value = { BridgeState };

    ghost view = { λ bridge. record {
      machine = bridge.machine.items;
      last = bridge.last;
      role = bridge.role;
      logs = bridge.logs.items;
      held = bridge.held.items;
      room = bridge.held.capacity;
    } };

    ghost invariant = { λ bridge. (length bridge.logs.items ≡ LOGS) × (bridge.last.number < INDEX_END) };
}

impl Bridge {
    /// A bridge of the machine with this name, from a position: the last barrier that counts there, and how many records
    /// of each shard count. It has room for `room` records of each shard beyond those, and for `waiting` answers. No
    /// other call allocates.
    pub fn new(
        alloc: Global,
        machine: Name,
        last: Opening,
        counts: &[u64],
        room: usize,
        waiting: usize,
    ) -> Result<Bridge, NoMemory>
        requires logs { length counts.now ≡ LOGS }
        requires within { All (λ count. count ≤ INDEX_END) counts.now }
        requires number { last.number < INDEX_END }
        ensures bridge { IfOk result (λ bridge. bridge ≡ new_bridge machine.items last counts.now room waiting) }
        ensures start { IfOk result (λ bridge. (world : World) (keep : ℕ → ℕ)
            → KeepsPosition world (world.machines machine.items) keep → IsPosition world machine.items last counts.now
            → StandsIn bridge (next world (Crash machine.items keep))) }
    {
        let bridge = Bridge::at_position(alloc, machine, last, counts, room, waiting)?;
        Ok(bridge)
    }

    /// The bridge of [`Bridge::new`].
    fn at_position(
        alloc: Global,
        machine: Name,
        last: Opening,
        counts: &[u64],
        room: usize,
        waiting: usize,
    ) -> Result<Bridge, NoMemory>
        requires logs { length counts.now ≡ LOGS }
        requires within { All (λ count. count ≤ INDEX_END) counts.now }
        requires number { last.number < INDEX_END }
        ensures { IfOk result (λ bridge. bridge ≡ new_bridge machine.items last counts.now room waiting) }
    {
        let logs = new_logs(alloc, counts, room)?;
        let held = HeapCircularBuffer::with_capacity(alloc, waiting)?;
        Ok(Bridge {
            machine,
            last,
            role: Role::Untold,
            logs,
            held,
        })
    }

    /// Whether it was told all of its journals, so that it may read.
    pub fn is_told(&self) -> bool
        ensures told { IsTrue result ↔ IsTold self.now.role }
        ensures test { result ≡ is_told self.now.role }
    {
        !matches!(&self.role, Role::Untold)
    }

    /// Whether it follows, so that it may be called.
    pub fn is_following(&self) -> bool
        ensures following { IsTrue result ↔ IsFollowing self.now.role }
        ensures test { result ≡ follows self.now.role }
    {
        matches!(&self.role, Role::Following)
    }

    /// Whether it learns of its journals: it serves, or wasn't told all of them.
    pub fn is_learning(&self) -> bool
        ensures { IsTrue result ↔ IsLearning self.now.role }
    {
        matches!(&self.role, Role::Untold | Role::Serving(_))
    }

    /// The barrier that it has made and waits for, if it waits for one.
    pub fn waited_for(&self) -> Option<Opening>
        ensures { result ≡ waited_for self.now.role }
    {
        match &self.role {
            Role::Beginning(own) => Some(own.copy()),
            _ => None,
        }
    }

    /// The name by which it serves; empty if it doesn't.
    pub fn served_name(&self) -> Name
        ensures { result.items ≡ served_name self.now.role }
    {
        match &self.role {
            Role::Serving(own) => copied(&own.name),
            _ => Name::new(),
        }
    }

    /// Whether this barrier counts if it is the stream's next message.
    pub fn is_next(&self, opening: &Opening) -> bool
        ensures { result ≡ (opening.now.number == self.now.last.number + 1) }
    {
        opening.number == self.last.number + 1
    }

    /// How many records of this shard count.
    pub fn count(&self, shard: u8) -> u64
        requires { shard < LOGS }
        ensures { result ≡ (log_at self.now.logs shard).count }
    {
        self.logs[usize::from(shard)].count()
    }

    /// How many records of this shard's journal it knows.
    pub fn known_count(&self, shard: u8) -> u64
        requires { shard < LOGS }
        ensures { result ≡ known_of (log_at self.now.logs shard) }
    {
        self.logs[usize::from(shard)].known_count()
    }

    /// Whether it serves.
    pub fn is_serving(&self) -> bool
        ensures serving { IsTrue result ↔ IsServing self.now.role }
        ensures test { result ≡ serves self.now.role }
    {
        matches!(&self.role, Role::Serving(_))
    }
}

/// Logs of which so many records count.
fn new_logs(alloc: Global, counts: &[u64], room: usize) -> Result<Vec<Log>, NoMemory>
    requires { All (λ count. count ≤ INDEX_END) counts.now }
    ensures { IfOk result (λ logs. logs.items ≡ map (λ count. new_log count room) counts.now) }
{
    let mut logs = Vec::with_capacity(alloc, counts.len())?;
    for count in counts {
        let log = Log::new(alloc, *count, room)?;
        logs.push(log)?;
    }
    Ok(logs)
}
