//! A world that performs events.
ghost use Rattle.std.specs.Prelude.{◌↔◌, IfOk, IsTrue};
ghost use Rattle.world_net.specs.Allowed.{IsAllowed};
ghost use Rattle.world_net.specs.WorldSteps.{IsStep};
ghost use Rattle.world_net.specs.WorldRuns.{IsNewWorld};
ghost use Rattle.world_net.specs.Safety.{IsSafe};
ghost use Rattle.world_net.specs.NewWorld.{AreFirst};
ghost use Rattle.world_model.specs.OpeningWorld.{HasFirstKeys};
ghost use Rattle.world_model.specs.Stepping.{IsTaken, IsReached, IsOwn, IfDone};

use crate::net::Net;
use issuer_base::{NoMemory, Suite};
use issuer_setup::Issuer;
use std::alloc::Global;
use std::marker::Model;
use world_net::Event;

/// The world of an issuer: its host's shards, its cards, its callers' claims, and what was sent.
///
/// A contract sees its `WorldState`. At each moment it is the end of a run, and so safe.
#[derive(Drop)]
pub struct World {
    pub(crate) net: Net,
}

impl Model for World {
    ghost use Rattle.world_net.specs.WorldState.{WorldState};
    ghost use Rattle.world_model.specs.Stepping.{world_of, IsHeld};

    ghost Value = { WorldState };

    ghost view = { λ world. world_of world.net };

    ghost invariant = { λ world. IsHeld world.net };
}

impl World {
    /// The world of this issuer before any event: its cards are new and of this suite, under the issuer's first key
    /// set, which has keys of it.
    pub fn new(alloc: Global, issuer: Issuer, suite: Suite) -> Result<World, NoMemory>
        requires { HasFirstKeys issuer suite }
        ensures new { IfOk result (IsNewWorld issuer) }
        ensures first { IfOk result (λ world. AreFirst issuer suite world.cards) }
        ensures run { IfOk result IsReached }
        ensures safe { IfOk result IsSafe }
    {
        let net = Net::new(alloc, issuer, suite)?;
        Ok(World { net })
    }

    /// Performs the event if the world allows it, and returns whether it does. If it doesn't, or if memory runs out,
    /// nothing changes.
    pub fn step(&mut self, event: &Event) -> Result<bool, NoMemory>
        ensures taken { IsTaken (IsAllowed self.old event.now)
            (IsStep self.old event.now self.new) self.old self.new result }

        // A write records the reply of the issuer's own table.
        ensures own { IfDone (IsOwn self.old event.now self.new) result }

        // At each moment it is the end of a run, and safe.
        ensures run { IsReached self.new }
        ensures safe { IsSafe self.new }
    {
        self.net.step(event)
    }
}

/// Whether the issuer's first key set has keys of this suite, as [`World::new`] requires.
pub fn has_first_keys(issuer: &Issuer, suite: Suite) -> bool
    ensures { IsTrue result ↔ HasFirstKeys issuer.now suite }
{
    let set = issuer.first_key();
    match suite {
        Suite::TripleDes => true,
        Suite::Aes => set.aes.is_some(),
    }
}
