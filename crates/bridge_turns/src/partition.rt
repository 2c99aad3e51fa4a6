//! A partition on one machine.
ghost use Rattle.std.specs.Prelude.{◌≡◌, ◌≤◌, ◌<◌, [], length, replicate, All, IfOk};
ghost use Rattle.bridge_rule.specs.declared.limits.TheConstants.{LOGS, INDEX_END};
ghost use Rattle.bridge_rule.specs.Bridges.{new_bridge};
ghost use Rattle.bridge_turns.specs.declared.link.Link.TheVariants.{Away};

use crate::link::Link;
use crate::publisher::Publisher;
use bridge_lines::{Beginning, MAX_RECORDS};
use bridge_rule::{Bridge, LOGS, Step, copied};
use issuer_base::NoMemory;
use std::alloc::Global;
use std::marker::Model;

/// A partition on one machine: its bridge, the link to the stream, and what was published.
#[derive(Drop)]
pub struct Partition {
    pub(crate) bridge: Bridge,
    pub(crate) link: Link,
    pub(crate) publisher: Publisher,
    pub(crate) published: Vec<u64>,
    pub(crate) steps: Vec<Step>,
    pub(crate) counts: Vec<u64>,
}

impl Model for Partition {
    ghost use Rattle.std.specs.Prelude.{◌≡◌, length};
    ghost use Rattle.bridge_rule.specs.declared.limits.TheConstants.{LOGS};
    ghost use Rattle.bridge_lines.specs.declared.limits.TheConstants.{MAX_RECORDS};
    ghost use Rattle.bridge_turns.specs.Partitions.{PartitionState};

    ghost Value = { PartitionState };

    ghost view = { λ partition. record {
      bridge = partition.bridge;
      link = partition.link;
      begun = partition.publisher;
      published = partition.published.items;
    } };

    ghost invariant = { λ partition. (length partition.published.items ≡ LOGS)
        × (length partition.steps.items ≡ MAX_RECORDS) × (length partition.counts.items ≡ LOGS) };
}

impl Partition {
    /// A partition from a position, with room for `room` records of each journal beyond those that count, and for
    /// `waiting` answers. No other call allocates.
    pub fn new(
        alloc: Global,
        beginning: &Beginning,
        room: usize,
        waiting: usize,
    ) -> Result<Partition, NoMemory>
        requires within { All (λ count. count ≤ INDEX_END) beginning.now.counts }
        requires number { beginning.now.last.number < INDEX_END }
        ensures { IfOk result (λ partition. partition ≡ record {
          bridge = new_bridge beginning.now.machine.items beginning.now.last beginning.now.counts room waiting;
          link = Away;
          begun = record { name = []; sequence = 0; records = [] };
          published = replicate LOGS 0;
        }) }
    {
        let machine = copied(&beginning.machine);
        let last = beginning.last.copy();
        let bridge = Bridge::new(alloc, machine, last, &beginning.counts, room, waiting)?;
        Ok(Partition {
            bridge,
            link: Link::Away,
            publisher: Publisher::new(alloc)?,
            published: vec![in alloc; 0; LOGS]?,
            steps: vec![in alloc; Step::Skips; MAX_RECORDS]?,
            counts: vec![in alloc; 0; LOGS]?,
        })
    }
}
