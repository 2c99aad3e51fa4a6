//! What a shard's log has. These types exist in proofs alone: the program has no value of them.

use issuer_base::Entry;
use issuer_setup::Issuer;
use std::collections::LinkedList;
use std::marker::Model;

/// An item of a shard's log.
pub enum LogItem {
    /// A record was appended.
    Record(Entry),

    /// An answer reported that the store failed; this was the store's fault count then.
    Fault(u64),
}

/// The head of a shard's log.
pub struct LogHead {
    pub issuer: Issuer,

    /// The shard's number.
    pub shard: u8,

    /// The store's fault count after loading.
    pub faults: u64,

    /// How many records the shard had then.
    pub records: u64,

    /// The store's disk then, if the store exposes it.
    pub opened: Option<SeenDisk>,
}

/// A store's disk as it was seen at a moment. A contract sees a `Disk` of `issuer_base`.
pub struct SeenDisk {
    /// The moments that it had been through, the oldest first.
    past: LinkedList<SeenMoment>,

    /// The present one.
    now: SeenMoment,
}

impl Model for SeenDisk {
    ghost use Rattle.issuer_base.specs.Stores.{Disk};

    ghost Value = { Disk };

    ghost view = { λ disk. record { past = disk.past; now = disk.now } };
}

/// A store at a moment. A contract sees a `Moment` of `issuer_base`.
struct SeenMoment {
    bytes: LinkedList<u8>,

    /// The length of its durable prefix.
    safe: u64,
}

impl Model for SeenMoment {
    ghost use Rattle.issuer_base.specs.Stores.{Moment};

    ghost Value = { Moment };

    ghost view = { λ moment. record { bytes = moment.bytes; safe = moment.safe } };
}
