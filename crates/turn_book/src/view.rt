//! What a seat knows. It exists in proofs alone: the program has no value of these types.
use crate::logs::Log;
use shared_seats::SeatName;
use std::collections::LinkedList;

/// Whether a seat has the turn of a shard.
pub enum Turn {
    /// It has none.
    Free,

    /// It has the turn of this shard, and the shard's slot with the value.
    Moving(u8),

    /// It has the turn of this shard, and the caller holds the value.
    Inside(u8),
}

/// What a seat knows.
pub struct TurnView<I, B> {
    /// What it has seen of each shard's log.
    pub seen: LinkedList<Log<I, B>>,

    /// The shards and indices of the items that it has appended, newest first.
    pub mine: LinkedList<(u8, u64)>,

    /// Whether it has a turn.
    pub turn: Turn,

    /// What the two seats of a join had seen of the logs, while the join lasts.
    pub heard: LinkedList<LinkedList<Log<I, B>>>,

    /// Its names among the seats of the table.
    pub names: LinkedList<SeatName>,
}
