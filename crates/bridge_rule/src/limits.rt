//! The limits of what a bridge holds.

/// How many logs a partition has: the journals of its shards, and the notes of work on cards.
pub const LOGS: usize = 17;

/// The capacity of a name of a machine or a barrier.
pub const NAME_ROOM: usize = 64;

/// The capacity of a record's text, without its newline.
pub const TEXT_ROOM: usize = 1_024;

/// No record's index is as great, and no barrier's number.
pub const INDEX_END: u64 = 1 << 63;
