//! The name of a seat.
use std::collections::LinkedList;

/// A name that a seat holds. It exists in proofs alone: the program has no value of it.
pub struct SeatName {
    /// The numbers of the splits that made the name, the last one first. The first seat's path is empty.
    pub path: LinkedList<u64>,

    /// How often a seat was split from this name.
    pub splits: u64,
}
