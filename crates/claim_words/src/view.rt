//! What a seat knows. It exists in proofs alone: the program has no value of these types.
use shared_seats::SeatName;
use std::collections::LinkedList;

/// The state of a claim that was won.
pub enum Standing {
    /// It is held, and neither kept nor released.
    Open,

    /// Its ATC was recorded. It stays so.
    Kept,

    /// It was released.
    GivenBack,
}

/// A claim that was won.
pub struct Claimed {
    /// The number of the card.
    pub card: u32,

    /// The ATC.
    pub counter: u16,

    /// Its state.
    pub standing: Standing,
}

/// What a seat knows, newest first in each list.
pub struct ClaimView {
    /// The claims that it won.
    pub claims: LinkedList<Claimed>,

    /// The cards and ATCs that it lost.
    pub found: LinkedList<(u32, u16)>,

    /// The cards and ATCs that it read from top words.
    pub tops: LinkedList<(u32, u16)>,

    /// Its names among the seats of the table.
    pub names: LinkedList<SeatName>,
}
