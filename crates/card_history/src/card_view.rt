//! What a shard's history shows of a card.

use cvr_settle::Flight;

/// What a shard's history shows of a card: its counters, its status and its script commands.
#[derive(Clone, Copy, PartialEq, Eq)]
pub struct CardView {
    /// The greatest transaction counter that was decided, or none.
    pub hi: Option<u16>,

    /// The card's status, 0 to 9.
    pub status: u8,

    /// How many script commands were ever queued for the card.
    pub queued: u32,

    /// How many of them are done: the card ran them.
    pub done: u32,

    /// The batch in flight, in the last reply on a greatest ATC; none before the first, and if the scripts are halted.
    pub flight: Option<Flight>,

    /// Whether the card's scripts are halted for good.
    pub halted: bool,
}
