//! The events of a world.

use arrayvec::ArrayVec;
use card_model::Terminal;
use issuer_base::{Command, MAX_CHIP_BYTES};

/// An event of a world: of a card, of a caller of the host, of the store of a shard, or of the host itself.
#[derive(Drop)]
pub enum Event {
    /// The card with this number is tapped at a terminal, and makes a request.
    Tap {
        card: u32,
        terminal: Terminal,
    },

    /// A caller claims the counter of the request in these chip data.
    Claim {
        caller: u8,
        bytes: ArrayVec<u8, MAX_CHIP_BYTES>,
    },

    /// A caller releases its claim.
    Release {
        caller: u8,
    },

    /// A caller writes the decision of the request that it claimed. If it isn't `stored`, it is in doubt whether the
    /// store has it.
    Write {
        caller: u8,
        stored: bool,
    },

    /// The reply of the decision at this index of this shard is sent, possibly again.
    Send {
        shard: u8,
        place: u64,
    },

    /// A value of tag 91 reaches the card with this number, with a response code.
    Authenticate {
        card: u32,
        value91: ArrayVec<u8, 16>,
        arc: [u8; 2],
    },

    /// A script command reaches the card with this number.
    Run {
        card: u32,
        bytes: ArrayVec<u8, 77>,
    },

    /// A command is queued for the card with this number.
    Queue {
        card: u32,
        command: Command,
    },

    /// The card with this number is given a status.
    Status {
        card: u32,
        status: u8,
    },

    /// The host restarts: all claims end, and a record in doubt was `kept` by its store or not.
    Restart {
        kept: bool,
    },
}
