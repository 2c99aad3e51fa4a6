//! What a line requests of a host, and what the host decided.

use issuer_base::{Command, Pan, Reply, Request};

/// What a line requests of a host.
#[derive(Drop)]
pub enum Asked {
    /// This request is to be decided.
    Decide(Request),

    /// This command is to be queued for the card with this account and sequence number.
    Queue { pan: Pan, psn: u8, command: Command },

    /// The card with this account and sequence number is to have this status, 0 to 9.
    Status { pan: Pan, psn: u8, status: u8 },
}

/// A decided request with its reply, and the index of its record in the shard's history, from 0.
#[derive(Drop)]
pub struct Decision {
    /// The request that was decided.
    pub request: Request,

    /// The reply that was returned, and is returned again to the same request.
    pub reply: Reply,

    /// The index of the record in the shard's history, from 0.
    pub place: u64,
}
