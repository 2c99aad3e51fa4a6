//! The records of a shard's journal.
ghost use Rattle.std.specs.Prelude.{◌≡◌, ◌↔◌, IsTrue};

use crate::answer::Reply;
use crate::command::Command;
use crate::pan::Pan;
use crate::request::Request;

/// A record of a shard's journal.
#[derive(Drop)]
pub enum Entry {
    /// A request was decided, with this reply.
    Decided { request: Request, reply: Reply },

    /// A command was queued for the card with this account and sequence number.
    Queued { pan: Pan, psn: u8, command: Command },

    /// The card with this account and sequence number was given a status.
    Status { pan: Pan, psn: u8, status: u8 },
}

impl Entry {
    /// A copy. It allocates nothing.
    pub fn copy(&self) -> Entry
        ensures { result ≡ self.now }
    {
        match self {
            Entry::Decided { request, reply } => Entry::Decided {
                request: *request,
                reply: reply.copy(),
            },
            Entry::Queued { pan, psn, command } => Entry::Queued {
                pan: *pan,
                psn: *psn,
                command: command.copy(),
            },
            Entry::Status { pan, psn, status } => Entry::Status {
                pan: *pan,
                psn: *psn,
                status: *status,
            },
        }
    }

    /// Whether the two are the same.
    pub fn is_same(&self, other: &Entry) -> bool
        ensures { IsTrue result ↔ (self.now ≡ other.now) }
    {
        match (self, other) {
            (
                Entry::Decided { request, reply },
                Entry::Decided {
                    request: other_request,
                    reply: other_reply,
                },
            ) => request.is_same(other_request) && reply.is_same(other_reply),
            (
                Entry::Queued { pan, psn, command },
                Entry::Queued {
                    pan: other_pan,
                    psn: other_psn,
                    command: other_command,
                },
            ) => pan.is_same(other_pan) && psn == other_psn && command.is_same(other_command),
            (
                Entry::Status { pan, psn, status },
                Entry::Status {
                    pan: other_pan,
                    psn: other_psn,
                    status: other_status,
                },
            ) => pan.is_same(other_pan) && psn == other_psn && status == other_status,
            _ => false,
        }
    }
}
