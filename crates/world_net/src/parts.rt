//! The state of a world beside its cards and its host.
ghost use Rattle.std.specs.Prelude.{◌≡◌};

use issuer_base::{Reply, Request};

/// A request that a card made.
#[derive(Drop)]
pub struct MadeRequest {
    /// The number of the card.
    pub card: u32,

    pub request: Request,
}

/// A caller's open claim on the counter of a request.
#[derive(Drop)]
pub struct OpenClaim {
    pub caller: u8,

    pub request: Request,
}

/// A request and the reply to it.
#[derive(Drop)]
pub struct Exchange {
    pub request: Request,

    pub reply: Reply,
}

impl Exchange {
    /// A copy. It doesn't allocate.
    pub fn copy(&self) -> Exchange
        ensures { result ≡ self.now }
    {
        Exchange {
            request: self.request,
            reply: self.reply.copy(),
        }
    }
}
