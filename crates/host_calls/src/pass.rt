//! A caller's part in a shared host, and what is still to be finished with it.
ghost use Rattle.claim_words.specs.Seats.{view_of as claims_in};
ghost use Rattle.turn_book.specs.Seats.{view_of as logs_in};
ghost use Rattle.shared_laws.specs.Decisions.{AreTied};

use claim_words::ClaimSeat;
use shared_shards::ShardSeat;

/// A caller's part in a shared host: its seat at the claims, and its seat at the shards. It ends by `join` or `close`.
pub struct Pass {
    pub(crate) claims: ClaimSeat,
    pub(crate) turns: ShardSeat,
    ghost tied: { AreTied (claims_in claims) (logs_in turns) },
}
