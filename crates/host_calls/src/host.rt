//! The host of several callers.
ghost use Rattle.std.specs.Prelude.{◌≡◌, ◌≤◌, [], length, vec_capacity};
ghost use Rattle.issuer_base.specs.declared.limits.TheConstants.{MAX_SHARDS};
ghost use Rattle.claim_words.specs.Seats.{cards_of};
ghost use Rattle.shared_shards.specs.ShardSeats.{opening_in, AreTurnsOf};
ghost use Rattle.shared_laws.specs.OpeningLogs.{AreCounted, AreRecordedIn};

use claim_words::ClaimWords;
use issuer_base::Store;
use issuer_setup::Issuer;
use shared_shards::ShardTurns;
use std::sync::Mutex;

/// The host of several callers over stores. Each caller answers its own lines with its own pass. Each record is durable
/// in its shard's store before it is answered.
pub struct Host<S: Store> {
    pub(crate) issuer: Issuer,

    /// The claims on the ATCs of the issuer's cards.
    pub(crate) claims: ClaimWords,

    /// The issuer's shards, at which callers take turns.
    pub(crate) turns: ShardTurns<S>,

    // The lock is never taken. Because of it, the type of the stores needn't be one that threads can share.
    pub(crate) room: Mutex<StoreRoom<S>>,
    ghost cards: { cards_of claims ≡ length issuer.cards },
    ghost shards: { AreTurnsOf issuer turns },
    ghost counted: { AreCounted (opening_in turns) },
    ghost recorded: { AreRecordedIn issuer (opening_in turns) claims },
}

/// An empty list with room for the store of each shard, so that `close` doesn't allocate.
pub(crate) struct StoreRoom<S> {
    pub(crate) list: Vec<S>,
    ghost empty: { list.items ≡ [] },
    ghost room: { MAX_SHARDS ≤ vec_capacity list },
}

impl<S> StoreRoom<S> {
    pub(crate) fn into_list(self) -> Vec<S>
        ensures { (result.items ≡ []) × (MAX_SHARDS ≤ vec_capacity result) }
    {
        let StoreRoom { list } = self;
        list
    }
}

impl<S: Store> Host<S> {
    /// The issuer that was passed to `load`.
    pub fn issuer(&self) -> &Issuer
        ensures { result.now ≡ self.now.issuer }
    {
        &self.issuer
    }
}
