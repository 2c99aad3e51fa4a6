//! Passes for more callers, and their end.
ghost use Rattle.std.specs.Prelude.{◌≡◌, ℕ};
ghost use Rattle.claim_words.specs.ClaimViews.{parent_view as parent_claims, child_view as child_claims};
ghost use Rattle.claim_words.specs.ClaimViews.{joined as joined_claims};
ghost use Rattle.turn_book.specs.Logs.{items_at, IsFront};
ghost use Rattle.turn_book.specs.TurnViews.{parent_view, child_view, joined};
ghost use Rattle.host_calls.specs.Passes.{claims_of, logs_of, IsFree};

use crate::host::Host;
use crate::pass::Pass;
use issuer_base::Store;

impl<S: Store> Host<S> {
    /// Splits off a second pass, for one more caller. It has no claims and no records of its own, and has seen the same
    /// logs.
    pub fn split(&self, pass: &mut Pass) -> Pass
        requires { IsFree self.now pass.old }
        ensures pass { IsFree self.now pass.new × (claims_of pass.new ≡ parent_claims (claims_of pass.old))
            × (logs_of pass.new ≡ parent_view (logs_of pass.old)) }
        ensures new { IsFree self.now result × (claims_of result ≡ child_claims (claims_of pass.old))
            × (logs_of result ≡ child_view (logs_of pass.old)) }
    {
        let claims = self.claims.split(&mut pass.claims);
        let turns = self.turns.split(&mut pass.turns);
        Pass { claims, turns }
    }

    /// Merges `other` into `pass`. The pass then has the claims and the records of both, what both have read of claims
    /// and tops, and for each log the longer prefix that either has seen.
    pub fn join(&self, pass: &mut Pass, other: Pass)
        requires { IsFree self.now pass.old × IsFree self.now other }
        ensures pass { IsFree self.now pass.new }
        ensures claims { claims_of pass.new ≡ joined_claims (claims_of pass.old) (claims_of other) }
        ensures logs { logs_of pass.new ≡ joined (logs_of pass.old) (logs_of other) }

        // What either has seen of a log is a prefix of what the pass has now seen of it.
        ensures fronts { (shard : ℕ)
            → IsFront (items_at (logs_of pass.old).seen shard) (items_at (logs_of pass.new).seen shard)
            × IsFront (items_at (logs_of other).seen shard) (items_at (logs_of pass.new).seen shard) }
    {
        let Pass { claims, turns } = other;
        self.claims.join(&mut pass.claims, claims);
        self.turns.join(&mut pass.turns, turns);
    }
}
