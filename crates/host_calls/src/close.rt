//! The end of a host of several callers.
ghost use Rattle.std.specs.Prelude.{◌≡◌, ℕ};
ghost use Rattle.claim_words.specs.ClaimViews.{claims_on, is_kept};
ghost use Rattle.shared_seats.specs.SeatNames.{IsWhole};
ghost use Rattle.shared_shards.specs.ShardSeats.{opening_in};
ghost use Rattle.shared_laws.specs.Closing.{AreClosed, AreItsOwn, AreClaimsSettled};
ghost use Rattle.shared_laws.specs.Decisions.{decisions_at};
ghost use Rattle.host_calls.specs.Passes.{claims_of, logs_of, IsFree};

use crate::host::Host;
use crate::pass::Pass;
use host_loading::take_stores;
use issuer_base::Store;

impl<S: Store> Host<S> {
    /// Closes the host, with a pass into which all others were joined, and returns the stores in the order of their
    /// shards' numbers. It doesn't allocate.
    pub fn close(self, pass: Pass) -> Vec<S>
        requires free { IsFree self pass }
        requires whole { IsWhole (claims_of pass).names }

        // Each history was extended by valid records, and each store holds the journal of its history.
        ensures stores { AreClosed S.bytes S.disk S.faults self.issuer (opening_in self.turns)
            (logs_of pass).seen result.items }

        // What was appended since loading is the pass's own, and its kept claims are the decided records among it.
        ensures places { AreItsOwn self.issuer (opening_in self.turns) (logs_of pass) }
        ensures kept { (card counter : ℕ) → claims_on is_kept card counter (claims_of pass).claims
            ≡ decisions_at (logs_of pass).seen (logs_of pass).mine card counter }
        ensures claims { AreClaimsSettled self.issuer (opening_in self.turns) (claims_of pass) }
    {
        let Pass {
            claims: claiming,
            turns: turning,
        } = pass;
        let Host {
            issuer: _,
            claims,
            turns,
            room,
        } = self;
        claims.close(claiming);
        take_stores(turns.close(turning), room.into_inner().into_list())
    }
}
