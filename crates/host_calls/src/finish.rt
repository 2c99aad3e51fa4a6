//! The answers to what was checked.
ghost use Rattle.std.specs.Prelude.{◌≡◌, ◌<◌, true, false};
ghost use Rattle.claim_words.specs.ClaimViews.{HasOpen, settled};
ghost use Rattle.claim_words.specs.Seats.{IsOf as IsSeatOfWords, cards_of, view_of as view_of_claims};
ghost use Rattle.claim_words.specs.declared.claim_words.Claim.TheVariants.{Won, Lost};
ghost use Rattle.line_checks.specs.AtHand.{IsOrderAtHand};
ghost use Rattle.shared_shards.specs.Turned.{OrdersInTurn};
ghost use Rattle.shared_laws.specs.declared.checked.Checked.TheVariants.{Decide};
ghost use Rattle.shared_laws.specs.Finishes.{claims_after, standing_by, Finishes};
ghost use Rattle.host_calls.specs.Passes.{claims_of, logs_of, HasClaimed, Holds, IsFree};
ghost use Rattle.shared_laws.specs.PreChecks.{HasPassed};

use crate::host::Host;
use crate::pass::Pass;
use claim_words::{Claim, ClaimSeat};
use issuer_base::{Answer, Store};
use line_checks::{CheckedOrder, CheckedRequest};
use shared_laws::Checked;
use std::sync::Wait;

impl<S: Store> Host<S> {
    /// The answer to what was checked with this pass, by the log of the card's shard as it is when the turn comes. A
    /// new record is durable in its shard's store before it is answered. If the request's claim was won, it is kept if
    /// the request was decided, and otherwise given back.
    ///
    /// It waits for the shard's turn.
    pub fn finish<R: Wait>(&self, rt: &R, pass: &mut Pass, checked: Checked) -> Answer
        requires held { Holds self.now pass.old checked }
        requires passed { HasPassed self.now.issuer checked }
        ensures free { IsFree self.now pass.new }
        ensures turn { Finishes self.now.issuer checked (logs_of pass.old) result (logs_of pass.new) }
        ensures claims { claims_of pass.new ≡ claims_after checked result (claims_of pass.old) }
        ensures names { (claims_of pass.new).names ≡ (claims_of pass.old).names }
    {
        match checked {
            Checked::Decide {
                found,
                claim: Claim::Won,
            } => self.decide_won(rt, pass, &found),
            Checked::Decide {
                found,
                claim: Claim::Lost,
            } => self.decide_lost(rt, pass, &found),
            Checked::Order(found) => self.order(rt, pass, &found),
        }
    }

    /// The answer to a request whose claim was won.
    fn decide_won<R: Wait>(&self, rt: &R, pass: &mut Pass, found: &CheckedRequest) -> Answer
        requires held { HasClaimed self.now pass.old found.now.card found.now.request.atc }
        requires passed { HasPassed self.now.issuer (Decide found.now Won) }
        ensures free { IsFree self.now pass.new }
        ensures turn { Finishes self.now.issuer (Decide found.now Won) (logs_of pass.old) result (logs_of pass.new) }
        ensures claims { claims_of pass.new
            ≡ settled (standing_by result) found.now.card found.now.request.atc (claims_of pass.old) }
    {
        let answer = self
            .turns
            .decide(rt, &mut pass.turns, &self.issuer, found, true);
        self.settle(&mut pass.claims, found, &answer);
        answer
    }

    /// Keeps the claim of a request that was decided, and gives back that of another.
    fn settle(&self, seat: &mut ClaimSeat, found: &CheckedRequest, answer: &Answer)
        requires seat { IsSeatOfWords seat.old self.now.claims }
        requires card { found.now.card < cards_of self.now.claims }
        requires held { HasOpen found.now.card found.now.request.atc (view_of_claims seat.old) }
        ensures seat { IsSeatOfWords seat.new self.now.claims }
        ensures view { view_of_claims seat.new
            ≡ settled (standing_by answer.now) found.now.card found.now.request.atc (view_of_claims seat.old) }
    {
        let counter = found.request.parts().atc;
        match answer {
            Answer::Fresh {
                shard: _,
                place: _,
                reply: _,
            } => self.claims.mark_kept(seat, found.card, counter),
            _ => self.claims.release(seat, found.card, counter),
        }
    }

    /// The answer to a request whose claim was lost.
    fn decide_lost<R: Wait>(&self, rt: &R, pass: &mut Pass, found: &CheckedRequest) -> Answer
        requires free { IsFree self.now pass.old }
        requires passed { HasPassed self.now.issuer (Decide found.now Lost) }
        ensures free { IsFree self.now pass.new }
        ensures turn { Finishes self.now.issuer (Decide found.now Lost) (logs_of pass.old) result (logs_of pass.new) }
        ensures same { claims_of pass.new ≡ claims_of pass.old }
    {
        self.turns
            .decide(rt, &mut pass.turns, &self.issuer, found, false)
    }

    /// The answer to an order.
    fn order<R: Wait>(&self, rt: &R, pass: &mut Pass, found: &CheckedOrder) -> Answer
        requires free { IsFree self.now pass.old }
        requires at_hand { IsOrderAtHand self.now.issuer found.now }
        ensures free { IsFree self.now pass.new }
        ensures turn { OrdersInTurn self.now.issuer found.now (logs_of pass.old) result (logs_of pass.new) }
        ensures same { claims_of pass.new ≡ claims_of pass.old }
    {
        self.turns.order(rt, &mut pass.turns, &self.issuer, found)
    }
}
