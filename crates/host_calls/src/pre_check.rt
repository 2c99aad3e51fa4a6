//! The check of a line before its turn.
ghost use Rattle.std.specs.Prelude.{◌≡◌, ℕ, List, IfOk, MatchResult};
ghost use Rattle.std.specs.Result.{result_map_both};
ghost use Rattle.line_checks.specs.LookedUp.{IsLookUp};
ghost use Rattle.line_checks.specs.Reading.{reading};
ghost use Rattle.host_calls.specs.Passes.{claims_of, logs_of, IsFree, Holds};
ghost use Rattle.shared_laws.specs.PreChecks.{HasPassed, ChecksRequest, IsAskedBy, PreChecks};
ghost use Rattle.claim_words.specs.declared.claim_words.Claim.TheVariants.{Won};
ghost use Rattle.shared_laws.specs.declared.checked.Checked.TheVariants.{Decide};

use crate::host::Host;
use crate::pass::Pass;
use claim_words::Claim;
use issuer_base::{MAX_CHIP_BYTES, Refusal, Store, WINDOW};
use line_checks::{CheckedRequest, LookedUp, look_up};
use shared_laws::Checked;

impl<S: Store> Host<S> {
    /// Checks a line, without its newline, as far as that needs no shard. It returns what the line asks of a card of
    /// the issuer, or the line's first fault. A request whose ATC is below the window of its card's top is refused.
    /// Otherwise the ATC is claimed, won or lost. It never waits.
    ///
    /// What it returns must be finished with the same pass.
    pub fn pre_check(&self, pass: &mut Pass, line: &[u8]) -> Result<Checked, Refusal>
        requires free { IsFree self.now pass.old }
        ensures checks { PreChecks self.now.issuer (reading self.now.issuer line.now)
            (claims_of pass.old) result (claims_of pass.new) }
        ensures names { (claims_of pass.new).names ≡ (claims_of pass.old).names }
        ensures logs { logs_of pass.new ≡ logs_of pass.old }
        ensures asked { IfOk result (IsAskedBy self.now.issuer (reading self.now.issuer line.now)) }

        // If it refuses the line, the pass is still free; otherwise the pass holds what was checked.
        ensures held { MatchResult result (Holds self.now pass.new) (λ _. IsFree self.now pass.new) }
    {
        let mut data = [0; MAX_CHIP_BYTES];
        let found = look_up(&self.issuer, line, &mut data);
        self.pre_check_found(pass, &found)
    }

    /// Checks a line that was looked up ahead, as [`Host::pre_check`] does.
    pub fn pre_check_found(
        &self,
        pass: &mut Pass,
        found: &Result<LookedUp, Refusal>,
    ) -> Result<Checked, Refusal>
        requires { IsFree self.now pass.old × ((line : List ℕ) × IsLookUp self.now.issuer line found.now) }

        // The clauses of `pre_check`, for each line of which this is the look-up.
        ensures checks { (line : List ℕ) → IsLookUp self.now.issuer line found.now
            → PreChecks self.now.issuer (reading self.now.issuer line)
            (claims_of pass.old) result (claims_of pass.new) }
        ensures names { (claims_of pass.new).names ≡ (claims_of pass.old).names }
        ensures logs { logs_of pass.new ≡ logs_of pass.old }
        ensures asked { (line : List ℕ) → IsLookUp self.now.issuer line found.now
            → IfOk result (IsAskedBy self.now.issuer (reading self.now.issuer line)) }
        ensures held { MatchResult result (Holds self.now pass.new) (λ _. IsFree self.now pass.new) }
    {
        let sought = match found {
            Ok(LookedUp::Request(sought)) => sought,
            Ok(LookedUp::Order(found)) => return Ok(Checked::Order(found.copy())),
            Err(refusal) => return Err(*refusal),
        };
        let found = sought.check(&self.issuer)?;
        let claim = self.claim(pass, &found)?;
        Ok(Checked::Decide { found, claim })
    }

    /// Claims the ATC of a checked request, unless it is below the window of its card's top.
    fn claim(&self, pass: &mut Pass, found: &CheckedRequest) -> Result<Claim, Refusal>
        requires free { IsFree self.now pass.old }
        requires passed { HasPassed self.now.issuer (Decide found.now Won) }
        ensures checks { ChecksRequest found.now.card found.now.request.atc (claims_of pass.old)
            (result_map_both (Decide found.now) (λ refusal. refusal) result) (claims_of pass.new) }
        ensures names { (claims_of pass.new).names ≡ (claims_of pass.old).names }
        ensures logs { logs_of pass.new ≡ logs_of pass.old }
        ensures held { MatchResult result (λ claim. Holds self.now pass.new (Decide found.now claim))
            (λ _. IsFree self.now pass.new) }
    {
        let counter = found.request.parts().atc;
        if let Some(top) = self.claims.top(&mut pass.claims, found.card) {
            if u32::from(counter) + u32::from(WINDOW) <= u32::from(top) {
                return Err(Refusal::Below(top));
            }
        }
        Ok(self.claims.claim(&mut pass.claims, found.card, counter))
    }
}
