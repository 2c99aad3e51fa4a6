//! What is looked up for a line before a key is used.
ghost use Rattle.std.specs.Prelude.{◌≡◌, ◌<◌, length, IfOk};
ghost use Rattle.std.specs.Result.{result_map_both};
ghost use Rattle.card_history.specs.declared.decision.Asked.TheVariants.{Decide};
ghost use Rattle.issuer_base.specs.declared.request.Suite.TheVariants.{TripleDes};
ghost use Rattle.cryptogram_in.specs.Checks.{DesCheck, right_session};
ghost use Rattle.issuer_setup.specs.IssuerSetup.{Setup};
ghost use Rattle.line_checks.specs.Reading.{checked};
ghost use Rattle.line_checks.specs.AtHand.{IsRequestAtHand};
ghost use Rattle.line_checks.specs.LookedUp.{verdict_of, AppendsOne, HasKeysAtHand, IsCheckFor, IsRequestAgain};

use crate::checked::{CheckedOrder, CheckedRequest};
use cryptogram_in::{DesChecks, holds};
use des_block::Key16;
use issuer_base::{Refusal, Request, Suite};
use issuer_setup::{Issuer, KeySlot};
use key_derive::SessionKey;

/// What a line asks of a card that the issuer has, before a request's cryptogram is checked.
#[derive(Drop)]
pub enum LookedUp {
    /// A request, which is to be decided if its cryptogram is right.
    Request(LookedUpRequest),

    /// An order for a card, which passed every check.
    Order(CheckedOrder),
}

/// A request that goes online with a known key set.
#[derive(Drop)]
pub struct LookedUpRequest {
    pub request: Request,

    /// The number of its card.
    pub card: u32,

    /// Where the issuer has the card's master keys from the key set that the request names.
    pub slot: KeySlot,

    /// What is known of its cryptogram.
    pub verdict: CryptogramVerdict,
}

/// What is known of a request's cryptogram before its turn.
#[derive(Clone, Copy)]
pub enum CryptogramVerdict {
    /// Nothing: it is checked in its turn.
    Unchecked,

    /// It is right, and this is the session key of the request's ATC. The card's keys are of triple DES.
    Right(Key16),

    /// It is wrong.
    Wrong,
}

impl LookedUpRequest {
    /// Checks the request's cryptogram under the card's keys, unless its verdict is known
    /// ([`check_in_lanes`](crate::check_in_lanes)).
    #[inline]
    pub fn check(&self, issuer: &Issuer) -> Result<CheckedRequest, Refusal>
        requires { HasKeysAtHand issuer.now self.now }
        ensures request { result_map_both (λ found. Decide found.request) (λ refusal. refusal) result
            ≡ checked issuer.now self.now.request }
        ensures at_hand { IfOk result (IsRequestAtHand issuer.now) }
    {
        let key = match self.verdict {
            CryptogramVerdict::Unchecked => return self.check_alone(issuer),
            CryptogramVerdict::Wrong => return Err(Refusal::BadCryptogram),
            CryptogramVerdict::Right(key) => key,
        };
        Ok(CheckedRequest {
            request: self.request,
            card: self.card,
            keys: issuer.keys(self.slot),
            session: SessionKey::of(Suite::TripleDes, key),
        })
    }

    /// Checks the request's cryptogram under the card's keys.
    #[tactic(auto, unfolding(cryptogram_in::specs::Cryptogram::application_cryptogram))]
    #[inline(never)]
    fn check_alone(&self, issuer: &Issuer) -> Result<CheckedRequest, Refusal>
        requires { HasKeysAtHand issuer.now self.now }
        ensures request { result_map_both (λ found. Decide found.request) (λ refusal. refusal) result
            ≡ checked issuer.now self.now.request }
        ensures at_hand { IfOk result (IsRequestAtHand issuer.now) }
    {
        let secrets = issuer.secrets(self.slot);
        let session = secrets.session(self.slot.suite(), self.request.parts().atc);
        if !holds(&session, &self.request) {
            return Err(Refusal::BadCryptogram);
        }
        Ok(CheckedRequest {
            request: self.request,
            card: self.card,
            keys: issuer.keys(self.slot),
            session,
        })
    }

    /// Adds the check of the request's cryptogram, if the card's key is of triple DES; otherwise a check of zeros.
    pub(crate) fn add_check(&self, issuer: &Issuer, checks: &mut DesChecks)
        requires ready { HasKeysAtHand issuer.now self.now }
        requires room { length checks.old < 128 }
        ensures { AppendsOne (IsCheckFor issuer.now self.now) checks.old checks.new }
    {
        if !self.request.suite().goes_in_lanes() {
            return checks.push_blank();
        }
        match issuer.secrets(self.slot).ac(self.slot.suite()) {
            Some(key) => checks.push(key, &self.request),
            None => checks.push_blank(),
        }
    }

    /// Keeps the verdict of the check that gave this session key, or none, if the card's key is of triple DES.
    pub(crate) fn keep_verdict(&mut self, session: Option<Key16>)
        ensures { (issuer : Setup) (check : DesCheck) → HasKeysAtHand issuer self.old → IsCheckFor issuer self.old check
            → session ≡ right_session check → IsRequestAgain issuer self.old self.new }
    {
        if self.request.suite().goes_in_lanes() {
            self.verdict = verdict_of(session);
        }
    }
}

/// The verdict of a check that gave this session key, or none.
fn verdict_of(session: Option<Key16>) -> CryptogramVerdict
    ensures { result ≡ verdict_of session }
{
    match session {
        Some(key) => CryptogramVerdict::Right(key),
        None => CryptogramVerdict::Wrong,
    }
}
