//! The answer to a line, and what is shown of a card.
ghost use Rattle.std.specs.Prelude.{◌≡◌, ◌<◌, length};
ghost use Rattle.line_checks.specs.Reading.{reading};
ghost use Rattle.shared_shards.specs.Turned.{ShowsInTurn};
ghost use Rattle.shared_laws.specs.Authorising.{Authorises, LineSeenIsAnswered};
ghost use Rattle.host_calls.specs.Passes.{claims_of, logs_of, IsFree};

use crate::host::Host;
use crate::pass::Pass;
use card_history::CardView;
use issuer_base::{Answer, Store};
use std::sync::Wait;

impl<S: Store> Host<S> {
    /// The answer to a line, without its newline: `pre_check`, and then `finish`. It waits for the shard's turn.
    pub fn authorise<R: Wait>(&self, rt: &R, pass: &mut Pass, line: &[u8]) -> Answer
        requires free { IsFree self.now pass.old }
        ensures free { IsFree self.now pass.new }
        ensures answers { Authorises self.now.issuer (reading self.now.issuer line.now)
            (claims_of pass.old) (logs_of pass.old) result (claims_of pass.new) (logs_of pass.new) }
        ensures seen { LineSeenIsAnswered self.now.issuer (reading self.now.issuer line.now) (logs_of pass.old) result }
        ensures names { (claims_of pass.new).names ≡ (claims_of pass.old).names }
    {
        match self.pre_check(pass, line) {
            Ok(checked) => self.finish(rt, pass, checked),
            Err(refusal) => Answer::Refused(refusal),
        }
    }

    /// What the host shows of the card with this number, by its shard's log as it is when the turn comes. It waits for
    /// the turn. Nothing is appended.
    pub fn show<R: Wait>(&self, rt: &R, pass: &mut Pass, card: u32) -> CardView
        requires free { IsFree self.now pass.old }
        requires card { card < length self.now.issuer.cards }
        ensures free { IsFree self.now pass.new }
        ensures shown { ShowsInTurn self.now.issuer card (logs_of pass.old) result (logs_of pass.new) }
        ensures names { (claims_of pass.new).names ≡ (claims_of pass.old).names }
        ensures same { claims_of pass.new ≡ claims_of pass.old }
    {
        self.turns.show(rt, &mut pass.turns, &self.issuer, card)
    }
}
