//! A reply arrives at its card.
ghost use Rattle.std.specs.Prelude.{◌≡◌, take, IfOk};
ghost use Rattle.card_model.specs.CardSteps.{authenticated};
ghost use Rattle.world_play.specs.Handing.{answer_in, spoil_first};
ghost use Rattle.world_play.specs.Play.{given_card, given_tally, with_finding};
ghost use Rattle.world_play.specs.Room.{CountsWithin, most_counted};

use crate::reply::{answer_in, run_all, run_first, spoiled};
use crate::summary::Summary;
use card_model::Card;
use issuer_base::{NoMemory, Reply};

/// The card gets the issuer's answer in the reply and, if it accepts that, all commands.
pub(crate) fn hand(card: &mut Card, tally: &mut Summary, reply: &Reply) -> Result<(), NoMemory>
    requires { CountsWithin most_counted tally.old }
    ensures card { IfOk result (λ _. card.new ≡ given_card (λ answer. answer) (λ commands. commands) reply.now
        (answer_in reply.now.bytes.items) card.old) }
    ensures tally { IfOk result (λ _. tally.new ≡ given_tally (λ answer. answer) reply.now
        (answer_in reply.now.bytes.items) card.old tally.old) }
{
    let bytes = reply.bytes.as_slice();
    let Some(answer) = answer_in(bytes) else {
        return Ok(());
    };
    if !is_right(card, tally, answer, reply.arc) {
        return Ok(());
    }
    run_all(card, bytes)
}

/// The card gets the issuer's answer in the reply and, if it accepts that, the first command.
pub(crate) fn hand_first(
    card: &mut Card,
    tally: &mut Summary,
    reply: &Reply,
) -> Result<(), NoMemory>
    requires { CountsWithin most_counted tally.old }
    ensures card { IfOk result (λ _. card.new ≡ given_card (λ answer. answer) (take 1) reply.now
        (answer_in reply.now.bytes.items) card.old) }
    ensures tally { IfOk result (λ _. tally.new ≡ given_tally (λ answer. answer) reply.now
        (answer_in reply.now.bytes.items) card.old tally.old) }
{
    let bytes = reply.bytes.as_slice();
    let Some(answer) = answer_in(bytes) else {
        return Ok(());
    };
    if !is_right(card, tally, answer, reply.arc) {
        return Ok(());
    }
    run_first(card, bytes)
}

/// The card gets a spoiled answer and, if it accepts that, all commands.
pub(crate) fn hand_spoiled(
    card: &mut Card,
    tally: &mut Summary,
    reply: &Reply,
) -> Result<(), NoMemory>
    requires { CountsWithin most_counted tally.old }
    ensures card { IfOk result (λ _. card.new ≡ given_card spoil_first (λ commands. commands) reply.now
        (answer_in reply.now.bytes.items) card.old) }
    ensures tally { IfOk result (λ _. tally.new ≡ given_tally spoil_first reply.now
        (answer_in reply.now.bytes.items) card.old tally.old) }
{
    let bytes = reply.bytes.as_slice();
    let Some(answer) = answer_in(bytes) else {
        return Ok(());
    };
    if !is_right(card, tally, spoiled(answer)?.as_slice(), reply.arc) {
        return Ok(());
    }
    run_all(card, bytes)
}

/// Whether the card accepts the issuer's answer, which is counted.
#[tactic(auto, unfolding(card_model::specs::CardSteps::CardStep))]
fn is_right(card: &mut Card, tally: &mut Summary, answer: &[u8], arc: [u8; 2]) -> bool
    requires { CountsWithin most_counted tally.old }
    ensures card { (result, card.new) ≡ authenticated card.old answer.now arc }
    ensures tally { tally.new ≡ with_finding tally.old result }
{
    let right = card.authenticate(answer, arc);
    if right {
        tally.authenticated += 1;
    } else {
        tally.unauthenticated += 1;
    }
    right
}
