//! What a terminal finds in a reply, and gives to the card.
ghost use Rattle.std.specs.Prelude.{◌≡◌, take, option_map, IfOk};
ghost use Rattle.world_play.specs.Handing.{value_of, values_of, answer_in, commands_in, spoil_first, after_commands};

use arrayvec::ArrayVec;
use card_model::Card;
use issuer_base::{MAX_REPLY_BYTES, NoMemory};
use tlv_objects::Objects;

/// The tag of the issuer's answer: EMV 4.3 Book 3, Annex A.
const ISSUER_ANSWER: u32 = 0x91;

/// The tag of the script template.
const TEMPLATE: u32 = 0x72;

/// The tag of a script command.
const COMMAND: u32 = 0x86;

/// The value of the first object with this tag, or none.
fn value_of(bytes: &[u8], tag: u32) -> Option<&[u8]>
    ensures { option_map (λ value. value.now) result ≡ value_of tag bytes.now }
{
    for item in Objects::new(bytes) {
        let Ok(object) = item else {
            return None;
        };
        if object.tag == tag {
            return Some(object.value);
        }
    }
    None
}

/// The issuer's answer in a reply.
pub(crate) fn answer_in(reply: &[u8]) -> Option<&[u8]>
    ensures { option_map (λ value. value.now) result ≡ answer_in reply.now }
{
    value_of(reply, ISSUER_ANSWER)
}

/// An issuer's answer with the last bit of its first byte changed.
pub(crate) fn spoiled(answer: &[u8]) -> Result<ArrayVec<u8, MAX_REPLY_BYTES>, NoMemory>
    ensures { IfOk result (λ copy. copy.items ≡ spoil_first answer.now) }
{
    let mut copy = ArrayVec::new();
    let Ok(()) = copy.try_extend_from_slice(answer) else {
        return Err(NoMemory);
    };
    if let Some(first) = copy.as_mut_slice().first_mut() {
        *first ^= 0x01;
    }
    Ok(copy)
}

/// Gives the card all commands of a reply, in order.
pub(crate) fn run_all(card: &mut Card, reply: &[u8]) -> Result<(), NoMemory>
    ensures { IfOk result (λ _. card.new ≡ after_commands card.old (commands_in reply.now)) }
{
    let Some(template) = value_of(reply, TEMPLATE) else {
        return Ok(());
    };
    run_template(card, template)
}

/// Gives the card all commands of a template, in order.
#[tactic(auto, unfolding(card_model::specs::CardSteps::CardStep))]
fn run_template(card: &mut Card, template: &[u8]) -> Result<(), NoMemory>
    ensures { IfOk result (λ _. card.new ≡ after_commands card.old (values_of 0x86 template.now)) }
{
    for item in Objects::new(template) {
        let Ok(object) = item else {
            return Ok(());
        };
        if object.tag == COMMAND {
            card.run(object.value)?;
        }
    }
    Ok(())
}

/// Gives the card the first command of a reply alone.
#[tactic(auto, using(crate::proofs::Giving::first_value), unfolding(card_model::specs::CardSteps::CardStep))]
pub(crate) fn run_first(card: &mut Card, reply: &[u8]) -> Result<(), NoMemory>
    ensures { IfOk result (λ _. card.new ≡ after_commands card.old (take 1 (commands_in reply.now))) }
{
    let Some(template) = value_of(reply, TEMPLATE) else {
        return Ok(());
    };
    let Some(command) = value_of(template, COMMAND) else {
        return Ok(());
    };
    card.run(command)?;
    Ok(())
}
