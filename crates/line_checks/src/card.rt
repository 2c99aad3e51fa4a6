//! The look-up of a command and of a status for a card. Each is a call of its own, so that requests don't pay for its
//! memory.
ghost use Rattle.std.specs.Prelude.{◌≡◌, ◌≢◌, ◌≤◌, Err, IfOk, IfErr};
ghost use Rattle.issuer_base.specs.CardNames.{named};
ghost use Rattle.issuer_base.specs.declared.answer.Refusal.TheVariants.{BadCryptogram};
ghost use Rattle.script_commands.specs.Commands.{command_of};
ghost use Rattle.issuer_setup.specs.CardList.{number_of};
ghost use Rattle.line_checks.specs.Reading.{command_for, status_for};
ghost use Rattle.line_checks.specs.LookedUp.{IsOrderSought};

use crate::checked::{CheckedCommand, CheckedOrder, CheckedStatus};
use crate::looked_up::LookedUp;
use issuer_base::{MAX_STATUS, Pan, Refusal};
use issuer_setup::Issuer;
use script_commands::read_command;

/// Parses the bytes as an issuer script command for the card with this account and sequence number.
#[inline(never)]
pub(crate) fn look_up_command(
    issuer: &Issuer,
    pan: Pan,
    psn: u8,
    bytes: &[u8],
) -> Result<LookedUp, Refusal>
    ensures sought { IfOk result (IsOrderSought issuer.now
        (command_for (named pan psn) (number_of (named pan psn) issuer.now.cards) (command_of bytes.now))) }
    ensures refused { IfErr result (λ refusal. (command_for (named pan psn)
        (number_of (named pan psn) issuer.now.cards) (command_of bytes.now) ≡ Err refusal)
        × (refusal ≢ BadCryptogram)) }
{
    let card = issuer.card(&pan, psn).ok_or(Refusal::UnknownCard)?;
    let Ok(command) = read_command(bytes) else {
        return Err(Refusal::BadCommand);
    };
    Ok(LookedUp::Order(CheckedOrder::Command(CheckedCommand {
        pan,
        psn,
        command,
        card,
    })))
}

/// Looks up the card with this account and sequence number, which is to have a status.
#[inline(never)]
pub(crate) fn look_up_status(
    issuer: &Issuer,
    pan: Pan,
    psn: u8,
    status: u8,
) -> Result<LookedUp, Refusal>
    requires { status ≤ MAX_STATUS }
    ensures sought { IfOk result (IsOrderSought issuer.now
        (status_for (named pan psn) (number_of (named pan psn) issuer.now.cards) status)) }
    ensures refused { IfErr result (λ refusal. (status_for (named pan psn)
        (number_of (named pan psn) issuer.now.cards) status ≡ Err refusal) × (refusal ≢ BadCryptogram)) }
{
    let card = issuer.card(&pan, psn).ok_or(Refusal::UnknownCard)?;
    Ok(LookedUp::Order(CheckedOrder::Status(CheckedStatus {
        pan,
        psn,
        status,
        card,
    })))
}
