//! The check of a line by its form.
ghost use Rattle.std.specs.Prelude.{◌≡◌, ◌≢◌, Err, IfOk, IfErr};
ghost use Rattle.std.specs.Result.{result_map_both};
ghost use Rattle.issuer_base.specs.declared.answer.Refusal.TheVariants.{BadCryptogram};
ghost use Rattle.line_checks.specs.Reading.{reading};
ghost use Rattle.line_checks.specs.AtHand.{asked_of, IsAtHand};
ghost use Rattle.line_checks.specs.LookedUp.{IsSought};

use crate::card::{look_up_command, look_up_status};
use crate::checked::CheckedLine;
use crate::looked_up::{CryptogramVerdict, LookedUp, LookedUpRequest};
use crate::request::{find_keys, refusal_of};
use chip_request::{LineForm, read_line_into, read_request};
use issuer_base::{MAX_CHIP_BYTES, Refusal};
use issuer_setup::Issuer;

/// What a line, without its newline, asks of this issuer, or its first fault. It doesn't allocate.
pub fn check_line(issuer: &Issuer, line: &[u8]) -> Result<CheckedLine, Refusal>
    ensures asked { result_map_both asked_of (λ refusal. refusal) result ≡ reading issuer.now line.now }
    ensures at_hand { IfOk result (IsAtHand issuer.now) }
{
    let mut data = [0; MAX_CHIP_BYTES];
    match look_up(issuer, line, &mut data)? {
        LookedUp::Request(sought) => Ok(CheckedLine::Decide(sought.check(issuer)?)),
        LookedUp::Order(found) => Ok(CheckedLine::Order(found)),
    }
}

/// Looks up what a line, without its newline, asks of this issuer: all of [`check_line`] but the check of a request's
/// cryptogram. So it uses no key. The line's data is written to the start of the caller's buffer; its contents before
/// and after don't matter. It doesn't allocate.
#[inline(always)]
pub fn look_up(
    issuer: &Issuer,
    line: &[u8],
    data: &mut [u8; MAX_CHIP_BYTES],
) -> Result<LookedUp, Refusal>
    ensures sought { IfOk result (IsSought issuer.now line.now) }
    ensures refused { IfErr result (λ refusal. (reading issuer.now line.now ≡ Err refusal)
        × (refusal ≢ BadCryptogram)) }
{
    let form = match read_line_into(line, data) {
        Ok(form) => form,
        Err(column) => return Err(Refusal::BadLine(column)),
    };
    // Each arm returns by itself: the value of a `match` would be one more copy of the request.
    match form {
        LineForm::Ask { count } => {
            let request = match read_request(&data[..count]) {
                Ok(request) => request,
                Err(fault) => return Err(refusal_of(fault)),
            };
            let (card, slot) = find_keys(issuer, &request)?;
            return Ok(LookedUp::Request(LookedUpRequest {
                request,
                card,
                slot,
                verdict: CryptogramVerdict::Unchecked,
            }));
        }
        LineForm::Queue { pan, psn, count } => {
            return look_up_command(issuer, pan, psn, &data[..count]);
        }
        LineForm::Set { pan, psn, status } => return look_up_status(issuer, pan, psn, status),
    }
}
