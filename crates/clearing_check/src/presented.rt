//! What a clearing line presents, looked up before its cryptogram is checked.
ghost use Rattle.std.specs.Prelude.{◌≡◌, ◌<◌, ◌≤◌, length, Result, Ok, Err, Some, IsSome, IfOk, IfErr, if◌then◌else◌};
ghost use Rattle.issuer_base.specs.declared.answer.Refusal.TheVariants.{BadCryptogram};
ghost use Rattle.chip_request.specs.Reading.{request_of};
ghost use Rattle.cryptogram_in.specs.Checks.{DesCheck, right_session};
ghost use Rattle.clearing_check.specs.ClearingLine.{Presented, of_data, of_card, presented, IsSought, IsLookUp, IsCheckOf};
ghost use Rattle.clearing_check.specs.declared.verdict.Verdict.{Verdict};
ghost use Rattle.clearing_check.specs.declared.verdict.Verdict.TheVariants.{Refused};
ghost use Rattle.card_history.specs.Records.{card_of};
ghost use Rattle.issuer_setup.specs.CardList.{number_of};
ghost use Rattle.issuer_setup.specs.IssuerSetup.{Setup};
ghost use Rattle.issuer_setup.specs.KeySlots.{keys_at};
ghost use Rattle.line_checks.specs.LookedUp.{verdict_of, AppendsOne, IsCheckFor};
ghost use Rattle.key_derive.specs.declared.card.CardKeys.{CardKeys};
ghost use Rattle.line_checks.specs.Reading.{is_right};
ghost use Rattle.line_checks.specs.declared.looked_up.CryptogramVerdict.TheVariants.{Unchecked};

use crate::verdict::{Verdict, is_final};
use chip_request::{LineForm, read_line_into, read_request};
use cryptogram_in::{DesChecks, holds};
use des_block::Key16;
use issuer_base::{MAX_CHIP_BYTES, Refusal, Request};
use issuer_setup::{Issuer, KeySlot};
use line_checks::{CryptogramVerdict, LookedUpRequest, refusal_of};

/// Looks up what a clearing line, without its newline, presents; or gives the verdict where it fails a check before that
/// of its cryptogram. So it uses no key. The line's data is written to the start of the caller's buffer; its contents
/// before and after don't matter.
pub(crate) fn look_up(
    issuer: &Issuer,
    line: &[u8],
    data: &mut [u8; MAX_CHIP_BYTES],
) -> Result<LookedUpRequest, Verdict>
    ensures { IsLookUp issuer.now (presented issuer.now line.now) result }
{
    match read_line_into(line, data) {
        Ok(LineForm::Ask { count }) => look_up_data(issuer, &data[..count]),
        Ok(_) => Err(Verdict::Refused(Refusal::BadLine(1))),
        Err(column) => Err(Verdict::Refused(Refusal::BadLine(column))),
    }
}

/// Parses chip data as a request, and looks up its card's keys.
fn look_up_data(issuer: &Issuer, bytes: &[u8]) -> Result<LookedUpRequest, Verdict>
    requires { length bytes.now ≤ MAX_CHIP_BYTES }
    ensures { IsLookUp issuer.now (of_data issuer.now (request_of bytes.now)) result }
{
    let request = match read_request(bytes) {
        Ok(request) => request,
        Err(fault) => return Err(Verdict::Refused(refusal_of(fault))),
    };
    let (card, slot) = find_keys(issuer, &request)?;
    Ok(LookedUpRequest {
        request,
        card,
        slot,
        verdict: CryptogramVerdict::Unchecked,
    })
}

/// The number of a request's card, and the slot of the card's keys from the key set that the request names. In this
/// order: its card is known, its cryptogram ends a transaction, and its key set is known.
fn find_keys(issuer: &Issuer, request: &Request) -> Result<(u32, KeySlot), Verdict>
    ensures known { IfOk result (λ found. IsSought issuer.now
        (of_card issuer.now (number_of (card_of request.now) issuer.now.cards) request.now)
        (record { request = request.now; card = found.0; slot = found.1; verdict = Unchecked })) }
    ensures refused { IfErr result (λ verdict.
        of_card issuer.now (number_of (card_of request.now) issuer.now.cards) request.now ≡ Err verdict) }
{
    let parts = request.parts();
    let Some(card) = issuer.card(&parts.pan, parts.psn) else {
        return Err(Verdict::Refused(Refusal::UnknownCard));
    };
    if !is_final(request) {
        return Err(Verdict::WrongKind);
    }
    let Some(slot) = issuer.key_slot(card, request) else {
        return Err(Verdict::Refused(Refusal::UnknownKey(request.dki())));
    };
    Ok((card, slot))
}

/// Whether the request's cryptogram is the one that the card's keys give, by its verdict if that is known.
pub(crate) fn is_right(issuer: &Issuer, sought: &LookedUpRequest) -> bool
    requires { IsSome (keys_at issuer.now sought.now.slot) }
    ensures { (presented : Result Presented Verdict) → IsSought issuer.now presented sought.now
        → presented ≡ (if result then Ok (record { card = sought.now.card; request = sought.now.request })
        else Err (Refused BadCryptogram)) }
{
    match sought.verdict {
        CryptogramVerdict::Unchecked => is_right_alone(issuer, sought),
        CryptogramVerdict::Right(_) => true,
        CryptogramVerdict::Wrong => false,
    }
}

/// Whether the request's cryptogram is the one that the card's keys give.
#[tactic(auto, unfolding(cryptogram_in::specs::Cryptogram::application_cryptogram))]
#[inline(never)]
fn is_right_alone(issuer: &Issuer, sought: &LookedUpRequest) -> bool
    requires { IsSome (keys_at issuer.now sought.now.slot) }
    ensures { (keys : CardKeys) → keys_at issuer.now sought.now.slot ≡ Some keys
        → result ≡ is_right keys sought.now.request }
{
    let session = issuer.session(sought.slot, sought.request.parts().atc);
    holds(&session, &sought.request)
}

/// Whether it is a request whose card's key is of triple DES.
pub(crate) fn goes_in_lanes(found: &Result<LookedUpRequest, Verdict>) -> bool {
    match found {
        Ok(sought) => sought.request.suite().goes_in_lanes(),
        Err(_) => false,
    }
}

/// Adds the check of a request's cryptogram, if its card's key is of triple DES; otherwise a check of zeros.
pub(crate) fn add_check(
    issuer: &Issuer,
    found: &Result<LookedUpRequest, Verdict>,
    checks: &mut DesChecks,
)
    requires known { IfOk found.now (λ sought. IsSome (keys_at issuer.now sought.slot)) }
    requires room { length checks.old < 128 }
    ensures { AppendsOne (IsCheckOf issuer.now found.now) checks.old checks.new }
{
    let Ok(sought) = found else {
        return checks.push_blank();
    };
    if !sought.request.suite().goes_in_lanes() {
        return checks.push_blank();
    }
    match issuer.secrets(sought.slot).ac(sought.slot.suite()) {
        Some(key) => checks.push(key, &sought.request),
        None => checks.push_blank(),
    }
}

/// Keeps the verdict of the check that gave this session key, or none, if it is a request whose card's key is of triple
/// DES.
pub(crate) fn keep_verdict(found: &mut Result<LookedUpRequest, Verdict>, session: Option<Key16>)
    ensures verdict { (issuer : Setup) (presented : Result Presented Verdict) (check : DesCheck)
        → IsLookUp issuer presented found.old → IsCheckOf issuer found.old check → session ≡ right_session check
        → IsLookUp issuer presented found.new }
    ensures same { (issuer : Setup) (check : DesCheck) → IsCheckOf issuer found.old check
        → IsCheckOf issuer found.new check }
{
    if let Ok(sought) = found {
        keep_of_request(sought, session);
    }
}

/// Keeps the verdict of the check that gave this session key, or none, if the card's key is of triple DES.
fn keep_of_request(sought: &mut LookedUpRequest, session: Option<Key16>)
    ensures verdict { (issuer : Setup) (presented : Result Presented Verdict) (check : DesCheck)
        → IsSought issuer presented sought.old → IsCheckFor issuer sought.old check → session ≡ right_session check
        → IsSought issuer presented sought.new }
    ensures same { (issuer : Setup) (check : DesCheck) → IsCheckFor issuer sought.old check
        → IsCheckFor issuer sought.new check }
{
    if sought.request.suite().goes_in_lanes() {
        sought.verdict = verdict_of(session);
    }
}

/// The verdict of a check that gave this session key, or none.
fn verdict_of(session: Option<Key16>) -> CryptogramVerdict
    ensures { result ≡ verdict_of session }
{
    match session {
        Some(key) => CryptogramVerdict::Right(key),
        None => CryptogramVerdict::Wrong,
    }
}
