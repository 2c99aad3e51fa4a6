//! The look-up of the request in chip data.
ghost use Rattle.std.specs.Prelude.{◌≡◌, ◌≢◌, Err, IfOk, IfErr};
ghost use Rattle.std.specs.Result.{result_map_both};
ghost use Rattle.card_history.specs.declared.decision.Asked.TheVariants.{Decide};
ghost use Rattle.issuer_base.specs.declared.answer.Refusal.TheVariants.{BadCryptogram};
ghost use Rattle.line_checks.specs.Reading.{refusal_of, checked};
ghost use Rattle.line_checks.specs.AtHand.{IsRequestAtHand};
ghost use Rattle.line_checks.specs.LookedUp.{HasKeysAtHand};
ghost use Rattle.line_checks.specs.declared.looked_up.CryptogramVerdict.TheVariants.{Unchecked};

use crate::checked::CheckedRequest;
use crate::looked_up::{CryptogramVerdict, LookedUpRequest};
use chip_request::RequestFault;
use issuer_base::{Refusal, Request};
use issuer_setup::{Issuer, KeySlot};

/// The refusal of a line for a fault in its chip data.
pub fn refusal_of(fault: RequestFault) -> Refusal
    ensures fault { result ≡ refusal_of fault }
    ensures other { result ≢ BadCryptogram }
{
    match fault {
        RequestFault::BadTlv(place) => Refusal::BadTlv(place),
        RequestFault::Missing(tag) => Refusal::Missing(tag),
        RequestFault::BadField(tag) => Refusal::BadField(tag),
        RequestFault::Repeated(tag) => Refusal::Repeated(tag),
    }
}

/// Checks a request by the issuer's cards and keys. In this order: its card is known, it asks to go online, its key set
/// is known, and its cryptogram is right.
#[inline(always)]
pub fn check_request(issuer: &Issuer, request: Request) -> Result<CheckedRequest, Refusal>
    ensures request { result_map_both (λ found. Decide found.request) (λ refusal. refusal) result
        ≡ checked issuer.now request }
    ensures at_hand { IfOk result (IsRequestAtHand issuer.now) }
{
    look_up_request(issuer, request)?.check(issuer)
}

/// Looks up the card and the key set of a request, which must ask to go online: all of [`check_request`] but the check
/// of its cryptogram. So it uses no key.
#[inline(always)]
pub fn look_up_request(issuer: &Issuer, request: Request) -> Result<LookedUpRequest, Refusal>
    ensures request { IfOk result (λ sought. sought.request ≡ request) }
    ensures known { IfOk result (HasKeysAtHand issuer.now) }
    ensures refused { IfErr result (λ refusal. (checked issuer.now request ≡ Err refusal) × (refusal ≢ BadCryptogram)) }
{
    let (card, slot) = find_keys(issuer, &request)?;
    Ok(LookedUpRequest {
        request,
        card,
        slot,
        verdict: CryptogramVerdict::Unchecked,
    })
}

/// The number of a request's card, and the slot of the card's keys from the key set that the request names. The request
/// must ask to go online.
#[inline(always)]
pub(crate) fn find_keys(issuer: &Issuer, request: &Request) -> Result<(u32, KeySlot), Refusal>
    ensures known { IfOk result (λ found. HasKeysAtHand issuer.now
        (record { request = request.now; card = found.0; slot = found.1; verdict = Unchecked })) }
    ensures refused { IfErr result (λ refusal. (checked issuer.now request.now ≡ Err refusal)
        × (refusal ≢ BadCryptogram)) }
{
    let parts = request.parts();
    let Some(card) = issuer.card(&parts.pan, parts.psn) else {
        return Err(Refusal::UnknownCard);
    };
    if !request.is_arqc() {
        return Err(Refusal::NotArqc);
    }
    let Some(slot) = issuer.key_slot(card, request) else {
        return Err(Refusal::UnknownKey(request.dki()));
    };
    Ok((card, slot))
}
