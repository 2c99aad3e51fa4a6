//! The open claims of callers, and their counters.
ghost use Rattle.std.specs.Prelude.{◌≡◌};
ghost use Rattle.std.specs.List.{list_all};
ghost use Rattle.std.specs.Option.{option_map};
ghost use Rattle.card_history.specs.Records.{card_of, is_of};
ghost use Rattle.world_net.specs.WorldState.{claim_of, without};
ghost use Rattle.world_model.specs.Counters.{is_apart, is_apart_in};

use issuer_base::{Entry, Request};
use world_net::OpenClaim;

/// The open claim of this caller.
pub(crate) fn claim_of(claims: &[OpenClaim], caller: u8) -> Option<&OpenClaim>
    ensures { option_map (λ claim. claim.now) result ≡ claim_of caller claims.now }
{
    claims.iter().find(|claim| claim.caller == caller)
}

/// Ends the claim of this caller.
pub(crate) fn end_claim(claims: &mut Vec<OpenClaim>, caller: u8)
    ensures { claims.new.items ≡ without caller claims.old.items }
{
    claims.retain(|claim| claim.caller != caller);
}

/// Whether no claim is on the request's counter of its card.
pub(crate) fn is_unclaimed(claims: &[OpenClaim], request: &Request) -> bool
    ensures { result ≡ list_all (λ claim. is_apart request.now claim.request) claims.now }
{
    claims.iter().all(|claim| is_apart(request, &claim.request))
}

/// Whether no record is a decision on the request's counter of its card.
pub(crate) fn is_unrecorded(history: &[Entry], request: &Request) -> bool
    ensures { result ≡ list_all (is_apart_in request.now) history.now }
{
    history.iter().all(|entry| is_apart_in(request, entry))
}

fn is_apart_in(request: &Request, entry: &Entry) -> bool
    ensures { result ≡ is_apart_in request.now entry.now }
{
    match entry {
        Entry::Decided { request: other, .. } => is_apart(request, other),
        _ => true,
    }
}

/// Whether the other request is of another card or on another counter.
fn is_apart(request: &Request, other: &Request) -> bool
    ensures { result ≡ is_apart request.now other.now }
{
    !(is_of_card(request, other) && other.parts().atc == request.parts().atc)
}

/// Whether the other request is of the card of this one.
fn is_of_card(request: &Request, other: &Request) -> bool
    ensures { result ≡ is_of (card_of request.now) other.now }
{
    let card = request.parts();
    let parts = other.parts();
    parts.pan.is_same(&card.pan) && parts.psn == card.psn
}
