//! The verdict on a clearing line.

ghost use Rattle.std.specs.Prelude.{◌≡◌};
ghost use Rattle.clearing_check.specs.ClearingLine.{is_tc, is_aac, is_final};
ghost use Rattle.clearing_check.specs.Verdicts.{agrees, verdict_by};

use crate::filed::Filed;
use issuer_base::{Refusal, Request};

/// The verdict on a clearing line. `shard` and `place` are where the decided record is: its shard, and its index in the
/// shard's journal.
#[derive(Clone, Copy)]
pub enum Verdict {
    /// The line isn't of a card's request, its keys are unknown, or its cryptogram isn't the card's.
    Refused(Refusal),

    /// The cryptogram information data is neither that of a transaction certificate (TC) nor that of an application
    /// authentication cryptogram (AAC).
    WrongKind,

    /// No decided record has the card's ATC.
    Lone,

    /// The record differs in the amount, the currency, the date or the unpredictable number.
    Differs { shard: u8, place: u64 },

    /// The card declined.
    Declined { shard: u8, place: u64 },

    /// The card certified what the issuer declined.
    Against { shard: u8, place: u64 },

    /// The card certified what the issuer approved.
    Certified { shard: u8, place: u64 },
}

/// The verdict on a request by the decided record on its ATC, if there is one.
pub(crate) fn verdict_by(filed: Option<Filed>, request: &Request) -> Verdict
    ensures { result ≡ verdict_by filed request.now }
{
    let Some(filed) = filed else {
        return Verdict::Lone;
    };
    let shard = filed.shard;
    let place = filed.place;
    if !agrees(&filed, request) {
        Verdict::Differs { shard, place }
    } else if is_aac(request) {
        Verdict::Declined { shard, place }
    } else if !filed.approved {
        Verdict::Against { shard, place }
    } else {
        Verdict::Certified { shard, place }
    }
}

/// Whether the request and the record agree in amount, currency, date and unpredictable number.
#[tactic(auto, unfolding(crate::specs::Verdicts::agrees))]
fn agrees(filed: &Filed, request: &Request) -> bool
    ensures { result ≡ agrees filed.now request.now }
{
    let parts = request.parts();
    filed.amount == parts.amount
        && filed.currency == parts.currency
        && filed.date == parts.date
        && filed.un == parts.un
}

/// Whether the request's cryptogram is one that ends a transaction.
#[tactic(auto, unfolding(crate::specs::ClearingLine::is_final))]
pub(crate) fn is_final(request: &Request) -> bool
    ensures { result ≡ is_final request.now }
{
    is_tc(request) || is_aac(request)
}

/// Whether the request's cryptogram is a transaction certificate.
#[tactic(auto, unfolding(crate::specs::ClearingLine::is_tc))]
fn is_tc(request: &Request) -> bool
    ensures { result ≡ is_tc request.now }
{
    request.parts().cid & 0xC0 == 0x40
}

/// Whether the request's cryptogram is an application authentication cryptogram.
#[tactic(auto, unfolding(crate::specs::ClearingLine::is_aac))]
fn is_aac(request: &Request) -> bool
    ensures { result ≡ is_aac request.now }
{
    request.parts().cid & 0xC0 == 0
}
