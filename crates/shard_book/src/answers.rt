//! The issuer authentication data of recorded decisions, which are made ahead of the records' turns.
ghost use Rattle.std.specs.Prelude.{◌≡◌, ◌<◌, length};
ghost use Rattle.arpc_methods.specs.Batch.{with_answer};
ghost use Rattle.shard_book.specs.Answers.{answer_of, answer_under};
ghost use Rattle.shard_book.specs.ReadAhead.{IsLookedUp};

use arpc_methods::{AnswerBatch, AnswerParts};
use issuer_base::{Entry, Method, Refusal, Reply};
use issuer_setup::Issuer;
use line_checks::{CryptogramVerdict, LookedUp, LookedUpRequest};
use row_core::answer_parts;

/// Adds what the issuer authentication data of a record are made of, if it is a decision whose cryptogram is known to be
/// right, under triple DES. `found` is what was looked up for the record.
pub fn add_answer(
    issuer: &Issuer,
    entry: &Entry,
    found: &Result<LookedUp, Refusal>,
    batch: &mut AnswerBatch,
)
    requires found { IsLookedUp issuer.now entry.now found.now }
    requires room { length batch.old.answers < 128 }
    ensures { batch.new ≡ with_answer (answer_of issuer.now entry.now found.now) batch.old }
{
    let answer = match (entry, found) {
        (Entry::Decided { reply, .. }, Ok(LookedUp::Request(sought))) => {
            answer_to(issuer.info(sought.card).method, sought, reply)
        }
        _ => None,
    };
    batch.add(answer);
}

/// What the issuer authentication data of a decision for a card of this method are made of, if its cryptogram is known
/// to be right.
fn answer_to(method: Method, sought: &LookedUpRequest, reply: &Reply) -> Option<AnswerParts>
    ensures { result ≡ answer_under method sought.now.verdict sought.now.request reply.now }
{
    match sought.verdict {
        CryptogramVerdict::Right(key) => Some(answer_parts(method, key, &sought.request, reply)),
        _ => None,
    }
}
