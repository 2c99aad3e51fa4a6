//! The law of records that a migration copied from an old journal.
ghost use Rattle.std.specs.Prelude.{◌≡◌, Bool, ℕ, List, Some};
ghost use Rattle.std.specs.List.{slice_get};
ghost use Rattle.issuer_base.specs.declared.answer.Answer.{Answer};
ghost use Rattle.issuer_base.specs.declared.answer.Answer.TheVariants.{Kept};
ghost use Rattle.issuer_base.specs.declared.answer.Reply.{Reply};
ghost use Rattle.issuer_base.specs.declared.entry.Entry.{Entry};
ghost use Rattle.issuer_base.specs.declared.entry.Entry.TheVariants.{Decided};
ghost use Rattle.issuer_base.specs.declared.request.Request.{Request};
ghost use Rattle.card_history.specs.LegalRecords.{IsLegalHistory};
ghost use Rattle.card_history.specs.Records.{IsBelow, greatest_atc};
ghost use Rattle.card_history.specs.Turns.{decided_for};
ghost use Rattle.issuer_setup.specs.IssuerSetup.{Setup};
ghost use Rattle.shard_book.specs.Answering.{AnswersClaimed};
ghost use Rattle.shard_book.specs.Grounds.{grounds_of};
ghost use Rattle.shard_book.specs.Histories.{GoesOn, IsLegalSince};
ghost use Rattle.shard_book.specs.Replying.{reply_to};

/// A repeat of a request that an old journal decided gets the reply of that record, with one caller and with several.
///
/// - `kept`: an old journal has a decision. Its shard's first history is legal since the old one, and a later history
///   extends the first one legally. If that request comes again and its ATC is in the card's window, the answer is
///   `kept`, with the index and the reply of the old record.
///
/// The contract is a theorem on every history; the function does nothing.
pub fn a_repeat_of_a_migrated_record_is_kept()
    ensures kept { (issuer : Setup) (shard place : ℕ) (old first history after : List Entry) (request : Request)
        (reply : Reply) (won : Bool) (answer : Answer)
        → IsLegalSince issuer shard old first → GoesOn first history → IsLegalHistory (grounds_of issuer) shard history
        → slice_get old place ≡ Some (Decided request reply)
        → (IsBelow (greatest_atc (decided_for request history)) request.atc → ⊥)
        → AnswersClaimed shard (reply_to issuer) won history request answer after
        → answer ≡ Kept shard place reply }
{}
