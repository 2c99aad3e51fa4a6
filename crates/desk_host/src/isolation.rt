//! The law of cards that share a shard.
ghost use Rattle.std.specs.Prelude.{◌≡◌, ◌≢◌, Bool, ℕ, List};
ghost use Rattle.issuer_base.specs.CardNames.{CardName};
ghost use Rattle.issuer_base.specs.declared.answer.Answer.{Answer};
ghost use Rattle.issuer_base.specs.declared.entry.Entry.{Entry};
ghost use Rattle.issuer_base.specs.declared.request.Request.{Request};
ghost use Rattle.card_history.specs.LegalRecords.{IsLegalHistory};
ghost use Rattle.card_history.specs.Records.{card_of};
ghost use Rattle.card_history.specs.declared.decision.Asked.{Asked};
ghost use Rattle.issuer_setup.specs.IssuerSetup.{Setup};
ghost use Rattle.shard_book.specs.Answering.{AnswersClaimed};
ghost use Rattle.shard_book.specs.Grounds.{grounds_of};
ghost use Rattle.shard_book.specs.Replying.{reply_to};
ghost use Rattle.one_caller.specs.Turns.{AnswersAsked, card_asked};
ghost use Rattle.desk_host.specs.Isolation.{AnswersAfterBoth, AreAlike, AreAlikeBeside, HaveSameRecords, IsUndecided};

/// A card is answered by its own records alone, whatever other cards share its shard. Two histories may differ in the
/// records of all other cards, and be of two shards. If they have the same records of a card:
///
/// - `reply`: a request of the card gets the same reply after both.
/// - `answer`: what is asked of the card gets the same answer after both, but for the shard and index of its record,
///   unless a store fails. One of the histories is legal.
///
/// `others`: what is asked of a card adds no record of another.
pub fn a_card_is_answered_by_its_own_records()
    ensures reply { (issuer : Setup) (request : Request) (one other : List Entry)
        → HaveSameRecords (card_of request) one other
        → reply_to issuer one request ≡ reply_to issuer other request }
    ensures answer { (issuer : Setup) (asked : Asked) (shard other_shard : ℕ) (one other one_after other_after : List Entry)
        (answer other_answer : Answer)
        → HaveSameRecords (card_asked asked) one other
        → IsLegalHistory (grounds_of issuer) shard one
        → AnswersAsked issuer asked answer shard one one_after
        → AnswersAsked issuer asked other_answer other_shard other other_after
        → AreAlike answer other_answer }
    ensures others { (issuer : Setup) (asked : Asked) (shard : ℕ) (before after : List Entry) (answer : Answer)
        (card : CardName) → card ≢ card_asked asked → AnswersAsked issuer asked answer shard before after
        → HaveSameRecords card after before }
{}

/// So is it with several callers, where another caller may have claimed the ATC of a request. What is asked besides, a command
/// or a status, needs no claim, so the law above holds of it.
///
/// - `claimed`: a request of the card gets the same answer after both, but for the shard and index of its record, unless a
///   store fails or another caller has claimed the ATC. One of the histories is legal.
/// - `undecided`: if the answer after one shows that no record decides the ATC, so does the answer after the other.
///
/// `others`: a request of a card adds no record of another.
pub fn several_callers_answer_a_card_by_its_own_records()
    ensures claimed { (issuer : Setup) (request : Request) (one other : List Entry) (answer other_answer : Answer)
        → (both : AnswersAfterBoth issuer request one other answer other_answer)
        → IsLegalHistory (grounds_of issuer) both.shard one → AreAlikeBeside answer other_answer }
    ensures undecided { (issuer : Setup) (request : Request) (one other : List Entry) (answer other_answer : Answer)
        → AnswersAfterBoth issuer request one other answer other_answer → IsUndecided answer → IsUndecided other_answer }
    ensures others { (issuer : Setup) (request : Request) (shard : ℕ) (won : Bool) (before after : List Entry)
        (answer : Answer) (card : CardName) → card ≢ card_of request
        → AnswersClaimed shard (reply_to issuer) won before request answer after → HaveSameRecords card after before }
{}
