//! The laws of the decision table: what doesn't depend on it, and what does.
ghost use Rattle.std.specs.Prelude.{◌≡◌, Bool, ℕ, List, Ok, IsTrue};
ghost use Rattle.issuer_base.specs.declared.answer.Answer.{Answer};
ghost use Rattle.issuer_base.specs.declared.answer.Answer.TheVariants.{Kept};
ghost use Rattle.issuer_base.specs.declared.answer.Reply.{Reply};
ghost use Rattle.issuer_base.specs.declared.entry.Entry.{Entry};
ghost use Rattle.issuer_base.specs.declared.request.Request.{Request};
ghost use Rattle.card_history.specs.LegalRecords.{IsLegalHistory};
ghost use Rattle.config_read.specs.Configuration.{configured};
ghost use Rattle.decision_table.specs.Tables.{is_table};
ghost use Rattle.decision_table.specs.declared.row.TableRow.{TableRow};
ghost use Rattle.issuer_setup.specs.IssuerSetup.{Setup};
ghost use Rattle.line_checks.specs.Reading.{reading};
ghost use Rattle.shard_book.specs.Answering.{AnswersClaimed};
ghost use Rattle.shard_book.specs.Grounds.{grounds_of};
ghost use Rattle.shard_book.specs.Replying.{reply_to};
ghost use Rattle.one_caller.specs.OneHistory.{LegallyGoesOn};
ghost use Rattle.one_caller.specs.Restarts.{IsHeld, with_table};
ghost use Rattle.desk_host.specs.Approvals.{AreApprovedByRows};

/// A repeat is answered without the decision table. Let two issuers differ in their tables alone:
///
/// - `asked`: a line asks the same of both, or both refuse it for the same cause.
/// - `kept`: after a legal history one may answer a request by its stored reply. Then the other gives that very answer,
///   with one caller or with several.
/// - `loads`: a history that a shard holds by the one it may hold by the other, so its journal loads by both.
///
/// The contract is a theorem on every line and history; the function does nothing.
pub fn a_repeat_is_answered_without_the_table()
    ensures asked { (issuer : Setup) (table : List TableRow) (line : List ℕ)
        → reading (with_table issuer table) line ≡ reading issuer line }
    ensures kept { (issuer : Setup) (table : List TableRow) (shard at place : ℕ) (history after other_after : List Entry)
        (request : Request) (reply : Reply) (won other_won : Bool) (other : Answer)
        → IsLegalHistory (grounds_of issuer) shard history
        → AnswersClaimed shard (reply_to issuer) won history request (Kept at place reply) after
        → AnswersClaimed shard (reply_to (with_table issuer table)) other_won history request other other_after
        → other ≡ Kept at place reply }
    ensures loads { (issuer : Setup) (table : List TableRow) (shard : ℕ) (old history : List Entry)
        → IsHeld issuer shard old history → IsHeld (with_table issuer table) shard old history }
{}

/// Each approval that a run adds is by the decision table: by the first row that matches the card's status and the
/// request. That row approves, and the amount lies within its bounds.
///
/// - `table`: the rows that a configuration states are a decision table.
/// - `approved`: the approvals among the records that a run adds to a shard's history.
///
/// The contract is a theorem on every run; the function does nothing.
pub fn every_approval_is_within_a_row_that_approves()
    ensures table { (content : List ℕ) (issuer : Setup) → configured content ≡ Ok issuer → IsTrue (is_table issuer.table) }
    ensures approved { (issuer : Setup) (shard : ℕ) (first last : List Entry)
        → IsTrue (is_table issuer.table) → LegallyGoesOn issuer shard first last
        → AreApprovedByRows issuer.table first last }
{}
