//! The law of every run.
ghost use Rattle.std.specs.Prelude.{ℕ, List};
ghost use Rattle.issuer_base.specs.declared.answer.Answer.{Answer};
ghost use Rattle.issuer_setup.specs.IssuerSetup.{Setup};
ghost use Rattle.host_loading.specs.Books.{ShardBook};
ghost use Rattle.one_caller.specs.OneHistory.{AreLegalBooks, AreRecorded, IsOneHistory, LoadsAgain};
ghost use Rattle.one_caller.specs.Turns.{Run};

/// Whatever lines come, repeated or reordered, on whatever legal histories earlier runs left: the answers and the
/// journals are one legal history per shard. Each new decision is the table's, no ATC of a card is decided twice, each
/// request has one reply, and each card's commands went out in order.
///
/// The contract is a theorem on every run; the function does nothing.
pub fn every_run_is_one_history()
    ensures { (issuer : Setup) (first last : List ShardBook) (lines : List (List ℕ)) (answers : List Answer)
        → LoadsAgain issuer → AreLegalBooks issuer first → AreRecorded last → Run issuer first lines answers last
        → IsOneHistory issuer lines answers first last }
{}
