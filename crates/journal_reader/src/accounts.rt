//! The law of a clearing check's totals.
ghost use Rattle.std.specs.Prelude.{ℕ, List};
ghost use Rattle.issuer_base.specs.declared.entry.Entry.{Entry};
ghost use Rattle.card_history.specs.OneReply.{IsOncePerCounter};
ghost use Rattle.issuer_setup.specs.IssuerSetup.{Setup};
ghost use Rattle.journal_reader.specs.Accounts.{AccountsFor, HaveKnownCards};

/// A clearing check accounts for every approval of the journals, once.
///
/// Let no ATC of a card be decided twice in the histories, and each record be of a card of the issuer. Then the certified
/// records are the approvals that some line certifies, and the open records are the others, both in the order of the
/// journals. So the two totals together are the number of approvals. Each line has the verdict that the journals alone
/// give it, whatever lines come before. A line certifies a record exactly where it presents a transaction certificate
/// (TC) for the very transaction that the record approves.
///
/// The contract is a theorem on every clearing check; the function does nothing.
pub fn every_approval_is_accounted_for()
    ensures { (issuer : Setup) (histories : List (List Entry)) (lines : List (List ℕ))
        → IsOncePerCounter histories → HaveKnownCards issuer histories → AccountsFor issuer histories lines }
{}
