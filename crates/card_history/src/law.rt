//! The law of every history.
ghost use Rattle.std.specs.Prelude.{List};
ghost use Rattle.issuer_base.specs.declared.entry.Entry.{Entry};
ghost use Rattle.issuer_base.specs.CardNames.{CardName};
ghost use Rattle.card_history.specs.ScriptOrder.{AreInOrder};

/// After every history, each batch that went with a reply to a card is a part of its queue without a gap; it begins at
/// the number of commands that were done by then. Each command that counts as done was sent. Their number never falls,
/// and is at most the number of queued ones.
///
/// The contract is a theorem on every history of a shard, so on those of every run; the function does nothing.
pub fn every_card_gets_its_commands_in_order()
    ensures { (card : CardName) (history : List Entry) → AreInOrder card history }
{}
