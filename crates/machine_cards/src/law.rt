//! The law of cards on several machines.
ghost use Rattle.one_history.specs.Events.{AfterEachRun};
ghost use Rattle.issuer_setup.specs.IssuerSetup.{Setup};
ghost use Rattle.issuer_setup.specs.KeyList.{AreKeys};
ghost use Rattle.world_net.specs.WorldRuns.{IsIssuer};
ghost use Rattle.machine_cards.specs.CardRecords.{IsSuccessor};
ghost use Rattle.machine_cards.specs.CardLaws.{HaveWorlds, HasOneReply, MayFallBack};

/// Whichever machines of an issuer's partition go, and in whatever order, the laws of worlds hold of what counts.
///
/// What counts at each place of the stream is the history of a safe world, and so are the journals of each machine. An
/// ATC of a card has one reply. If a machine whose journals have all that counts is lost, its world may fall back to what
/// counts. The contract is a theorem on every issuer and every run of machines; the function does nothing.
pub fn cards_keep_their_laws_on_machines()
    ensures worlds { (issuer : Setup) → IsIssuer issuer → AreKeys issuer.keys
        → AfterEachRun (IsSuccessor issuer) (HaveWorlds issuer) }
    ensures one_reply { (issuer : Setup) → IsIssuer issuer → AreKeys issuer.keys
        → AfterEachRun (IsSuccessor issuer) (HasOneReply issuer) }
    ensures fall_back { (issuer : Setup) → IsIssuer issuer → AreKeys issuer.keys
        → AfterEachRun (IsSuccessor issuer) (MayFallBack issuer) }
{}
