//! The laws of every run.
ghost use Rattle.std.specs.Prelude.{List};
ghost use Rattle.issuer_base.specs.declared.entry.Entry.{Entry};
ghost use Rattle.issuer_setup.specs.IssuerSetup.{Setup};
ghost use Rattle.issuer_setup.specs.KeyList.{AreKeys};
ghost use Rattle.world_net.specs.declared.event.Event.{Event};
ghost use Rattle.world_net.specs.WorldState.{WorldState};
ghost use Rattle.world_net.specs.WorldRuns.{IsIssuer, IsRun, IsGenuineRun};
ghost use Rattle.world_net.specs.Histories.{AreLegal, AreHeld, HasRun};
ghost use Rattle.world_net.specs.Safety.{IsSafe, RunsInOrder};

/// In every run of a world, no two decided records name the same card and counter, and each request has one reply.
///
/// The contract is a theorem on every run of every issuer; the function does nothing.
pub fn every_world_is_safe()
    ensures { (issuer : Setup) (events : List Event) (world : WorldState) → IsIssuer issuer → IsRun issuer events world
        → IsSafe world }
{}

/// If the accepted cryptograms are genuine, the commands that a card ran are a prefix of its queue, in order, each
/// once. They are at least all that are done, and none after those in flight. No card's scripts are halted.
///
/// The contract is a theorem on every genuine run of every issuer; the function does nothing.
pub fn every_card_runs_its_commands_in_order()
    ensures { (issuer : Setup) (events : List Event) (world : WorldState) → IsIssuer issuer
        → IsGenuineRun issuer events world → RunsInOrder world }
{}

/// All legal histories are those of some run. Each decided record is a claim and a write of the request's own bytes,
/// and each other record is a queued command or a status.
///
/// The contract is a theorem on every issuer; the function does nothing. It requires that the histories are legal, and
/// that their records are values of their types.
pub fn every_legal_history_has_a_run()
    ensures { (issuer : Setup) (histories : List (List Entry)) → IsIssuer issuer → AreKeys issuer.keys
        → AreLegal issuer histories
        → AreHeld histories → HasRun issuer histories }
{}
