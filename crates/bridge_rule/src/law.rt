//! Laws of a bridge and the machine that it stands for.
ghost use Rattle.std.specs.Prelude.{◌≤◌, ℕ, List, length, All};
ghost use Rattle.one_history.specs.Streams.{Text, Word, Indexed, OfMark, OfNothing};
ghost use Rattle.one_history.specs.Machines.{World, Knows};
ghost use Rattle.one_history.specs.Events.{Event, Record, Keep, next};
ghost use Rattle.bridge_rule.specs.Bridges.{BridgeState, StandsIn, IsServing};
ghost use Rattle.bridge_rule.specs.Events.{ReadsMessage, DoesPublish, IsOfAnother};

/// A mark, and a message that can't be read, change nothing of a bridge that reads them.
///
/// The contract is a theorem on every bridge and world; the function does nothing.
pub fn a_mark_changes_nothing()
    ensures mark { (bridge : BridgeState) (word : Word) → ReadsMessage bridge bridge (OfMark word) (λ journals. journals) }
    ensures unreadable { (bridge : BridgeState) → ReadsMessage bridge bridge OfNothing (λ journals. journals) }
{}

/// A bridge that serves may publish the records that it knows.
///
/// The contract is a theorem on every bridge and world; the function does nothing.
pub fn what_is_known_is_published()
    ensures { (bridge : BridgeState) (world : World) (records : List Indexed) → StandsIn bridge world
        → IsServing bridge.role → All (Knows (world.machines bridge.machine)) records → DoesPublish bridge world records }
{}

/// A record that the host of a serving bridge appends changes nothing of what the bridge knows.
///
/// The contract is a theorem on every bridge and world; the function does nothing.
pub fn a_host_records_after_what_is_known()
    ensures { (bridge : BridgeState) (world : World) (shard : ℕ) (text : Text) → StandsIn bridge world
        → IsServing bridge.role → StandsIn bridge (next world (Record bridge.machine shard text)) }
{}

/// A position that is written changes nothing of the bridge.
///
/// The contract is a theorem on every bridge and world; the function does nothing.
pub fn a_position_is_kept()
    ensures { (bridge : BridgeState) (world : World) (place : ℕ) → StandsIn bridge world
        → StandsIn bridge (next world (Keep bridge.machine place)) }
{}

/// What comes to the stream, and what other machines do, changes nothing of the bridge.
///
/// The contract is a theorem on every bridge and world; the function does nothing.
pub fn others_change_nothing()
    ensures { (bridge : BridgeState) (world : World) (event : Event) → StandsIn bridge world
        → (world.machines bridge.machine).read ≤ length world.stream → IsOfAnother bridge.machine event
        → StandsIn bridge (next world event) }
{}
