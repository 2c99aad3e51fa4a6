//! The law of turns.
ghost use Rattle.bridge_lines.specs.declared.event.Event.{Event};
ghost use Rattle.bridge_turns.specs.Partitions.{PartitionState};
ghost use Rattle.bridge_turns.specs.Laws.{IsTurn};

/// Each turn of a partition is a run of events of the machine that its bridge stands for.
///
/// In every world in which the partition stands for its machine, and in which what the node tells is so: the law of
/// `one_history` allows the turn's events one after another; the partition stands for the machine after them; what is
/// said carries them out on the journals; each message that is published is one that was made; and the answers that go are
/// the replies that were sent. The contract is a theorem on every partition and event; the function does nothing.
pub fn each_turn_is_a_run()
    ensures { (state : PartitionState) (event : Event) → IsTurn state event }
{}
