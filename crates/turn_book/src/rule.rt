//! The invariant of the table, and the names of its steps.
ghost use Rattle.std.specs.Prelude.{Option, None, Some};
ghost use Rattle.turn_book.specs.TurnRule.{AreTurns};
ghost use Rattle.turn_book.specs.TurnSteps.{taken, looked, added, retaken, released, learned};
ghost use Rattle.turn_book.specs.TurnViews.{first_view, spent, parent_view, child_view, joining};

use crate::logs::Logged;
use crate::opening::Opening;
use crate::view::TurnView;
use atomic_table::{Join, Play, Split, TableRule};
use std::marker::{Brand, PhantomData};

pub(crate) struct TurnRule;

impl<V: Logged<I, B>, I, B> TableRule<Option<V>, TurnView<I, B>, Opening<I, B>> for TurnRule {
    ghost holds = { λ key. AreTurns V.stands key.view };

    ghost first = { λ key. first_view key.view };
}

/// Takes the turn of a shard.
pub(crate) struct Takes;

impl<V: Logged<I, B>, I, B> Play<Option<V>, TurnView<I, B>> for Takes {
    ghost then = { taken V.stands };
}

/// Reads the length of a log, and gives the empty slot back.
pub(crate) struct Looks;

impl<V, I, B> Play<Option<V>, TurnView<I, B>> for Looks {
    ghost then = { looked };
}

/// The item that a call chooses.
pub(crate) trait Next<I> {
    ghost next: { Option I };
}

impl<I> Next<I> for Brand {
    ghost next = { None };
}

/// Counts the next item.
pub(crate) struct Adds<N>(PhantomData<N>);

impl<N: Next<I>, V, I, B> Play<Option<V>, TurnView<I, B>> for Adds<N> {
    ghost then = { added N.next };
}

/// Takes the empty slot again.
pub(crate) struct Retakes;

impl<V, I, B> Play<Option<V>, TurnView<I, B>> for Retakes {
    ghost then = { retaken };
}

/// Gives the slot back with its value, and the turn with it.
pub(crate) struct Releases;

impl<V, I, B> Play<Option<V>, TurnView<I, B>> for Releases {
    ghost then = { released };
}

/// Compares the logs that the seats of a join had seen.
pub(crate) struct Learns;

impl<V, I, B> Play<Option<V>, TurnView<I, B>> for Learns {
    ghost then = { learned };
}

/// Splits and joins seats.
pub(crate) struct Parts;

impl<I, B> Split<TurnView<I, B>> for Parts {
    ghost left = { parent_view };

    ghost right = { child_view };
}

impl<I, B> Join<TurnView<I, B>> for Parts {
    ghost both = { joining };

    ghost spent = { spent };
}
