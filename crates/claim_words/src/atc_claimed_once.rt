//! The rule of the words, by which an ATC of a card is claimed once: their invariant, and the names of its steps.
ghost use Rattle.shared_seats.specs.SeatNames.{first_names};
ghost use Rattle.claim_words.specs.ClaimRule.{AreClaims};
ghost use Rattle.claim_words.specs.ClaimSteps.{claimed, released, marked, topped};
ghost use Rattle.claim_words.specs.ClaimViews.{newcomer, parent_view, child_view, joined};
ghost use Rattle.std.specs.Prelude.{[]};

use crate::view::ClaimView;
use atomic_table::{Join, Play, Split, TableRule};
use std::snapshot::Snapshot;

/// The key of the table: what it was created with.
#[derive(Drop)]
pub(crate) struct Opening {
    /// The number of cards.
    pub cards: u32,

    /// Its initial words, which have the opening records.
    pub words: Snapshot<Vec<u64>>,
}

pub(crate) struct ClaimRule;

impl TableRule<(), ClaimView, Opening> for ClaimRule {
    ghost holds = { λ opening. AreClaims opening.words.value.items };

    ghost first = { λ _. newcomer first_names };
}

pub(crate) struct Claims;

impl Play<(), ClaimView> for Claims {
    ghost then = { claimed };
}

pub(crate) struct Releases;

impl Play<(), ClaimView> for Releases {
    ghost then = { released };
}

pub(crate) struct Marks;

impl Play<(), ClaimView> for Marks {
    ghost then = { marked };
}

pub(crate) struct Tops;

impl Play<(), ClaimView> for Tops {
    ghost then = { topped };
}

pub(crate) struct Parts;

impl Split<ClaimView> for Parts {
    ghost left = { parent_view };

    ghost right = { child_view };
}

impl Join<ClaimView> for Parts {
    ghost both = { joined };

    ghost spent = { newcomer [] };
}
