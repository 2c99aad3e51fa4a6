//! Random events on a world and on a plain model of it, which have the same results.

use crate::drawn_events::Deck;
use crate::plain_world::{PlainWorld, SHARDS};
use issuer_base::{Method, Suite};
use issuer_setup::Issuer;
use sample_issuer::{SampleCard, deciding_table, issuer};
use std::alloc::Global;
use std::test::Fail;
use world_model::{World, has_first_keys};

/// The number of events: so many that cards leave the window of their first counters behind.
const EVENTS: u32 = 9_000;

/// The cards, of both ARPC methods.
const NAMES: [SampleCard; 5] = [
    ([1, 0], Method::One),
    ([1, 1], Method::Two),
    ([1, 2], Method::One),
    ([1, 3], Method::Two),
    ([1, 4], Method::One),
];

/// An issuer of the cards.
fn five_cards(alloc: Global) -> Result<Issuer, Fail> {
    let table = deciding_table().ok_or("a table")?;
    Ok(issuer(alloc, SHARDS, &NAMES, table).ok_or("an issuer")?)
}

/// The world of this issuer whose cards are of this suite.
pub(crate) fn new_world(alloc: Global, issuer: Issuer, suite: Suite) -> Result<World, Fail> {
    if !has_first_keys(&issuer, suite) {
        return Err(Fail::from("a key set without the suite"));
    }
    Ok(World::new(alloc, issuer, suite)?)
}

#[test]
fn answers_random_events_as_a_plain_model_does(rt: HostRuntime) -> Result<(), Fail> {
    for suite in [Suite::TripleDes, Suite::Aes] {
        let issuer = five_cards(rt.alloc())?;
        let mut world = new_world(rt.alloc(), five_cards(rt.alloc())?, suite)?;
        let mut model = PlainWorld::new(rt.alloc());
        let mut deck = Deck::new(rt.alloc(), &NAMES, suite)?;
        let mut allowed = 0u32;
        for index in 0..EVENTS {
            let event = deck.draw(model.size())?;
            let expected = model.step(&issuer, &event)?;
            assert!(rt; world.step(&event)? == expected, "event {index}");
            allowed = allowed.saturating_add(u32::from(expected));
        }
        assert!(rt; allowed > 4_000 && model.late() > 40);
    }
    Ok(())
}
