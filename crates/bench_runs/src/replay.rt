//! Requests of cards, each checked, planned or answered, and loads of the resulting journal.
ghost use Rattle.std.specs.Prelude.{◌≡◌, ◌<◌, ◌%◌, length, MatchOption, ⊤, IsTrue};
ghost use Rattle.shard_book.specs.Shards.{number_in, IsUnder};

use crate::counts::{Counts, two};
use crate::setting::{TERMINAL, cards, issuer};
use card_model::Card;
use issuer_setup::Issuer;
use line_checks::check_request;
use shard_book::{LoadBack, Shard};
use std::alloc::Global;
use store_edge::RoomStore;

/// The capacity of the store in bytes: more than 256 decisions of each of 4,096 cards have.
const ROOM: usize = 512 * 1_024 * 1_024;

/// How far each request is processed.
#[derive(Clone, Copy, PartialEq, Eq, Debug)]
pub(crate) enum Deed {
    /// It is made by its card, and checked.
    Check,

    /// It is planned too, and then another caller has its claim.
    Plan,

    /// It is decided.
    Answer,
}

/// How many records the requests leave, and how many the last load of the journal finds. `numbers` are those of cards,
/// of requests of each, and of loads. `None` if something was refused.
pub(crate) fn measure(alloc: Global, numbers: [u64; 3], deed: Deed) -> Option<Counts> {
    let [count, rounds, loads] = numbers;
    let count = u32::try_from(count).ok()?;
    let issuer = issuer(alloc, count)?;
    let mut cards = cards(alloc, count)?;
    let store = RoomStore::new(alloc, ROOM).ok()?;
    let mut shard = load(alloc, store, &issuer)?;
    ask_rounds(&mut shard, &issuer, &mut cards, rounds, deed);
    let left = shard.places();
    let loaded = load_again(alloc, shard.into_store(), &issuer, loads)?;
    Some(two(left, loaded))
}

/// One request of each card, round after round.
fn ask_rounds(
    shard: &mut Shard<RoomStore>,
    issuer: &Issuer,
    cards: &mut Vec<Card>,
    rounds: u64,
    deed: Deed,
)
    requires under { IsUnder issuer.now shard.old }
    requires number { number_in shard.old ≡ 0 }
{
    for _ in 0..rounds {
        ask_all(shard, issuer, cards, deed);
    }
}

/// One request of each card.
fn ask_all(shard: &mut Shard<RoomStore>, issuer: &Issuer, cards: &mut Vec<Card>, deed: Deed)
    requires under { IsUnder issuer.now shard.old }
    requires number { number_in shard.old ≡ 0 }
    ensures under { IsUnder issuer.now shard.new }
    ensures number { number_in shard.new ≡ 0 }
{
    for card in cards.iter_mut() {
        ask(shard, issuer, card, deed);
    }
}

/// Processes a request of a card as far as `deed` says, and returns whether the shard was asked.
fn ask(shard: &mut Shard<RoomStore>, issuer: &Issuer, card: &mut Card, deed: Deed) -> bool
    requires under { IsUnder issuer.now shard.old }
    requires number { number_in shard.old ≡ 0 }
    ensures under { IsUnder issuer.now shard.new }
    ensures number { number_in shard.new ≡ 0 }
{
    let Some(request) = card.tap(&TERMINAL) else {
        return false;
    };
    let Ok(found) = check_request(issuer, request) else {
        return false;
    };
    if deed == Deed::Check || !is_home(issuer, found.card) {
        return false;
    }
    shard.answer(issuer, &found, deed == Deed::Answer);
    true
}

/// Whether the number is that of a card of the first shard.
fn is_home(issuer: &Issuer, card: u32) -> bool
    ensures within { IsTrue result → card < length issuer.now.cards }
    ensures home { IsTrue result → card % issuer.now.shards ≡ 0 }
{
    card < issuer.cards() && issuer.shard_of(card) == 0
}

/// Loads the shard from this store, with an empty old store.
fn load(alloc: Global, store: RoomStore, issuer: &Issuer) -> Option<Shard<RoomStore>>
    requires { issuer.now.shards ≡ 1 }
    ensures under { MatchOption result ⊤ (IsUnder issuer.now) }
    ensures number { MatchOption result ⊤ (λ loaded. number_in loaded ≡ 0) }
{
    let mut old = RoomStore::new(alloc, 0).ok()?;
    match Shard::load(alloc, &mut old, store, 0, issuer) {
        Ok(shard) => Some(shard),
        Err(LoadBack { fault: _, store: _ }) => None,
    }
}

/// Loads the journal of a store `loads` times, and returns how many records the last load found.
fn load_again(alloc: Global, store: RoomStore, issuer: &Issuer, loads: u64) -> Option<u64>
    requires { issuer.now.shards ≡ 1 }
{
    let mut store = store;
    let mut records = 0;
    for _ in 0..loads {
        let shard = load(alloc, store, issuer)?;
        records = shard.places();
        store = shard.into_store();
    }
    Some(records)
}
