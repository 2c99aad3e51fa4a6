//! Parts that make an issuer, and parts that make none.

use arrayvec::ArrayVec;
use issuer_base::{MAX_KEY_SETS, Method};
use issuer_setup::{CardInfo, Issuer, IssuerFault};
use key_derive::KeySet;
use sample_issuer::{card, declining_table, key_set};
use std::alloc::Global;
use std::test::Fail;

/// The last digit of a card's account number, and its sequence number.
type CardName = (u8, u8);

fn cards(alloc: Global, names: &[CardName]) -> Result<Vec<CardInfo>, Fail> {
    let mut cards = Vec::new(alloc);
    for (last_digit, psn) in names {
        let mut card = card([0, *last_digit], Method::One).ok_or("a card")?;
        card.psn = *psn;
        cards.push(card)?;
    }
    Ok(cards)
}

/// The sample key set under each of these indexes.
fn keys(indexes: &[u8]) -> ArrayVec<KeySet, MAX_KEY_SETS> {
    let mut keys = ArrayVec::new();
    for dki in indexes {
        let mut set = key_set();
        set.dki = *dki;
        if !keys.is_full() {
            keys.push(set);
        }
    }
    keys
}

const GOOD_CARDS: [CardName; 3] = [(2, 0x01), (8, 0x00), (2, 0x00)];

/// Shards, key indexes and cards, and the first part that is bad.
const PARTS: [(&str, u8, &[u8], &[CardName], Option<IssuerFault>); 11] = [
    ("a good one", 16, &[0, 1], &GOOD_CARDS, None),
    ("no shard", 0, &[], &[], Some(IssuerFault::Shards)),
    (
        "17 shards",
        17,
        &[0],
        &GOOD_CARDS,
        Some(IssuerFault::Shards),
    ),
    ("no key set", 1, &[], &[], Some(IssuerFault::Key(0))),
    (
        "an index again",
        1,
        &[0, 1, 0],
        &[],
        Some(IssuerFault::Key(2)),
    ),
    ("no card", 1, &[0], &[], Some(IssuerFault::Card(0))),
    (
        "a nibble of ten",
        1,
        &[0],
        &[(1, 0x00), (2, 0x0A)],
        Some(IssuerFault::Card(1)),
    ),
    (
        "a repeat",
        1,
        &[0],
        &[(2, 0x00), (1, 0x00), (2, 0x00)],
        Some(IssuerFault::Card(2)),
    ),
    (
        "a repeat behind a bad one",
        1,
        &[0],
        &[(2, 0x00), (2, 0xA0), (2, 0x00)],
        Some(IssuerFault::Card(1)),
    ),
    (
        "another sequence number",
        1,
        &[0],
        &[(2, 0x00), (2, 0x01)],
        None,
    ),
    ("another account", 1, &[0], &[(2, 0x00), (1, 0x00)], None),
];

#[test]
fn names_the_first_part_that_is_bad(rt: HostRuntime) -> Result<(), Fail> {
    for (name, shards, indexes, names, expected) in &PARTS {
        let table = declining_table().ok_or("a table")?;
        let cards = cards(rt.alloc(), names)?;
        let made = Issuer::new(rt.alloc(), *shards, keys(indexes), cards, table);
        assert!(rt; made.err() == *expected, "{name}");
    }
    Ok(())
}
