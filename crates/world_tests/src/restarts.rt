//! A world with two callers, a record in doubt and restarts.

use crate::random_events::new_world;
use arrayvec::ArrayVec;
use card_model::Terminal;
use chip_request::{LineKind, read_line};
use issuer_base::{Command, MAX_CHIP_BYTES, Suite};
use sample_issuer::{CARDS, REQUEST, deciding_table, issuer};
use std::test::Fail;
use world_net::{Event, fate};

/// A purchase over 123.45.
pub(crate) const PURCHASE: Terminal = Terminal {
    tvr: [0x00, 0x00, 0x00, 0x80, 0x00],
    date: [0x26, 0x01, 0x15],
    kind: 0x00,
    amount: [0x00, 0x00, 0x00, 0x01, 0x23, 0x45],
    other: [0x00; 6],
    country: [0x02, 0x76],
    currency: [0x09, 0x78],
    un: [0x1A, 0x2B, 0x3C, 0x4D],
};

/// A claim of the counter of the first card's transaction 7.
pub(crate) fn claim(caller: u8) -> Event {
    let bytes: ArrayVec<u8, MAX_CHIP_BYTES> = match read_line(REQUEST.as_bytes()) {
        Ok(LineKind::Ask(bytes)) => bytes,
        _ => ArrayVec::new(),
    };
    Event::Claim { caller, bytes }
}

/// A card block for the first card.
pub(crate) fn block() -> Event {
    Event::Queue {
        card: 0,
        command: Command {
            cla: 0x84,
            ins: 0x16,
            p1: 0x00,
            p2: 0x00,
            body: ArrayVec::new(),
        },
    }
}

#[test]
fn keeps_a_record_in_doubt_over_a_restart_as_its_store_did(rt: HostRuntime) -> Result<(), Fail> {
    let table = deciding_table().ok_or("a table")?;
    let issuer = issuer(rt.alloc(), 1, &CARDS, table).ok_or("an issuer")?;
    let mut world = new_world(rt.alloc(), issuer, Suite::TripleDes)?;
    let tap = Event::Tap {
        card: 0,
        terminal: PURCHASE,
    };
    for _ in 0..6 {
        assert!(rt; world.step(&tap)?);
    }
    let block = block();
    let first = claim(0);
    let second = claim(1);
    let lost = Event::Write {
        caller: 1,
        stored: false,
    };
    let unclaimed = Event::Write {
        caller: 0,
        stored: true,
    };
    let release = Event::Release { caller: 0 };
    let zeroth = Event::Send { shard: 0, place: 0 };
    let reply = Event::Send { shard: 0, place: 1 };
    let next = Event::Send { shard: 0, place: 2 };
    let kept = Event::Restart { kept: true };
    let clean = Event::Restart { kept: false };
    let rows = [
        ("a command", &block, true),
        ("a tap", &tap, true),
        ("a claim", &first, true),
        ("a counter that is claimed", &second, false),
        ("a claim given back", &release, true),
        ("a free counter", &second, true),
        ("no claim", &unclaimed, false),
        ("a record in doubt", &lost, true),
        ("another one", &lost, true),
        ("no record", &reply, false),
        ("a store that kept it", &kept, true),
        ("a counter that is recorded", &first, false),
        ("its reply", &reply, true),
        ("nothing in doubt", &clean, true),
        ("another command", &block, true),
        ("the reply of a command", &zeroth, false),
        ("its reply again", &reply, true),
        ("the reply of another command", &next, false),
    ];
    for (name, event, allowed) in rows {
        assert_eq!(rt; world.step(event)?, allowed, "{name}");
    }
    Ok(())
}

#[test]
fn counts_fates_round_all_cards(rt: HostRuntime) -> Result<(), Fail> {
    for (index, cards, seed, expected) in [
        (0, 1, 0, 0),
        (7, 1, 0, 7),
        (8, 1, 0, 0),
        (201, 200, 7, 1),
    ] {
        assert_eq!(rt; fate(index, cards, seed), expected);
    }
    Ok(())
}
