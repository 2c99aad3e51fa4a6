//! The last PIN of a card of a world.

use crate::random_events::new_world;
use crate::restarts::PURCHASE;
use arrayvec::ArrayVec;
use des_block::Key16;
use issuer_base::{Command, Method, Suite};
use key_derive::{card_keys, session_sm};
use sample_issuer::{CARDS, CRYPTOGRAM, card, deciding_table, issuer, key_set};
use secure_msg::{Pin, pin_command, seal};
use std::alloc::Global;
use std::test::Fail;
use world_model::World;
use world_net::Event;

/// The card's master key for confidentiality, and another one.
const SMC: Key16 = Key16([0x20; 16]);

const OTHER: Key16 = Key16([0x40; 16]);

/// The issuer's answer to transaction 7 of the first card, by method 1.
const ANSWER: [u8; 10] = [0x02, 0x36, 0x9B, 0xE2, 0x6B, 0x41, 0x61, 0xBC, 0x30, 0x30];

fn pin_change(digits: &[u8]) -> Option<Command> {
    Some(pin_command(&SMC, [0x01; 8], &Pin::new(digits)?))
}

/// The first card's last PIN under this key, as its digits.
fn last_pin(world: &World, smc: &Key16) -> Option<ArrayVec<u8, 12>> {
    if !world.has_card(0) {
        return None;
    }
    let pin = world.last_pin(0, smc)?;
    ArrayVec::try_from(pin.digits()).ok()
}

/// The commands, sealed one after another for the first card's transaction 7, as events.
fn runs(alloc: Global, commands: [&Command; 2]) -> Option<Vec<Event>> {
    let info = card([0, 2], Method::One)?;
    let keys = card_keys(&key_set(), Suite::TripleDes, &info.pan, info.psn)?;
    let mut chain = CRYPTOGRAM.to_be_bytes();
    let key = session_sm(Suite::TripleDes, &keys.smi, &chain);
    let mut events = Vec::new(alloc);
    for command in commands {
        if !command.is_sendable() {
            return None;
        }
        let (sealed, next) = seal(Suite::TripleDes, &key, &chain, command);
        let bytes = ArrayVec::try_from(sealed.as_slice()).ok()?;
        events.push(Event::Run { card: 0, bytes }).ok()?;
        chain = next;
    }
    Some(events)
}

#[test]
fn is_that_of_the_last_change_that_the_card_ran(rt: HostRuntime) -> Result<(), Fail> {
    let table = deciding_table().ok_or("a table")?;
    let issuer = issuer(rt.alloc(), 1, &CARDS, table).ok_or("an issuer")?;
    let mut world = new_world(rt.alloc(), issuer, Suite::TripleDes)?;
    let first = pin_change(&[1, 2, 3, 4]).ok_or("a PIN")?;
    let second = pin_change(&[9; 12]).ok_or("a PIN")?;
    let runs = runs(rt.alloc(), [&first, &second]).ok_or("sealed commands")?;
    for command in [first, second] {
        assert!(rt; world.step(&Event::Queue { card: 0, command })?);
    }
    for _ in 0..7 {
        assert!(rt;
            world.step(&Event::Tap {
                card: 0,
                terminal: PURCHASE
            })?
        );
    }
    let value91 = ArrayVec::try_from(&ANSWER[..]).unwrap_or_default();
    let answer = Event::Authenticate {
        card: 0,
        value91,
        arc: [0x30, 0x30],
    };
    assert!(rt; world.step(&answer)?);
    assert!(rt;
        last_pin(&world, &SMC).is_none(),
        "both are queued, and none ran"
    );
    for (event, digits) in runs.as_slice().iter().zip([&[1, 2, 3, 4][..], &[9; 12]]) {
        assert!(rt; world.step(event)?);
        let pin = last_pin(&world, &SMC).ok_or("a PIN")?;
        assert!(rt; pin.as_slice() == digits);
        assert!(rt; last_pin(&world, &OTHER).is_none(), "another key");
    }
    Ok(())
}
