//! A world that falls back to the records that a standby node has.

use crate::random_events::new_world;
use crate::restarts::{PURCHASE, block, claim};
use issuer_base::Suite;
use sample_issuer::{CARDS, deciding_table, issuer};
use std::test::Fail;
use world_net::Event;

#[test]
fn falls_back_only_if_no_sent_reply_is_lost(rt: HostRuntime) -> Result<(), Fail> {
    let table = deciding_table().ok_or("a table")?;
    let issuer = issuer(rt.alloc(), 1, &CARDS, table).ok_or("an issuer")?;
    let mut world = new_world(rt.alloc(), issuer, Suite::TripleDes)?;
    let tap = Event::Tap {
        card: 0,
        terminal: PURCHASE,
    };
    for _ in 0..7 {
        assert!(rt; world.step(&tap)?);
    }
    let write = Event::Write {
        caller: 0,
        stored: true,
    };
    let send = Event::Send { shard: 0, place: 1 };
    let release = Event::Release { caller: 0 };
    for event in [block(), claim(0), write, block()] {
        assert!(rt; world.step(&event)?);
    }
    let unsent: [(&str, &[u64], bool); 5] = [
        ("no number", &[], false),
        ("a number too many", &[3, 0], false),
        ("more records than there are", &[4], false),
        ("a decision whose reply wasn't sent", &[1], true),
        ("more records than are left", &[2], false),
    ];
    for (name, keep, expected) in unsent {
        assert_eq!(rt; world.fall_back(keep), expected, "{name}");
    }
    assert!(rt; world.step(&claim(0))?, "a counter that is free again");
    assert!(rt; world.fall_back(&[1]), "a claim that is open");
    assert!(rt; !world.step(&release)?, "a claim that ended");
    for event in [
        claim(0),
        Event::Write {
            caller: 0,
            stored: true,
        },
        send,
        block(),
    ] {
        assert!(rt; world.step(&event)?);
    }
    let sent: [(&str, &[u64], bool); 3] = [
        ("a decision whose reply was sent", &[1], false),
        ("the command after it", &[2], true),
        ("the same records again", &[2], true),
    ];
    for (name, keep, expected) in sent {
        assert_eq!(rt; world.fall_back(keep), expected, "{name}");
    }
    Ok(())
}
