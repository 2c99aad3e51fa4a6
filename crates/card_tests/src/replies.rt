//! Lookups after some decisions were stored.

use arrayvec::ArrayVec;
use issuer_base::Reply;
use reply_keep::Kept;
use sample_issuer::purchase;
use std::test::Fail;

#[test]
fn finds_what_was_kept_last_in_a_slot(rt: HostRuntime) -> Result<(), Fail> {
    let mut kept = Kept::new(rt.alloc()).map_err(|_| "memory")?;
    for (counter, place) in [(0, 5), (1, 6), (255, 7), (257, 8), (65_535, 9)] {
        let request = purchase(counter, 0, 0).ok_or("a request")?;
        let reply = Reply {
            arc: [0x30, 0x30],
            approve: true,
            bytes: ArrayVec::new(),
        };
        kept.keep(&request, &reply, place);
    }
    for (name, counter, expected) in [
        ("the counter 0", 0, Some(5)),
        ("a counter that gave way", 1, None),
        ("the one in its place", 257, Some(8)),
        ("the slot of 255 after 65,535", 255, None),
        ("the greatest counter", 65_535, Some(9)),
        ("none in its slot", 2, None),
    ] {
        let found = kept.find(counter).map(|entry| entry.place);
        assert_eq!(rt; found, expected, "{name}");
    }
    Ok(())
}
