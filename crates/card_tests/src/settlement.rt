//! Each outcome, at its limits.

use cvr_settle::{Flight, Settled, settle};
use std::test::Fail;

#[test]
fn settles_by_register_and_count(rt: HostRuntime) -> Result<(), Fail> {
    let flight = Some(Flight {
        counter: 7,
        size: 3,
    });
    for (name, flight, register, count, expected) in [
        ("nothing in flight", None, 9, 15, Settled::Nothing),
        ("all ran", flight, 7, 3, Settled::Ran(3)),
        ("none ran", flight, 7, 0, Settled::Ran(0)),
        ("more than were sent", flight, 7, 4, Settled::Halt),
        ("an older reply", flight, 6, 3, Settled::Nothing),
        ("a reply that was never sent", flight, 8, 0, Settled::Halt),
    ] {
        assert_eq!(rt; settle(flight, register, count), expected, "{name}");
    }
    Ok(())
}
