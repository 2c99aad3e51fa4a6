//! A full queue, and templates whose bytes were counted by hand.

use arrayvec::ArrayVec;
use issuer_base::{Command, MAX_UNDONE, QueueFull};
use script_queue::Queue;
use std::test::Fail;

/// An update of a record: `p1` distinguishes the commands, and the data have `bytes` bytes.
fn command(p1: u8, bytes: usize) -> Result<Command, Fail> {
    let data = [0xA5; 64];
    let data = data.get(..bytes).ok_or("too long")?;
    Ok(Command {
        cla: 0x04,
        ins: 0xDC,
        p1,
        p2: 0x0C,
        body: ArrayVec::try_from(data)?,
    })
}

#[test]
fn takes_sixty_four_and_goes_on_where_some_are_done(rt: HostRuntime) -> Result<(), Fail> {
    let mut queue = Queue::new(rt.alloc()).map_err(|_| "memory")?;
    for number in 0..MAX_UNDONE {
        let given = queue.push(command(number, 0)?);
        assert!(rt; given == Ok(u32::from(number)), "{number}");
    }
    assert!(rt; queue.push(command(64, 0)?) == Err(QueueFull));
    assert_eq!(rt; queue.undone(), 64);
    queue.advance(62);
    assert!(rt; queue.push(command(64, 0)?) == Ok(64));
    assert_eq!(rt; queue.queued(), 65);
    assert_eq!(rt; queue.undone(), 3);
    assert_eq!(rt; queue.at(2).p1, 64);
    let (first, second) = queue.part(0, 2);
    assert_eq!(rt; first.len() + second.len(), 2);
    Ok(())
}

/// The sizes of the data of some commands, and how many of them fit into one template.
const TEMPLATES: [(&str, &[usize], u8); 7] = [
    ("none", &[], 0),
    ("one of the longest", &[64], 1),
    ("128 bytes", &[64, 25], 2),
    ("129 bytes", &[64, 26], 1),
    ("a short one behind one that doesn't fit", &[64, 64, 0], 1),
    ("seven in 128 bytes", &[2, 2, 2, 2, 2, 2, 2, 0], 7),
    (
        "six, and 129 bytes with the next",
        &[2, 2, 2, 2, 2, 2, 3],
        6,
    ),
];

#[test]
fn counts_the_commands_of_a_template(rt: HostRuntime) -> Result<(), Fail> {
    for (name, sizes, expected) in &TEMPLATES {
        let mut queue = Queue::new(rt.alloc()).map_err(|_| "memory")?;
        for bytes in *sizes {
            let given = queue.push(command(0, *bytes)?);
            assert!(rt; given.is_ok(), "{name}");
        }
        assert_eq!(rt; queue.fitting(), *expected, "{name}");
    }
    Ok(())
}
