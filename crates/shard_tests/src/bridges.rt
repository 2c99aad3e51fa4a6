//! A bridge that takes a partition over, answers, and is deposed.

use arrayvec::ArrayVec;
use bridge_rule::{Bridge, Held, INDEX_END, LOGS, Name, Opening, Place, Placed, Step, Text, Turn};
use std::test::Fail;

fn name_of(word: &[u8]) -> Result<Name, Fail> {
    let mut name = ArrayVec::new();
    name.try_extend_from_slice(word)?;
    Ok(name)
}

fn text_of(word: &[u8]) -> Result<Text, Fail> {
    let mut text = ArrayVec::new();
    text.try_extend_from_slice(word)?;
    Ok(text)
}

fn opening(number: u64, name: &[u8], machine: &[u8]) -> Result<Opening, Fail> {
    Ok(Opening {
        number,
        name: name_of(name)?,
        machine: name_of(machine)?,
    })
}

/// A bridge of the machine `m1` that follows an empty stream.
fn new_bridge(rt: &HostRuntime) -> Result<Bridge, Fail> {
    let none = Opening {
        number: 0,
        name: name_of(b"")?,
        machine: name_of(b"")?,
    };
    let mut bridge = Bridge::new(rt.alloc(), name_of(b"m1")?, none, &[0; LOGS], 1, 1)?;
    bridge.told();
    Ok(bridge)
}

/// The step at a record of shard 0 by this name.
fn step_at(
    bridge: &mut Bridge,
    name: &Name,
    index: u64,
    text: &[u8],
) -> Result<Option<Step>, Fail> {
    if !bridge.is_told() || index >= INDEX_END {
        return Ok(None);
    }
    let record = Placed {
        shard: 0,
        index,
        text: text_of(text)?,
    };
    let mut steps = [Step::Skips];
    match bridge.read_records(name, &[record], &mut steps) {
        Ok(()) => Ok(Some(steps[0])),
        Err(_) => Ok(None),
    }
}

/// Whether the bridge serves, and the answer with this number waits for a record of shard 0.
fn holds(bridge: &mut Bridge, reply: u64, index: u64) -> bool {
    let place = Some(Place { shard: 0, index });
    if !bridge.is_serving() || !bridge.knows(place) {
        return false;
    }
    let held = Held {
        reply: Some(reply),
        place,
    };
    bridge.hold(held).is_ok()
}

/// The number of the reply that goes, if the bridge serves and one goes.
fn goes(bridge: &mut Bridge) -> Option<u64> {
    if !bridge.is_serving() {
        return None;
    }
    bridge.release()?.reply
}

/// Whether the bridge learns the next record of shard 0.
fn learns(bridge: &mut Bridge, text: &[u8]) -> Result<bool, Fail> {
    if !bridge.is_learning() {
        return Ok(false);
    }
    Ok(bridge.learn(0, &text_of(text)?).is_ok())
}

/// What a barrier makes of the bridge.
fn turn_at(bridge: &mut Bridge, opening: &Opening) -> Option<Turn> {
    if !bridge.is_told() || opening.number >= INDEX_END {
        return None;
    }
    Some(bridge.read_barrier(opening))
}

#[test]
fn a_bridge_replies_once_its_record_counts_and_ends_at_another_barrier(
    rt: HostRuntime,
) -> Result<(), Fail> {
    let mut bridge = new_bridge(&rt)?;
    let first = opening(1, b"b1", b"m1")?;
    assert!(rt; bridge.is_following());
    let own = bridge.call(&first.name);
    assert!(rt; own.is_same(&first));
    assert!(rt;
        matches!(
            turn_at(&mut bridge, &opening(3, b"b3", b"m3")?),
            Some(Turn::Nothing)
        )
    );
    assert!(rt; matches!(turn_at(&mut bridge, &own), Some(Turn::Starts)));
    assert!(rt; learns(&mut bridge, b"r0")?);
    assert!(rt; !learns(&mut bridge, b"r1")?);
    assert!(rt; holds(&mut bridge, 7, 0));
    assert!(rt; !holds(&mut bridge, 8, 0));
    assert_eq!(rt; goes(&mut bridge), None);
    assert!(rt;
        matches!(
            step_at(&mut bridge, &name_of(b"b0")?, 0, b"r0")?,
            Some(Step::Skips)
        )
    );
    assert!(rt;
        matches!(
            step_at(&mut bridge, &own.name, 0, b"r0")?,
            Some(Step::Stays)
        )
    );
    assert_eq!(rt; goes(&mut bridge), Some(7));
    assert!(rt;
        matches!(
            turn_at(&mut bridge, &opening(2, b"b2", b"m2")?),
            Some(Turn::Ends)
        )
    );
    assert!(rt; !bridge.is_told());
    Ok(())
}

#[test]
fn a_bridge_that_follows_has_what_counts(rt: HostRuntime) -> Result<(), Fail> {
    let mut bridge = new_bridge(&rt)?;
    let first = opening(1, b"b1", b"m2")?;
    assert!(rt; matches!(turn_at(&mut bridge, &first), Some(Turn::Nothing)));
    assert!(rt;
        matches!(
            step_at(&mut bridge, &first.name, 0, b"r0")?,
            Some(Step::Puts)
        )
    );
    assert!(rt;
        matches!(
            step_at(&mut bridge, &first.name, 0, b"r0")?,
            Some(Step::Skips)
        )
    );
    bridge.part();
    assert!(rt; bridge.has(Place { shard: 0, index: 0 }));
    assert!(rt; !bridge.has(Place { shard: 0, index: 1 }));
    Ok(())
}
