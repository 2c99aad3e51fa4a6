//! Lines that are dealt to several callers in threads of their own, over stores in memory, and their answers in order.
ghost use Rattle.std.specs.Prelude.{◌≡◌, ◌<◌, ◌≤◌, [], IfOk};
ghost use Rattle.issuer_base.specs.declared.limits.TheConstants.{MAX_CALLERS};
ghost use Rattle.shared_callers.specs.Lanes.{waiting_in, due_in};

use crate::hosts::{empty_stores, sample, store};
use crate::passes::{NINTH, SIXTH};
use issuer_base::{KEPT_BYTES, OpenGate, Store};
use line_blocks::Block;
use memory_edge::{MemorySink, MemoryStore};
use sample_issuer::REQUEST;
use shared_callers::{HostBack, Lanes, LoadFault};
use std::alloc::Global;
use std::sync::Wait;
use std::test::Fail;
use std::thread::Threads;

/// A status of each of the issuer's cards.
const STATUS: [&str; 4] = [
    "S 4000000000000002 00 3",
    "S 4000000000000010 00 3",
    "S 4000000000000028 00 3",
    "S 4000000000000036 00 3",
];

/// A line for a card that the issuer doesn't have, and a line of no form.
const UNKNOWN: &str = "S 4000000000000044 00 3";

const BAD: &str = "X";

/// A card block for the second card.
const COMMAND: &str = "Q 4000000000000010 00 84160000";

/// `callers` callers of a host over these stores, of old journals and journals, or what its loading gives back.
fn load<R: Threads + Sync>(
    rt: &R,
    alloc: Global,
    callers: u8,
    shards: u8,
    olds: &mut Vec<MemoryStore>,
    stores: Vec<MemoryStore>,
) -> Result<Result<Lanes<MemoryStore>, HostBack<MemoryStore>>, Fail>
    requires { (0 < callers) × (callers ≤ MAX_CALLERS) }
    ensures { IfOk result (λ made. IfOk made (λ lanes. (waiting_in lanes ≡ 0) × (due_in lanes ≡ 0))) }
{
    let issuer = sample(alloc, shards)?;
    if olds.len() != usize::from(shards) || stores.len() != usize::from(shards) {
        return Err("two stores for each shard".into());
    }
    Ok(Lanes::load(rt, alloc, olds, stores, issuer, callers))
}

/// `callers` callers of a host over these stores.
fn open_over<R: Threads + Sync>(
    rt: &R,
    alloc: Global,
    callers: u8,
    shards: u8,
    stores: Vec<MemoryStore>,
) -> Result<Lanes<MemoryStore>, Fail>
    requires { (0 < callers) × (callers ≤ MAX_CALLERS) }
    ensures { IfOk result (λ lanes. (waiting_in lanes ≡ 0) × (due_in lanes ≡ 0)) }
{
    let mut olds = empty_stores(alloc, shards)?;
    match load(rt, alloc, callers, shards, &mut olds, stores)? {
        Ok(lanes) => Ok(lanes),
        Err(
            HostBack {
                fault: _,
                shard: _,
                stores: _,
            },
        ) => Err("lanes".into()),
    }
}

/// `callers` callers of a host over empty stores, one for each shard.
fn open<R: Threads + Sync>(
    rt: &R,
    alloc: Global,
    callers: u8,
    shards: u8,
) -> Result<Lanes<MemoryStore>, Fail>
    requires { (0 < callers) × (callers ≤ MAX_CALLERS) }
    ensures { IfOk result (λ lanes. (waiting_in lanes ≡ 0) × (due_in lanes ≡ 0)) }
{
    open_over(rt, alloc, callers, shards, empty_stores(alloc, shards)?)
}

/// Deals `count` lines in all, these again and again, while the lanes have room. Then all callers answer them
/// concurrently, and their answers are written.
fn answer<R: Threads + Wait + Sync>(
    rt: &R,
    lanes: &mut Lanes<MemoryStore>,
    lines: &[&str],
    count: usize,
    block: &mut Block,
    sink: &mut MemorySink,
)
    requires due { due_in lanes.old ≡ 0 }
    requires empty { (block.old.text.items ≡ []) × (block.old.lines ≡ 0) }
    ensures due { (due_in lanes.new ≡ 0) × (waiting_in lanes.new ≡ 0) }
    ensures empty { (block.new.text.items ≡ []) × (block.new.lines ≡ 0) }
{
    for line in lines.iter().cycle().take(count) {
        if !lanes.is_full() && line.len() <= KEPT_BYTES {
            lanes.deal(line.as_bytes());
        }
    }
    lanes.answer(rt, &OpenGate);
    let _written = lanes.write_answers(block, sink);
}

/// A sink in memory with room for all answers of a test.
fn sink(alloc: Global) -> Result<MemorySink, Fail> {
    Ok(MemorySink::new(alloc, 262_144, Vec::new(alloc))?)
}

/// What was written.
fn text(alloc: Global, sink: &MemorySink) -> Result<String, Fail> {
    Ok(String::from_utf8(sink.bytes().to_vec(alloc)?)?)
}

/// The letter of an answer.
fn letter(answer: &str) -> u8 {
    if answer.starts_with("fresh ") {
        b'F'
    } else if answer.starts_with("kept ") {
        b'K'
    } else if answer.starts_with("set ") {
        b'S'
    } else if answer.starts_with("queued ") {
        b'Q'
    } else if answer == "refused 12" {
        b'P'
    } else if answer == "refused 6" {
        b'U'
    } else if answer == "refused 1 1" {
        b'B'
    } else {
        b'R'
    }
}

#[test]
fn answers_come_in_the_order_of_lines(rt: HostRuntime) -> Result<(), Fail> {
    let mut block = Block::new(rt.alloc())?;
    let mut sink = sink(rt.alloc())?;
    let mut lanes = open(&rt, rt.alloc(), 3, 1)?;
    answer(
        &rt,
        &mut lanes,
        &[BAD, STATUS[0], UNKNOWN, COMMAND],
        4,
        &mut block,
        &mut sink,
    );
    answer(&rt, &mut lanes, &[UNKNOWN, BAD], 2, &mut block, &mut sink);
    lanes.close();
    let text = text(rt.alloc(), &sink)?;
    assert_eq!(rt; text.as_str().lines().count(), 6);
    for (answer, expected) in text.as_str().lines().zip(b"BSUQUB") {
        assert_eq!(rt; letter(answer), *expected);
    }
    Ok(())
}

/// Deals statuses to so many callers until no more fits, and returns how many they set.
fn fill_and_answer<R: Threads + Wait + Sync>(
    rt: &R,
    alloc: Global,
    callers: u8,
) -> Result<usize, Fail>
    requires { (0 < callers) × (callers ≤ MAX_CALLERS) }
{
    let mut block = Block::new(alloc)?;
    let mut sink = sink(alloc)?;
    let mut lanes = open(rt, alloc, callers, 1)?;
    answer(rt, &mut lanes, &STATUS, 9_000, &mut block, &mut sink);
    lanes.close();
    let text = text(alloc, &sink)?;
    let mut set = 0usize;
    for answer in text.as_str().lines() {
        if !answer.starts_with("set 0 ") {
            return Err("another answer".into());
        }
        set = set.saturating_add(1);
    }
    Ok(set)
}

/// Up to four callers share 512 lines. Each of more has as many times 128 as there are times four callers.
#[test]
fn full_lanes_are_answered(rt: HostRuntime) -> Result<(), Fail> {
    let alloc = rt.alloc();
    assert_eq!(rt; fill_and_answer(&rt, alloc, 1)?, 512);
    assert_eq!(rt; fill_and_answer(&rt, alloc, 3)?, 510);
    assert_eq!(rt; fill_and_answer(&rt, alloc, 7)?, 896);
    assert_eq!(rt; fill_and_answer(&rt, alloc, 16)?, 8_192);
    Ok(())
}

/// Four callers ask the same three requests again and again, and set a status in between.
#[test]
fn callers_at_one_shard_decide_each_request_once(rt: HostRuntime) -> Result<(), Fail> {
    let mut block = Block::new(rt.alloc())?;
    let mut sink = sink(rt.alloc())?;
    let mut lanes = open(&rt, rt.alloc(), 4, 1)?;
    let lines = [
        REQUEST, REQUEST, REQUEST, REQUEST, STATUS[0], STATUS[0], STATUS[1], STATUS[2], NINTH,
        NINTH, NINTH, NINTH, SIXTH, SIXTH, SIXTH, SIXTH,
    ];
    answer(&rt, &mut lanes, &lines, 400, &mut block, &mut sink);
    answer(&rt, &mut lanes, &lines, 400, &mut block, &mut sink);
    lanes.close();
    let text = text(rt.alloc(), &sink)?;
    let mut fresh = 0usize;
    let mut known = 0usize;
    let mut set = 0usize;
    for answer in text.as_str().lines() {
        match letter(answer) {
            b'F' => fresh = fresh.saturating_add(1),
            b'K' | b'P' => known = known.saturating_add(1),
            b'S' => set = set.saturating_add(1),
            _ => {}
        }
    }
    assert!(rt; fresh == 3 && known == 597 && set == 200);
    Ok(())
}

/// Each of four callers sets the status of a card of its own shard.
#[test]
fn callers_at_a_shard_each_fill_its_places(rt: HostRuntime) -> Result<(), Fail> {
    let mut block = Block::new(rt.alloc())?;
    let mut sink = sink(rt.alloc())?;
    let mut lanes = open(&rt, rt.alloc(), 4, 4)?;
    answer(&rt, &mut lanes, &STATUS, 400, &mut block, &mut sink);
    answer(&rt, &mut lanes, &STATUS, 400, &mut block, &mut sink);
    lanes.close();
    let text = text(rt.alloc(), &sink)?;
    assert_eq!(rt; text.as_str().lines().count(), 800);
    for (index, answer) in text.as_str().lines().enumerate() {
        let expected = format!(in rt.alloc(); "set {} {}", index % 4, index / 4)?;
        assert_eq!(rt; answer, expected.as_str());
    }
    Ok(())
}

/// What `callers` callers of a host over these stores answer to two requests of one card is appended to the sink; the
/// stores that they leave.
fn answer_two<R: Threads + Wait + Sync>(
    rt: &R,
    alloc: Global,
    callers: u8,
    stores: Vec<MemoryStore>,
    sink: &mut MemorySink,
) -> Result<Vec<MemoryStore>, Fail>
    requires { (0 < callers) × (callers ≤ MAX_CALLERS) }
{
    let mut block = Block::new(alloc)?;
    let mut lanes = open_over(rt, alloc, callers, 4, stores)?;
    answer(rt, &mut lanes, &[REQUEST, NINTH], 2, &mut block, sink);
    Ok(lanes.close())
}

/// A host that several callers loaded returns the replies of one that one caller loaded.
#[test]
fn callers_load_what_one_does(rt: HostRuntime) -> Result<(), Fail> {
    let alloc = rt.alloc();
    let mut sink = sink(alloc)?;
    let stores = answer_two(&rt, alloc, 4, empty_stores(alloc, 4)?, &mut sink)?;
    let stores = answer_two(&rt, alloc, 1, stores, &mut sink)?;
    answer_two(&rt, alloc, 4, stores, &mut sink)?;
    let text = text(alloc, &sink)?;
    let mut told = Vec::new(alloc);
    for answer in text.as_str().lines() {
        told.push(answer)?;
    }
    let told = told.as_slice();
    assert_eq!(rt; told.len(), 6);
    assert!(rt; letter(told[0]) == b'F' && letter(told[2]) == b'K');
    assert!(rt; told[2] == told[4] && told[3] == told[5]);
    Ok(())
}

/// Loads seven journals, of which two are bad, by so many callers. The first bad one has to be named, the others
/// migrated, and the bad ones unchanged.
fn name_first_bad<R: Threads + Sync>(rt: &R, alloc: Global, callers: u8) -> Result<(), Fail>
    requires { (0 < callers) × (callers ≤ MAX_CALLERS) }
{
    let mut olds = empty_stores(alloc, 7)?;
    let mut stores = Vec::new(alloc);
    for text in ["", "v2\n", "", "v2\nx\n", "", "x\n", ""] {
        stores.push(store(alloc, text, &[])?)?;
    }
    match load(rt, alloc, callers, 7, &mut olds, stores)? {
        Ok(lanes) => {
            lanes.close();
            Err("no journal is named".into())
        }
        Err(
            HostBack {
                fault,
                shard,
                stores,
            },
        ) => {
            if fault != LoadFault::BadLine(2) || shard != 3 || stores.len() != 7 {
                return Err("another journal is named".into());
            }
            for (store, len) in stores.as_slice().iter().zip([3u64, 3, 3, 5, 3, 2, 3]) {
                if store.len() != len {
                    return Err("a store has another length".into());
                }
            }
            Ok(())
        }
    }
}

/// Fewer callers than shards, as many, and more.
#[test]
fn callers_name_the_first_bad_journal(rt: HostRuntime) -> Result<(), Fail> {
    let alloc = rt.alloc();
    name_first_bad(&rt, alloc, 1)?;
    name_first_bad(&rt, alloc, 2)?;
    name_first_bad(&rt, alloc, 3)?;
    name_first_bad(&rt, alloc, 7)?;
    name_first_bad(&rt, alloc, 16)
}
