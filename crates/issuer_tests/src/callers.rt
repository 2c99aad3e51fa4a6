//! Lines that several callers answer concurrently.

use crate::running::{NONE_FAILS, Run, SHOW, Texts, run_at};
use crate::samples::{CONFIG, FRESH_EACH, REQUEST_7, SEVENTH_EACH, TWENTY_EACH, TWO_SHARDS};
use issuer_base::{Gate, OpenGate};
use std::sync::Wait;
use std::sync::atomic::{AtomicBool, Ordering};
use std::test::Fail;

/// A gate that holds back one line until another was answered, or until it has polled for that `MOST_LOOKS` times.
#[derive(Drop)]
struct Holding {
    held: u64,
    other: u64,
    answered: AtomicBool,
    seen: AtomicBool,
}

/// How often the gate polls.
const MOST_LOOKS: u32 = 10_000_000;

impl Gate for Holding {
    fn at<R: Wait>(&self, _rt: &R, line: u64) {
        if line == self.held && looks_for(&self.answered, MOST_LOOKS) {
            self.seen.store(true, Ordering::SeqCst);
        }
    }

    fn done<R: Wait>(&self, _rt: &R, line: u64) {
        if line == self.other {
            self.answered.store(true, Ordering::SeqCst);
        }
    }
}

/// Polls a flag up to `most` times, and returns whether it was set.
pub(crate) fn looks_for(flag: &AtomicBool, most: u32) -> bool {
    for _ in 0..most {
        if flag.load(Ordering::SeqCst) {
            return true;
        }
    }
    false
}

/// A run of this many callers over an empty journal.
macro_rules! run {
    ($callers:literal, $config:expr, $requests:expr) => {
        Run {
            name: "callers",
            words: concat!(
                "serve --config config --requests requests --journal journal --callers ",
                $callers
            ),
            config: $config,
            requests: $requests,
            old: &[],
            before: None,
            fails: NONE_FAILS,
            answers: &[],
            status: 0,
            after: None,
        }
    };
}

static TWO_CALLERS: Run = run!("2", TWO_SHARDS, &[SEVENTH_EACH]);

static FOUR_CALLERS: Run = run!("4", TWO_SHARDS, &[TWENTY_EACH]);

static SIXTEEN_CALLERS: Run = run!("16", CONFIG, &[REQUEST_7; 32]);

static SHOWN: Run = Run {
    name: "shown",
    words: SHOW,
    config: TWO_SHARDS,
    requests: &[],
    old: &[],
    before: None,
    fails: NONE_FAILS,
    answers: &[],
    status: 0,
    after: None,
};

/// Each of the two lines is held back in turn until the other was answered, which only concurrent callers can do.
#[test]
fn answers_one_line_while_another_is_kept(rt: HostRuntime) -> Result<(), Fail> {
    for (held, other) in [(1, 2), (2, 1)] {
        let gate = Holding {
            held,
            other,
            answered: AtomicBool::new(false),
            seen: AtomicBool::new(false),
        };
        let mut journals = Texts::none(rt.alloc());
        let (status, text) = run_at(&rt, &TWO_CALLERS, &NONE_FAILS, &mut journals, &gate)?;
        assert_eq!(rt; text.as_str(), FRESH_EACH);
        assert_eq!(rt; status, 0);
        assert!(rt; gate.seen.load(Ordering::SeqCst));
    }
    Ok(())
}

/// The prefixes of the answers with these positions in the journals of the two shards.
macro_rules! fresh_at {
    ($($position:literal),+ $(,)?) => {
        [$(concat!("fresh 0 ", $position, " "), concat!("fresh 1 ", $position, " ")),+]
    };
}

const FRESH_AT: [&str; 40] = fresh_at!(
    "0", "1", "2", "3", "4", "5", "6", "7", "8", "9", "10", "11", "12", "13", "14", "15", "16",
    "17", "18", "19",
);

/// The output of `show` for cards with twenty decisions each.
const TWENTY_SHOWN: &str =
    "4000000000000002 00 hi 20 status 0 queued 0 done 0 flight 20 0 ok\n4000000000000010 00 hi 20 status 0 queued 0 done 0 flight 20 0 ok\n";

/// There are 40 answers, and one for each position.
#[test]
fn four_callers_record_each_line_once(rt: HostRuntime) -> Result<(), Fail> {
    let mut journals = Texts::none(rt.alloc());
    let (status, text) = run_at(&rt, &FOUR_CALLERS, &NONE_FAILS, &mut journals, &OpenGate)?;
    assert_eq!(rt; status, 0);
    assert_eq!(rt; text.as_str().lines().count(), 40);
    for beginning in FRESH_AT {
        assert!(rt; text.as_str().contains(beginning), "{beginning}");
    }
    let (status, text) = run_at(&rt, &SHOWN, &NONE_FAILS, &mut journals, &OpenGate)?;
    assert_eq!(rt; status, 0);
    assert_eq!(rt; text.as_str(), TWENTY_SHOWN);
    Ok(())
}

#[test]
fn sixteen_callers_decide_a_counter_once(rt: HostRuntime) -> Result<(), Fail> {
    let mut journals = Texts::none(rt.alloc());
    let (status, text) = run_at(&rt, &SIXTEEN_CALLERS, &NONE_FAILS, &mut journals, &OpenGate)?;
    assert_eq!(rt; status, 0);
    let mut fresh = 0u8;
    let mut others = 0u8;
    for line in text.as_str().lines() {
        if line.starts_with("fresh 0 0 ") {
            fresh = fresh.saturating_add(1);
        } else if line.starts_with("kept 0 0 ") || line == "refused 12" {
            others = others.saturating_add(1);
        }
    }
    assert_eq!(rt; fresh, 1);
    assert_eq!(rt; others, 31);
    Ok(())
}
