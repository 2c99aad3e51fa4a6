//! Clearing checks: runs with their clearing lines and journal, and the expected outcome of each.

use crate::feeds::EXPORTED;
use crate::running::{Run, SHOW, Texts, one_shard, run_at};
use crate::samples::{
    CERTIFICATE_7, CERTIFICATE_7_MORE, CERTIFICATE_8, DECISION_7, REPLY_7, REQUEST_7, VERSION,
};
use crate::worked_rows::{SERVED, comes_to_the_expected};
use issuer_base::OpenGate;
use std::sync::Wait;
use std::test::Fail;
use std::thread::Threads;

/// A journal with the decision of transaction 7 alone.
const JOURNAL: &[&str] = &[VERSION, DECISION_7, REPLY_7];

/// A row without clearing lines, over that journal.
const CHECKED: Run = Run {
    words: "clear --config config --clearing requests --journal journal",
    before: Some(JOURNAL),
    after: Some(JOURNAL),
    ..SERVED
};

/// Clearing lines, whose verdicts are another program's.
static CLEARINGS: [Run; 4] = [
    Run {
        name: "no clearing line",
        answers: &["open 0 0\ntotal 0 1\n"],
        ..CHECKED
    },
    Run {
        name: "a certificate",
        requests: &[CERTIFICATE_7],
        answers: &["certified 0 0\ntotal 1 0\n"],
        ..CHECKED
    },
    Run {
        name: "a certificate twice",
        requests: &[CERTIFICATE_7, CERTIFICATE_7],
        answers: &["certified 0 0\ncertified 0 0\ntotal 1 0\n"],
        ..CHECKED
    },
    Run {
        name: "a request, a certificate without a record, and one of another amount",
        requests: &[REQUEST_7, CERTIFICATE_8, CERTIFICATE_7_MORE],
        answers: &["refused 17\nlone\ndiffers 0 0\nopen 0 0\ntotal 0 1\n"],
        ..CHECKED
    },
];

/// Devices that fail.
static FAULTS: [Run; 4] = [
    Run {
        name: "a clearing file that can't be opened",
        requests: &[CERTIFICATE_7],
        fails: [None, None, Some(3), None, None, None],
        answers: &["stop 3\n"],
        status: 3,
        ..CHECKED
    },
    Run {
        name: "a clearing file that can't be read",
        requests: &[CERTIFICATE_7],
        fails: [None, Some(0), None, None, None, None],
        answers: &["stop 3\n"],
        status: 3,
        ..CHECKED
    },
    Run {
        name: "a sink that fails",
        requests: &[CERTIFICATE_7],
        fails: [None, None, None, Some(0), None, None],
        answers: &[],
        status: 4,
        ..CHECKED
    },
    Run {
        name: "a journal that can't be loaded",
        requests: &[CERTIFICATE_7],
        fails: [None, None, None, None, Some(0), None],
        answers: &["stop 5 0\n"],
        status: 5,
        ..CHECKED
    },
];

/// A check without clearing lines, the cards of the same journal, shown, and its feed: each reads the journal while it is
/// loaded.
static READERS: [Run; 3] = [
    CHECKED,
    Run {
        before: Some(JOURNAL),
        after: Some(JOURNAL),
        ..EXPORTED
    },
    Run {
        words: SHOW,
        ..CHECKED
    },
];

/// More calls than the journal's store of these runs receives.
const MOST_CALLS: u64 = 20;

fn clearings() -> &'static [Run] {
    &CLEARINGS
}

fn faults() -> &'static [Run] {
    &FAULTS
}

#[test]
fn checks_clearing_lines(rt: HostRuntime) -> Result<(), Fail> {
    let mut journals = Texts::none(rt.alloc());
    for runs in [clearings(), faults()] {
        for run in runs {
            let is_right = comes_to_the_expected(&rt, run, &mut journals)?;
            assert!(rt; is_right, "{}", run.name);
        }
    }
    Ok(())
}

/// How many calls a run makes of the journal's store. Each that fails stops it.
fn calls_of<R: AllocGlobal + Threads + Wait + Sync>(rt: &R, run: &Run) -> Result<u64, Fail> {
    for call in 0..MOST_CALLS {
        let fails = [None, None, None, None, Some(call), None];
        let mut journals = one_shard(rt.alloc(), &[], JOURNAL)?;
        let (status, text) = run_at(rt, run, &fails, &mut journals, &OpenGate)?;
        if status == 0 {
            return Ok(call);
        }
        if status != 5 || text.as_str() != "stop 5 0\n" {
            return Err(Fail::from("another end"));
        }
    }
    Err(Fail::from("more calls"))
}

#[test]
fn stops_at_a_fault_of_the_second_reading(rt: HostRuntime) -> Result<(), Fail> {
    let [check, export, show] = &READERS;
    let shown = calls_of(&rt, show)?;
    assert!(rt; shown < calls_of(&rt, check)?);
    assert!(rt; shown < calls_of(&rt, export)?);
    Ok(())
}
