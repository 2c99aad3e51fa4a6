//! Exports of journals, and standbys that take a feed: runs with their journal and feed, and the expected outcome of each.

use crate::running::{Run, Texts};
use crate::samples::VERSION;
use crate::worked_rows::{COMMAND, SERVED, STATUS_3, comes_to_the_expected};
use std::test::Fail;

/// A journal with a status and a command of the first card.
const JOURNAL: &[&str] = &[VERSION, STATUS_3, COMMAND];

/// A row over that journal.
pub(crate) const EXPORTED: Run = Run {
    words: "export --config config --journal journal",
    before: Some(JOURNAL),
    after: Some(JOURNAL),
    ..SERVED
};

/// Exports, whose feeds are another program's.
static EXPORTS: [Run; 6] = [
    Run {
        name: "the feed of two records",
        answers: &["0 0 ", STATUS_3, "0 1 ", COMMAND],
        ..EXPORTED
    },
    Run {
        name: "a journal without records",
        before: Some(&[VERSION]),
        after: Some(&[VERSION]),
        ..EXPORTED
    },
    Run {
        name: "a torn last line, which isn't exported",
        before: Some(&[VERSION, STATUS_3, "q 40000"]),
        answers: &["0 0 ", STATUS_3],
        after: Some(&[VERSION, STATUS_3]),
        ..EXPORTED
    },
    Run {
        name: "a bad journal",
        before: Some(&[VERSION, "x\n"]),
        answers: &["stop 6 0 2\n"],
        status: 6,
        after: Some(&[VERSION, "x\n"]),
        ..EXPORTED
    },
    Run {
        name: "a journal that can't be loaded",
        fails: [None, None, None, None, Some(0), None],
        answers: &["stop 5 0\n"],
        status: 5,
        ..EXPORTED
    },
    Run {
        name: "a sink that fails",
        fails: [None, None, None, Some(0), None, None],
        status: 4,
        ..EXPORTED
    },
];

/// A row of a standby without a journal of its own.
const STOOD_BY: Run = Run {
    words: "standby --config config --feed requests --journal journal",
    ..SERVED
};

/// Feeds, whose journals are another program's.
static STANDBYS: [Run; 7] = [
    Run {
        name: "records out of order, each twice",
        requests: &[
            "0 1 ", COMMAND, "0 0 ", STATUS_3, "0 1 ", COMMAND, "0 0 ", STATUS_3,
        ],
        answers: &["0 2\n"],
        after: Some(JOURNAL),
        ..STOOD_BY
    },
    Run {
        name: "a record whose predecessor is missing",
        requests: &["0 1 ", COMMAND],
        answers: &["0 0\n"],
        after: Some(&[VERSION]),
        ..STOOD_BY
    },
    Run {
        name: "a line without a record",
        requests: &["0 0 x\n"],
        answers: &["stop 11 1\n"],
        status: 11,
        after: Some(&[VERSION]),
        ..STOOD_BY
    },
    Run {
        name: "a bad line after a good one",
        requests: &["0 0 ", STATUS_3, "1 0 ", STATUS_3, "0 1 ", COMMAND],
        answers: &["stop 11 2\n"],
        status: 11,
        after: Some(&[VERSION, STATUS_3]),
        ..STOOD_BY
    },
    Run {
        name: "a line without a record, next only after the line before it",
        requests: &["0 0 ", STATUS_3, "0 1 x\n", "0 1 ", COMMAND],
        answers: &["stop 11 2\n"],
        status: 11,
        after: Some(&[VERSION, STATUS_3]),
        ..STOOD_BY
    },
    Run {
        name: "a line without a record, which isn't next",
        requests: &["0 1 x\n", "0 0 ", STATUS_3, "0 1 ", COMMAND],
        answers: &["0 2\n"],
        after: Some(JOURNAL),
        ..STOOD_BY
    },
    Run {
        name: "a torn last line, after records that the journal has",
        requests: &["0 0 ", STATUS_3, "0 1 ", COMMAND, "0 2 s 4000"],
        before: Some(&[VERSION, STATUS_3]),
        answers: &["0 2\n"],
        after: Some(JOURNAL),
        ..STOOD_BY
    },
];

/// A feed over devices that fail.
static STANDBY_FAULTS: [Run; 4] = [
    Run {
        name: "a feed that can't be opened",
        requests: &["0 0 ", STATUS_3],
        fails: [None, None, Some(3), None, None, None],
        answers: &["stop 3\n"],
        status: 3,
        after: Some(&[VERSION]),
        ..STOOD_BY
    },
    Run {
        name: "a feed that can't be read on",
        requests: &["0 0 ", STATUS_3],
        fails: [None, Some(1), None, None, None, None],
        answers: &["stop 3\n"],
        status: 3,
        after: Some(&[VERSION, STATUS_3]),
        ..STOOD_BY
    },
    Run {
        name: "a sink that fails",
        requests: &["0 0 ", STATUS_3],
        fails: [None, None, None, Some(0), None, None],
        status: 4,
        after: Some(&[VERSION, STATUS_3]),
        ..STOOD_BY
    },
    Run {
        name: "a journal that can't be loaded",
        requests: &["0 0 ", STATUS_3],
        before: Some(JOURNAL),
        fails: [None, None, None, None, Some(0), None],
        answers: &["stop 5 0\n"],
        status: 5,
        after: Some(JOURNAL),
        ..STOOD_BY
    },
];

fn exports() -> &'static [Run] {
    &EXPORTS
}

fn standbys() -> &'static [Run] {
    &STANDBYS
}

fn standby_faults() -> &'static [Run] {
    &STANDBY_FAULTS
}

#[test]
fn exports_journals_and_takes_feeds(rt: HostRuntime) -> Result<(), Fail> {
    let mut journals = Texts::none(rt.alloc());
    for runs in [exports(), standbys(), standby_faults()] {
        for run in runs {
            let is_right = comes_to_the_expected(&rt, run, &mut journals)?;
            assert!(rt; is_right, "{}", run.name);
        }
    }
    Ok(())
}
