//! Runs in which two journals can't be loaded: the first of them is reported.

use crate::running::{Fails, NONE_FAILS, Run, SERVE, Texts, run_at};
use crate::samples::TWO_SHARDS;
use issuer_base::OpenGate;
use std::test::Fail;

/// Journals of two shards, the call at which each of their stores fails, and what the run reports of them.
struct Row {
    name: &'static str,
    journals: [&'static str; 2],
    store_fails: Option<u64>,
    status: u8,
    text: &'static str,
}

const BAD: &str = "v2\nno record\n";

const GOOD: &str = "v2\n";

static ROWS: [Row; 4] = [
    Row {
        name: "two bad journals",
        journals: [BAD, BAD],
        store_fails: None,
        status: 6,
        text: "stop 6 0 2\n",
    },
    Row {
        name: "a bad journal behind a good one",
        journals: [GOOD, BAD],
        store_fails: None,
        status: 6,
        text: "stop 6 1 2\n",
    },
    Row {
        name: "a store that fails behind a bad journal",
        journals: [BAD, GOOD],
        store_fails: Some(2),
        status: 6,
        text: "stop 6 0 2\n",
    },
    Row {
        name: "a bad journal behind a store that fails",
        journals: [GOOD, BAD],
        store_fails: Some(0),
        status: 5,
        text: "stop 5 0\n",
    },
];

static RUNS: [Run; 2] = [
    Run {
        name: "one caller",
        words: SERVE,
        config: TWO_SHARDS,
        requests: &[],
        old: &[],
        before: None,
        fails: NONE_FAILS,
        answers: &[],
        status: 0,
        after: None,
    },
    Run {
        name: "four callers",
        words: "serve --config config --requests requests --journal journal --callers 4",
        config: TWO_SHARDS,
        requests: &[],
        old: &[],
        before: None,
        fails: NONE_FAILS,
        answers: &[],
        status: 0,
        after: None,
    },
];

/// Each run reports the first shard in order that can't be loaded, and leaves both journals unchanged.
#[test]
fn tells_of_the_first_shard_that_is_not_loaded(rt: HostRuntime) -> Result<(), Fail> {
    for run in &RUNS {
        for row in &ROWS {
            let mut journals = Texts::none(rt.alloc());
            for journal in &row.journals {
                journals
                    .stores
                    .push(journal.as_bytes().to_vec(rt.alloc())?)?;
            }
            let fails: Fails = [None, None, None, None, row.store_fails, None];
            let (status, text) = run_at(&rt, run, &fails, &mut journals, &OpenGate)?;
            assert_eq!(rt; status, row.status, "{}: {}", run.name, row.name);
            assert_eq!(rt; text.as_str(), row.text, "{}", row.name);
            for (left, journal) in journals.stores.iter().zip(row.journals.iter()) {
                assert!(rt; left.as_slice() == journal.as_bytes(), "{}", row.name);
            }
        }
    }
    Ok(())
}
