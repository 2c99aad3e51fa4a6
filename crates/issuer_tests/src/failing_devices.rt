//! Runs in which one call of one device fails, for every call of every device.

use crate::running::{NONE_FAILS, Run, SERVE, SHOW, one_shard, run_at};
use crate::samples::{CONFIG, DECISION_1, REPLY_1, REQUEST_7};
use issuer_base::OpenGate;
use std::test::Fail;

static SERVES: [Run; 2] = [
    Run {
        name: "one caller",
        words: SERVE,
        config: CONFIG,
        requests: LINES,
        old: &[],
        before: None,
        fails: NONE_FAILS,
        answers: &[],
        status: 0,
        after: None,
    },
    Run {
        name: "four callers",
        words: "serve --config config --requests requests --journal journal --callers 4",
        config: CONFIG,
        requests: LINES,
        old: &[],
        before: None,
        fails: NONE_FAILS,
        answers: &[],
        status: 0,
        after: None,
    },
];

/// The old journal, whose records each run copies first.
const OLD: &[&str] = &[DECISION_1, REPLY_1];

const LINES: &[&str] = &[
    REQUEST_7,
    "Q 4000000000000002 00 84160000\nS 4000000000000002 00 3\n",
];

static SHOWN: Run = Run {
    name: "shown",
    words: SHOW,
    config: CONFIG,
    requests: &[],
    old: &[],
    before: None,
    fails: NONE_FAILS,
    answers: &[],
    status: 0,
    after: None,
};

/// More calls than any device of these runs receives.
const MOST_CALLS: u64 = 40;

/// The calls of each device fail in turn, until a run makes fewer of them. Each run ends with status 0, 3, 4 or 5, and
/// its journal loads.
#[test]
fn ends_in_order_whichever_call_fails(rt: HostRuntime) -> Result<(), Fail> {
    for run in &SERVES {
        for device in 0..6 {
            let mut met = 0;
            for call in 0..MOST_CALLS {
                let mut fails = NONE_FAILS;
                fails[device] = Some(call);
                let mut journals = one_shard(rt.alloc(), OLD, &[])?;
                let (status, text) = run_at(&rt, run, &fails, &mut journals, &OpenGate)?;
                assert!(rt; matches!(status, 0 | 3 | 4 | 5), "{}", run.name);
                let (loaded, _text) = run_at(&rt, &SHOWN, &NONE_FAILS, &mut journals, &OpenGate)?;
                assert_eq!(rt; loaded, 0, "{}", run.name);
                if status == 0 && !text.as_str().contains("refused 15") {
                    break;
                }
                met = call + 1;
            }
            assert!(rt; 0 < met && met < MOST_CALLS, "{}", run.name);
        }
    }
    Ok(())
}
