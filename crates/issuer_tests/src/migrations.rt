//! Old journals whose records are copied, from every prefix of the copy on.

use crate::running::{NONE_FAILS, Run, SHOW, Texts, run_at};
use crate::samples::CONFIG;
use issuer_base::OpenGate;
use std::test::Fail;

/// An old journal, the journal that its records are copied to, and what is shown of the cards.
const OLD: &str = "s 4000000000000002ffff 00 3\nq 4000000000000002ffff 00 84160000\n";

const COPY: &str = "v2\ns 4000000000000002ffff 00 3\nq 4000000000000002ffff 00 84160000\n";

const CARDS: &str =
    "4000000000000002 00 hi - status 3 queued 1 done 0 flight - ok\n4000000000000010 00 hi - status 0 queued 0 done 0 flight - ok\n";

static SHOWN: Run = Run {
    name: "shown",
    words: SHOW,
    config: CONFIG,
    requests: &[],
    old: &[],
    before: None,
    fails: NONE_FAILS,
    answers: &[],
    status: 0,
    after: None,
};

/// Whether there is one journal, and it has this text.
fn is_alone(journals: &[Vec<u8>], text: &str) -> bool {
    journals.len() == 1 && journals[0].as_slice() == text.as_bytes()
}

/// A copy that was stopped after any of its bytes is gone on with, and the old journal stays.
#[test]
fn goes_on_from_every_prefix_of_the_copy(rt: HostRuntime) -> Result<(), Fail> {
    let alloc = rt.alloc();
    for len in 0..COPY.len() + 1 {
        let mut journals = Texts::none(alloc);
        journals.olds.push(OLD.as_bytes().to_vec(alloc)?)?;
        journals.stores.push(COPY.as_bytes()[..len].to_vec(alloc)?)?;
        let (status, text) = run_at(&rt, &SHOWN, &NONE_FAILS, &mut journals, &OpenGate)?;
        assert_eq!(rt; status, 0, "{len}");
        assert_eq!(rt; text.as_str(), CARDS, "{len}");
        assert!(rt; is_alone(journals.stores.as_slice(), COPY), "{len}");
        assert!(rt; is_alone(journals.olds.as_slice(), OLD), "{len}");
    }
    Ok(())
}
