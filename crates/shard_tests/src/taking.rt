//! Records of another host that a shard takes.
ghost use Rattle.std.specs.Prelude.{◌≡◌, IfOk};
ghost use Rattle.shard_book.specs.Shards.{IsUnder};

use crate::journals::{COMMAND, STATUS, load, one_card, purchase_in, reloaded_answer, store};
use issuer_base::{Store, Suite};
use issuer_setup::Issuer;
use journal_rec::read_entry;
use memory_edge::MemoryStore;
use sample_issuer::{CARDS, deciding_table, issuer};
use shard_book::{LoadBack, Shard, TakeFault};
use std::alloc::Global;
use std::test::Fail;

/// The record of a status of a card that the issuer doesn't have.
const UNKNOWN_CARD: &str = "s 4000000000000099ffff 00 3\n";

/// The journal with the record of [`STATUS`].
const ONE_STATUS: &str = "v2\ns 4000000000000002ffff 00 3\n";

/// The issuer of [`one_card`] with another table, which approves.
fn approving_issuer(alloc: Global) -> Result<Issuer, Fail>
    ensures { IfOk result (λ issuer. issuer.shards ≡ 1) }
{
    let table = deciding_table().ok_or("a table")?;
    match issuer(alloc, 1, &CARDS[..1], table) {
        Some(issuer) => Ok(issuer),
        None => Err("an issuer".into()),
    }
}

/// What becomes of the record of this line, or nothing if it is that of no record.
fn take<S: Store>(
    shard: &mut Shard<S>,
    issuer: &Issuer,
    line: &[u8],
) -> Option<Result<u64, TakeFault>>
    requires { IsUnder issuer.now shard.old }
    ensures { IsUnder issuer.now shard.new }
{
    let Ok(entry) = read_entry(line.trim_ascii_end()) else {
        return None;
    };
    Some(shard.take(issuer, &entry))
}

/// What becomes of the records of two lines, and the text of the journal then.
#[derive(Drop)]
struct Taken {
    first: Option<Result<u64, TakeFault>>,
    second: Option<Result<u64, TakeFault>>,
    text: Vec<u8>,
}

/// Takes the records of two lines over an empty store, which fails at the listed calls.
fn take_both(
    alloc: Global,
    issuer: &Issuer,
    fails: &[u64],
    lines: [&[u8]; 2],
) -> Result<Taken, Fail>
    requires { issuer.now.shards ≡ 1 }
{
    let mut old = store(alloc, Vec::new(alloc), &[])?;
    match load(
        alloc,
        issuer,
        &mut old,
        store(alloc, Vec::new(alloc), fails)?,
    ) {
        Ok(mut shard) => {
            let first = take(&mut shard, issuer, lines[0]);
            let second = take(&mut shard, issuer, lines[1]);
            Ok(Taken {
                first,
                second,
                text: text_of(&shard.into_store())?,
            })
        }
        Err(LoadBack { fault: _, store: _ }) => Err("a shard".into()),
    }
}

fn text_of(store: &MemoryStore) -> Result<Vec<u8>, Fail> {
    match store.image(store.len()).map_err(|_| "an image")? {
        Some(text) => Ok(text),
        None => Err("an image".into()),
    }
}

/// Whether the journal is such, once the records of two lines were taken over an empty store with these results.
fn ends_so(
    alloc: Global,
    issuer: &Issuer,
    fails: &[u64],
    lines: [&[u8]; 2],
    results: [Option<Result<u64, TakeFault>>; 2],
    text: &[u8],
) -> Result<bool, Fail>
    requires { issuer.now.shards ≡ 1 }
{
    let taken = take_both(alloc, issuer, fails, lines)?;
    let [first, second] = results;
    if taken.first != first || taken.second != second {
        return Ok(false);
    }
    Ok(taken.text.as_slice() == text)
}

#[test]
fn takes_legal_records(rt: HostRuntime) -> Result<(), Fail> {
    let alloc = rt.alloc();
    let issuer = one_card(alloc)?;
    for (name, line, second, text) in [
        (
            "a command",
            COMMAND,
            Some(Ok(1)),
            "v2\ns 4000000000000002ffff 00 3\nq 4000000000000002ffff 00 84160000\n",
        ),
        (
            "the status again",
            STATUS,
            Some(Ok(1)),
            "v2\ns 4000000000000002ffff 00 3\ns 4000000000000002ffff 00 3\n",
        ),
        (
            "a status of an unknown card",
            UNKNOWN_CARD,
            Some(Err(TakeFault::NotLegal)),
            ONE_STATUS,
        ),
        ("no record", "s 4000000000000002ffff 00", None, ONE_STATUS),
    ] {
        let lines = [STATUS.as_bytes(), line.as_bytes()];
        let results = [Some(Ok(0)), second];
        assert!(rt;
            ends_so(alloc, &issuer, &[], lines, results, text.as_bytes())?,
            "{name}"
        );
    }
    Ok(())
}

/// The journal of a host that declined a request of this suite.
fn declined(alloc: Global, suite: Suite) -> Result<Vec<u8>, Fail> {
    let issuer = one_card(alloc)?;
    let empty = store(alloc, Vec::new(alloc), &[])?;
    let request = purchase_in(suite).ok_or("a request")?;
    let (_answer, decided) = reloaded_answer(alloc, &issuer, empty, request)?;
    text_of(&decided)
}

/// Whether the decision of this journal is taken once.
fn is_taken_once(alloc: Global, issuer: &Issuer, journal: &[u8]) -> Result<bool, Fail>
    requires { issuer.now.shards ≡ 1 }
{
    let line = journal.strip_prefix(b"v2\n").ok_or("a journal")?;
    let results = [Some(Ok(0)), Some(Err(TakeFault::NotLegal))];
    ends_so(alloc, issuer, &[], [line, line], results, journal)
}

/// A decision is taken under another table than the one that decided it, and only once.
#[test]
fn takes_a_decision_once(rt: HostRuntime) -> Result<(), Fail> {
    let alloc = rt.alloc();
    let issuer = approving_issuer(alloc)?;
    for suite in [Suite::TripleDes, Suite::Aes] {
        let journal = declined(alloc, suite)?;
        assert!(rt; is_taken_once(alloc, &issuer, &journal)?, "{suite:?}");
    }
    Ok(())
}

/// A record that is in doubt is taken again, and is then in the journal once.
#[test]
fn takes_a_record_again_after_a_fault(rt: HostRuntime) -> Result<(), Fail> {
    let alloc = rt.alloc();
    let issuer = one_card(alloc)?;
    // the load makes three calls, and a record two
    for fails in 3..5 {
        let lines = [STATUS.as_bytes(), STATUS.as_bytes()];
        let results = [Some(Err(TakeFault::StoreFault)), Some(Ok(0))];
        assert!(rt;
            ends_so(
                alloc,
                &issuer,
                &[fails],
                lines,
                results,
                ONE_STATUS.as_bytes()
            )?,
            "{fails}"
        );
    }
    Ok(())
}
