//! Journals that continue old ones, from whatever a stopped migration left, and the first lines that stop them.
ghost use Rattle.std.specs.Prelude.{◌≡◌};

use crate::journals::{COMMAND, STATUS, load, loaded, one_card, store};
use issuer_base::Store;
use issuer_setup::Issuer;
use memory_edge::MemoryStore;
use shard_book::{LoadBack, LoadFault};
use std::alloc::Global;
use std::test::Fail;

/// The record of a decision of the first card on ATC 1. Another program, which works with OpenSSL, made it and the
/// next.
const FIRST: &str =
    "d 4000000000000002ffff0039000001000000800026011500000000012345000000000000027609781a2b3c4d800fa501a00000000000000000000000000f0000000000000000000000000000007c5104b1ce25f56e 3030 1 8a023030910a21aa145ef9f7fca43030\n";

/// The record of a decision of the same card on ATC 65.
const LATER: &str =
    "d 4000000000000002ffff0039000041000000800026011500000000012345000000000000027609781a2b3c4d800fa501a00000000000000000000000000f00000000000000000000000000000093eed1b2ed608c61 3030 1 8a023030910a2460f3fa6de401fa3030\n";

/// The records of a status and a command of the first card.
const TWO: &str = "s 4000000000000002ffff 00 3\nq 4000000000000002ffff 00 84160000\n";

/// The text of a journal with these two records.
const WHOLE: &str = "v2\ns 4000000000000002ffff 00 3\nq 4000000000000002ffff 00 84160000\n";

/// The texts of an old journal and of the records after a journal's first line, and how many records are loaded of both,
/// or the first bad line.
type Case = (
    &'static str,
    &'static str,
    &'static str,
    Result<u64, LoadFault>,
);

const CASES: [Case; 11] = [
    ("nothing", "", "", Ok(0)),
    (
        "another's record",
        STATUS,
        COMMAND,
        Err(LoadFault::BadLine(2)),
    ),
    (
        "a torn line of another",
        TWO,
        "s 41",
        Err(LoadFault::BadLine(2)),
    ),
    ("fewer records", TWO, STATUS, Ok(2)),
    ("more records", STATUS, TWO, Ok(2)),
    (
        "no record",
        STATUS,
        "s 4000000000000002ffff 00 3\nx\n",
        Err(LoadFault::BadLine(3)),
    ),
    (
        "no record, torn",
        STATUS,
        "s 4000000000000002ffff 00 3\nx",
        Ok(1),
    ),
    (
        "no card's record",
        STATUS,
        "s 4000000000000002ffff 00 3\ns 4000000000000010ffff 00 3\n",
        Err(LoadFault::BadRecord(3)),
    ),
    (
        "no record in the old one",
        "s 4000000000000002ffff 00 3\nx\n",
        "x",
        Err(LoadFault::OldLine(2)),
    ),
    (
        "no card's record in the old one",
        "s 4000000000000010ffff 00 3\n",
        "x",
        Err(LoadFault::OldRecord(1)),
    ),
    (
        "a torn line in the old one",
        "s 4000000000000002ffff 00 3\ns 40",
        "",
        Ok(1),
    ),
];

/// What is loaded of an old journal with this text and a journal of version 2 with these records.
fn first_bad_line(
    alloc: Global,
    issuer: &Issuer,
    old: &str,
    records: &str,
) -> Result<Result<u64, LoadFault>, Fail>
    requires { issuer.now.shards ≡ 1 }
{
    let text = format!(in alloc; "v2\n{records}")?.into_bytes();
    Ok(loaded(alloc, issuer, old, text)?.map(|(records, _)| records))
}

/// Loads a store with this text after the old one of two records, of which one call fails, or one of the store's. The
/// result is how many bytes the store then has, if each image of it loads again as both records.
fn goes_on(
    alloc: Global,
    issuer: &Issuer,
    text: &[u8],
    old_fails: u64,
    fails: u64,
) -> Result<Option<u64>, Fail>
    requires { issuer.now.shards ≡ 1 }
{
    let mut old = store(alloc, TWO.as_bytes().to_vec(alloc)?, &[old_fails])?;
    let new = store(alloc, text.to_vec(alloc)?, &[fails])?;
    match load(alloc, issuer, &mut old, new) {
        Ok(shard) => loads_again(alloc, issuer, &shard.into_store()),
        Err(LoadBack { fault: _, store }) => loads_again(alloc, issuer, &store),
    }
}

/// How many bytes a store has, if each image of it loads after the old one of two records, as both.
fn loads_again(alloc: Global, issuer: &Issuer, left: &MemoryStore) -> Result<Option<u64>, Fail>
    requires { issuer.now.shards ≡ 1 }
{
    for length in 0..=left.len() {
        let Some(image) = left.image(length).map_err(|_| "an image")? else {
            continue;
        };
        if loaded(alloc, issuer, TWO, image)? != Ok((2, 66)) {
            return Ok(None);
        }
    }
    Ok(Some(left.len()))
}

/// Whatever prefix of its text a journal has, and whichever call of it fails, the next load goes on from there.
#[test]
fn a_stopped_migration_goes_on(rt: HostRuntime) -> Result<(), Fail> {
    let alloc = rt.alloc();
    let issuer = one_card(alloc)?;
    for kept in 0..=WHOLE.len() {
        // no load makes more than six calls of the store
        for fails in 0..7 {
            let left = goes_on(alloc, &issuer, &WHOLE.as_bytes()[..kept], 9, fails)?;
            assert!(rt; left.is_some(), "{kept} {fails}");
            assert!(rt; fails < 6 || left == Some(66), "{kept}");
        }
    }
    Ok(())
}

/// And whichever call of the old store fails.
#[test]
fn a_migration_without_its_old_store_goes_on(rt: HostRuntime) -> Result<(), Fail> {
    let alloc = rt.alloc();
    let issuer = one_card(alloc)?;
    for kept in 0..=WHOLE.len() {
        for fails in 0..3 {
            let left = goes_on(alloc, &issuer, &WHOLE.as_bytes()[..kept], fails, 9)?;
            assert!(rt; left.is_some(), "{kept} {fails}");
        }
    }
    Ok(())
}

#[test]
fn the_first_bad_line_is_named(rt: HostRuntime) -> Result<(), Fail> {
    let alloc = rt.alloc();
    let issuer = one_card(alloc)?;
    for (name, old, records, expected) in &CASES {
        let found = first_bad_line(alloc, &issuer, old, records)?;
        assert!(rt; found == *expected, "{name}");
    }
    Ok(())
}

/// A record of an old journal is held to a window of 64, and one of a journal of version 2 to one of 256.
#[test]
fn each_version_has_its_window(rt: HostRuntime) -> Result<(), Fail> {
    let alloc = rt.alloc();
    let issuer = one_card(alloc)?;
    let both = format!(in alloc; "{LATER}{FIRST}")?;
    let old = first_bad_line(alloc, &issuer, both.as_str(), "")?;
    assert!(rt; old == Err(LoadFault::OldRecord(2)));
    let new = first_bad_line(alloc, &issuer, "", both.as_str())?;
    assert!(rt; new == Ok(2));
    let after = first_bad_line(alloc, &issuer, LATER, both.as_str())?;
    assert!(rt; after == Ok(2));
    Ok(())
}

#[test]
fn the_first_line_is_the_versions(rt: HostRuntime) -> Result<(), Fail> {
    let alloc = rt.alloc();
    let issuer = one_card(alloc)?;
    for text in ["v21\n", STATUS, "v3\n", "\n"] {
        let found = loaded(alloc, &issuer, STATUS, text.as_bytes().to_vec(alloc)?)?;
        assert!(rt; found == Err(LoadFault::BadLine(1)), "{text}");
    }
    Ok(())
}
