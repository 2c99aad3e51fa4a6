//! Journals that end in a torn last line, and the images that a crash leaves.
ghost use Rattle.std.specs.Prelude.{◌≡◌, ◌<◌, ◌%◌, length, IfOk, IsTrue};
ghost use Rattle.shard_book.specs.Shards.{number_in, IsUnder};

use issuer_base::{Answer, Refusal, Request, Store, Suite};
use issuer_setup::Issuer;
use line_checks::{CheckedLine, check_line, check_request};
use memory_edge::MemoryStore;
use sample_issuer::{
    AES_CRYPTOGRAM, CARDS, CRYPTOGRAM, aes_purchase, declining_table, issuer, purchase,
};
use shard_book::{LoadBack, LoadFault, Shard};
use std::alloc::Global;
use std::test::Fail;

/// The record of a status of the first card.
pub(crate) const STATUS: &str = "s 4000000000000002ffff 00 3\n";

/// The record of a command for the first card.
pub(crate) const COMMAND: &str = "q 4000000000000002ffff 00 84160000\n";

/// An issuer of one shard and one card, whose table declines every request.
pub(crate) fn one_card(alloc: Global) -> Result<Issuer, Fail>
    ensures { IfOk result (λ issuer. issuer.shards ≡ 1) }
{
    let table = declining_table().ok_or("a table")?;
    match issuer(alloc, 1, &CARDS[..1], table) {
        Some(issuer) => Ok(issuer),
        None => Err("an issuer".into()),
    }
}

/// An issuer of two shards and two cards.
pub(crate) fn two_shards(alloc: Global) -> Result<Issuer, Fail>
    ensures { IfOk result (λ issuer. issuer.shards ≡ 2) }
{
    let table = declining_table().ok_or("a table")?;
    match issuer(alloc, 2, &CARDS[..2], table) {
        Some(issuer) => Ok(issuer),
        None => Err("an issuer".into()),
    }
}

/// A store with this text and spare capacity, which fails at the listed calls.
pub(crate) fn store(alloc: Global, text: Vec<u8>, fails: &[u64]) -> Result<MemoryStore, Fail> {
    let fails = fails.to_vec(alloc)?;
    Ok(MemoryStore::new(alloc, text, 4_096, fails).map_err(|_| "a store")?)
}

/// A store without bytes that works.
fn empty(alloc: Global) -> Result<MemoryStore, Fail> {
    store(alloc, Vec::new(alloc), &[])
}

/// The first shard, loaded from this old store and this store.
pub(crate) fn load<S: Store>(
    alloc: Global,
    issuer: &Issuer,
    old: &mut S,
    store: S,
) -> Result<Shard<S>, LoadBack<S>>
    requires { issuer.now.shards ≡ 1 }
    ensures under { IfOk result (IsUnder issuer.now) }
    ensures number { IfOk result (λ loaded. number_in loaded ≡ 0) }
{
    Shard::load(alloc, old, store, 0, issuer)
}

/// How many records a load of an old store and a store with these texts finds and how many bytes the store then has, or
/// why the load fails.
pub(crate) fn loaded(
    alloc: Global,
    issuer: &Issuer,
    old: &str,
    text: Vec<u8>,
) -> Result<Result<(u64, u64), LoadFault>, Fail>
    requires { issuer.now.shards ≡ 1 }
{
    let mut old = store(alloc, old.as_bytes().to_vec(alloc)?, &[])?;
    match load(alloc, issuer, &mut old, store(alloc, text, &[])?) {
        Ok(shard) => {
            let records = shard.places();
            Ok(Ok((records, shard.into_store().len())))
        }
        Err(LoadBack { fault, store: _ }) => Ok(Err(fault)),
    }
}

/// Whether the number is that of a card of the first shard.
fn is_home(issuer: &Issuer, card: u32) -> bool
    ensures within { IsTrue result → card < length issuer.now.cards }
    ensures home { IsTrue result → card % issuer.now.shards ≡ 0 }
{
    card < issuer.cards() && issuer.shard_of(card) == 0
}

/// A shard's answer to a status of the card.
pub(crate) fn set_status<S: Store>(shard: &mut Shard<S>, issuer: &Issuer) -> Option<Answer>
    requires under { IsUnder issuer.now shard.old }
    requires number { number_in shard.old ≡ 0 }
    ensures under { IsUnder issuer.now shard.new }
    ensures number { number_in shard.new ≡ 0 }
{
    let Ok(CheckedLine::Order(found)) = check_line(issuer, b"S 4000000000000002 00 3") else {
        return None;
    };
    if !is_home(issuer, found.card()) {
        return None;
    }
    Some(shard.order(issuer, &found))
}

/// The purchase of a card of this suite on ATC 7.
pub(crate) fn purchase_in(suite: Suite) -> Option<Request> {
    match suite {
        Suite::TripleDes => purchase(7, 0x1A2B_3C4D, CRYPTOGRAM),
        Suite::Aes => aes_purchase(7, 0x1A2B_3C4D, AES_CRYPTOGRAM),
    }
}

/// A shard's answer to a request of its card.
fn decide<S: Store>(shard: &mut Shard<S>, issuer: &Issuer, request: Request) -> Option<Answer>
    requires under { IsUnder issuer.now shard.old }
    requires number { number_in shard.old ≡ 0 }
{
    let Ok(found) = check_request(issuer, request) else {
        return None;
    };
    if !is_home(issuer, found.card) {
        return None;
    }
    Some(shard.answer(issuer, &found, true))
}

/// The answer of the first shard, loaded from this store, to a request of its card, and the store after it.
pub(crate) fn reloaded_answer(
    alloc: Global,
    issuer: &Issuer,
    store: MemoryStore,
    request: Request,
) -> Result<(Option<Answer>, MemoryStore), Fail>
    requires { issuer.now.shards ≡ 1 }
{
    let mut old = empty(alloc)?;
    match load(alloc, issuer, &mut old, store) {
        Ok(mut shard) => {
            let answer = decide(&mut shard, issuer, request);
            Ok((answer, shard.into_store()))
        }
        Err(LoadBack { fault: _, store: _ }) => Err("a shard".into()),
    }
}

/// Statuses set over a store that was empty, of which one call fails.
#[derive(Drop)]
struct Run {
    store: MemoryStore,
    acknowledged: u64,

    /// Whether the answer to the last status was a fault of the store.
    in_doubt: bool,
}

fn run_statuses(alloc: Global, issuer: &Issuer, lines: u8, fails: u64) -> Result<Run, Fail>
    requires { issuer.now.shards ≡ 1 }
{
    let store = store(alloc, Vec::new(alloc), &[fails])?;
    let mut old = empty(alloc)?;
    match load(alloc, issuer, &mut old, store) {
        Ok(mut shard) => {
            let mut acknowledged = 0u64;
            let mut in_doubt = false;
            'statuses: for _ in 0..lines {
                in_doubt = matches!(
                    set_status(&mut shard, issuer),
                    Some(Answer::Refused(Refusal::StoreFault))
                );
                if !in_doubt {
                    acknowledged = acknowledged.wrapping_add(1);
                }
            }
            Ok(Run {
                store: shard.into_store(),
                acknowledged,
                in_doubt,
            })
        }
        Err(LoadBack { fault: _, store }) => Ok(Run {
            store,
            acknowledged: 0,
            in_doubt: false,
        }),
    }
}

/// Whether each image of a run's store has its acknowledged records, or these and the one in doubt.
fn is_kept(alloc: Global, issuer: &Issuer, run: &Run) -> Result<bool, Fail>
    requires { issuer.now.shards ≡ 1 }
{
    for length in 0..=run.store.len() {
        let Some(image) = run.store.image(length).map_err(|_| "an image")? else {
            continue;
        };
        let Ok((records, _)) = loaded(alloc, issuer, "", image)? else {
            return Ok(false);
        };
        if records.wrapping_sub(run.acknowledged) > u64::from(run.in_doubt) {
            return Ok(false);
        }
    }
    Ok(true)
}

#[test]
fn truncates_a_torn_record(rt: HostRuntime) -> Result<(), Fail> {
    let alloc = rt.alloc();
    let issuer = one_card(alloc)?;
    for torn in 0..COMMAND.len() + 1 {
        let mut text = format!(in alloc; "v2\n{STATUS}")?.into_bytes();
        text.extend_from_slice(&COMMAND.as_bytes()[..torn])?;
        let expected = if torn == COMMAND.len() {
            (2, 66)
        } else {
            (1, 31)
        };
        assert!(rt; loaded(alloc, &issuer, "", text)? == Ok(expected), "{torn}");
    }
    Ok(())
}

#[test]
fn a_crash_leaves_what_was_acknowledged(rt: HostRuntime) -> Result<(), Fail> {
    let alloc = rt.alloc();
    let issuer = one_card(alloc)?;
    // a load and three lines make nine calls if none fails: the load writes the first line, syncs it, and syncs all
    for fails in 0..10 {
        for lines in 1..4 {
            let run = run_statuses(alloc, &issuer, lines, fails)?;
            assert!(rt; is_kept(alloc, &issuer, &run)?, "{fails} {lines}");
            if fails == 9 {
                assert_eq!(rt; run.acknowledged, u64::from(lines));
            }
        }
    }
    Ok(())
}

/// Whether the first answer is a new decision, recorded first, and the second one the stored reply of its repeat.
fn are_decision_and_repeat(first: &Option<Answer>, second: &Option<Answer>) -> bool {
    match first {
        Some(
            Answer::Fresh {
                place: 0,
                reply,
                ..
            },
        ) => {
            matches!(second, Some(Answer::Kept { place: 0, reply: stored, .. }) if stored.is_same(reply))
        }
        _ => false,
    }
}

/// A decision of a card of either suite is replayed, and its repeat gets the stored reply.
#[test]
fn keeps_a_decision_of_either_suite(rt: HostRuntime) -> Result<(), Fail> {
    let alloc = rt.alloc();
    let issuer = one_card(alloc)?;
    for suite in [Suite::TripleDes, Suite::Aes] {
        let empty = empty(alloc)?;
        let request = purchase_in(suite).ok_or("a request")?;
        let (first, left) = reloaded_answer(alloc, &issuer, empty, request)?;
        let (second, _left) = reloaded_answer(alloc, &issuer, left, request)?;
        assert!(rt; are_decision_and_repeat(&first, &second), "{suite:?}");
    }
    Ok(())
}
