//! A truncation that fails: the store is left as it was, or is truncated all the same.
ghost use Rattle.std.specs.Prelude.{◌≡◌, length, true, is_err, Some};
ghost use Rattle.std.proofs.Common.{refl};
ghost use Rattle.issuer_base.specs.OutsideFaults.{CountsFaults};

use crate::journals::{load, one_card, set_status, store};
use issuer_base::{Answer, Refusal, Store, StoreFail};
use issuer_setup::Issuer;
use memory_edge::MemoryStore;
use shard_book::{LoadBack, LoadFault};
use std::alloc::Global;
use std::test::Fail;

/// A journal with one record and a torn last line.
const TORN: &str = "v2\ns 4000000000000002ffff 00 3\ns 40";

/// A store in memory, of which one truncation may take effect and fail all the same, as if a file is truncated and its
/// sync fails.
#[derive(Drop)]
struct Truncating {
    store: MemoryStore,

    /// Whether the next truncation fails once it has taken effect.
    fails: bool,

    /// How many calls failed.
    faults: u64,
}

impl Truncating {
    /// Counts a fault, if the call failed.
    fn count(&mut self, failed: bool)
        ensures count { CountsFaults self.old.faults self.new.faults failed }
        ensures store { self.new.store ≡ self.old.store }
    {
        if failed {
            self.faults = self.faults.saturating_add(1);
        }
    }

    /// Counts a call that failed.
    fn fail(&mut self) -> Result<(), StoreFail>
        ensures count { CountsFaults self.old.faults self.new.faults true }
        ensures store { self.new.store ≡ self.old.store }
        ensures failed { is_err result ≡ true }
    {
        self.count(true);
        Err(StoreFail)
    }

    /// Fails after a truncation that took effect, if it is set to.
    fn end_cut(&mut self) -> Result<(), StoreFail>
        ensures count { CountsFaults self.old.faults self.new.faults (is_err result) }
        ensures store { self.new.store ≡ self.old.store }
    {
        if self.fails {
            self.fails = false;
            return self.fail();
        }
        Ok(())
    }
}

impl Store for Truncating {
    ghost size = { λ s. length s.store.disk.now.bytes };

    ghost bytes = { λ s. Some s.store.disk.now.bytes };

    ghost disk = { λ s. Some s.store.disk };

    ghost faults = { λ s. s.faults };

    ghost told_size = { λ s. refl };

    ghost told_alike = { λ _ _. tt };

    ghost told_bytes = { λ s. refl };

    fn len(&self) -> u64 {
        self.store.len()
    }

    fn read_at(&mut self, at: u64, into: &mut [u8]) -> Result<usize, StoreFail> {
        let read = self.store.read_at(at, into);
        self.count(read.is_err());
        read
    }

    fn append(&mut self, piece: &[u8]) -> Result<(), StoreFail> {
        let appended = self.store.append(piece);
        self.count(appended.is_err());
        appended
    }

    fn cut(&mut self, len: u64) -> Result<(), StoreFail> {
        match self.store.cut(len) {
            Ok(()) => self.end_cut(),
            Err(StoreFail) => self.fail(),
        }
    }

    fn sync(&mut self) -> Result<(), StoreFail> {
        let synced = self.store.sync();
        self.count(synced.is_err());
        synced
    }
}

/// A store with this text, whose calls of these numbers fail, and whose first truncation may fail once it has taken effect.
fn over_text(alloc: Global, text: &str, calls: &[u64], fails: bool) -> Result<Truncating, Fail> {
    Ok(Truncating {
        store: store(alloc, text.as_bytes().to_vec(alloc)?, calls)?,
        fails,
        faults: 0,
    })
}

/// How many records the first shard has, loaded from this store, and how many bytes the store then has.
fn reloaded(alloc: Global, issuer: &Issuer, store: Truncating) -> Result<(u64, u64), Fail>
    requires { issuer.now.shards ≡ 1 }
{
    let mut old = over_text(alloc, "", &[], false)?;
    match load(alloc, issuer, &mut old, store) {
        Ok(shard) => {
            let records = shard.places();
            Ok((records, shard.into_store().len()))
        }
        Err(LoadBack { fault: _, store: _ }) => Err("a shard".into()),
    }
}

/// The store after three statuses, of which the first one's record is torn, if they are answered as they should be: the
/// first two by a fault of the store.
fn answer_three(
    alloc: Global,
    issuer: &Issuer,
    calls: &[u64],
    fails: bool,
) -> Result<Truncating, Fail>
    requires { issuer.now.shards ≡ 1 }
{
    let mut old = over_text(alloc, "", &[], false)?;
    match load(
        alloc,
        issuer,
        &mut old,
        over_text(alloc, "v2\n", calls, fails)?,
    ) {
        Ok(mut shard) => {
            let first = set_status(&mut shard, issuer);
            let second = set_status(&mut shard, issuer);
            let third = set_status(&mut shard, issuer);
            let store = shard.into_store();
            if !is_fault(&first) || !is_fault(&second) || !is_set(&third) {
                return Err("two faults, and then a status".into());
            }
            Ok(store)
        }
        Err(LoadBack { fault: _, store: _ }) => Err("a shard".into()),
    }
}

fn is_fault(answer: &Option<Answer>) -> bool {
    *answer == Some(Answer::Refused(Refusal::StoreFault))
}

fn is_set(answer: &Option<Answer>) -> bool {
    *answer == Some(Answer::Set { shard: 0, place: 0 })
}

/// How many calls of a store failed at three statuses, and how many records and bytes it then has.
fn counts_after_three(
    alloc: Global,
    issuer: &Issuer,
    calls: &[u64],
    fails: bool,
) -> Result<(u64, (u64, u64)), Fail>
    requires { issuer.now.shards ≡ 1 }
{
    let store = answer_three(alloc, issuer, calls, fails)?;
    let faults = store.faults;
    Ok((faults, reloaded(alloc, issuer, store)?))
}

/// The record in doubt is truncated again before the next one is appended, whether the truncation that failed took effect or not.
#[test]
fn a_failed_truncation_is_tried_again(rt: HostRuntime) -> Result<(), Fail> {
    let alloc = rt.alloc();
    let issuer = one_card(alloc)?;
    // The call 0 reads the first line, 1 is the load's sync, 2 the first record's append, and 3 the truncation before the
    // second one.
    let cases: [(&[u64], bool); 2] = [(&[2, 3], false), (&[2], true)];
    for (calls, takes_effect) in cases {
        assert_eq!(rt;
            counts_after_three(alloc, &issuer, calls, takes_effect)?,
            (2, (1, 31))
        );
    }
    Ok(())
}

/// Why a store with a torn last line isn't loaded, and the store then.
fn stopped_load(
    alloc: Global,
    issuer: &Issuer,
    calls: &[u64],
    fails: bool,
) -> Result<(LoadFault, Truncating), Fail>
    requires { issuer.now.shards ≡ 1 }
{
    let mut old = over_text(alloc, "", &[], false)?;
    let torn = over_text(alloc, TORN, calls, fails)?;
    match load(alloc, issuer, &mut old, torn) {
        Ok(shard) => {
            shard.into_store();
            Err("a fault".into())
        }
        Err(LoadBack { fault, store }) => Ok((fault, store)),
    }
}

/// How many bytes a store with a torn last line has once its load failed at the store, and how many records and bytes
/// once it is loaded again.
fn counts_of_retry(
    alloc: Global,
    issuer: &Issuer,
    calls: &[u64],
    fails: bool,
) -> Result<(u64, (u64, u64)), Fail>
    requires { issuer.now.shards ≡ 1 }
{
    let (fault, store) = stopped_load(alloc, issuer, calls, fails)?;
    if fault != LoadFault::StoreFault {
        return Err("a fault of the store".into());
    }
    let length = store.len();
    Ok((length, reloaded(alloc, issuer, store)?))
}

/// A load whose truncation fails leaves the torn last line or the records alone, and both load again.
#[test]
fn a_load_whose_truncation_fails_can_be_tried_again(rt: HostRuntime) -> Result<(), Fail> {
    let alloc = rt.alloc();
    let issuer = one_card(alloc)?;
    // The calls 0 and 1 are the load's reads, and 2 is its truncation.
    let cases: [(&[u64], bool, u64); 2] = [(&[2], false, 35), (&[], true, 31)];
    for (calls, takes_effect, length) in cases {
        assert_eq!(rt;
            counts_of_retry(alloc, &issuer, calls, takes_effect)?,
            (length, (1, 31))
        );
    }
    Ok(())
}
