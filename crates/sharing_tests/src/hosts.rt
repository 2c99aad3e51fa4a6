//! A host of one caller over stores in memory: answers across a restart and a migration, a store that fails, and journals
//! that can't be loaded.
ghost use Rattle.std.specs.Prelude.{◌≡◌, IfOk, length};

use host_calls::{HostBack, LoadFault, Solo};
use issuer_base::{Answer, Refusal, Store};
use issuer_setup::Issuer;
use memory_edge::MemoryStore;
use sample_issuer::{AES_REQUEST, CARDS, REQUEST, declining_table, issuer};
use std::alloc::Global;
use std::test::Fail;

/// A journal of version 1 with one record: a status of the first card.
const OLD: &str = "s 4000000000000002ffff 00 3\n";

/// A journal of version 2 with this record.
const NEW: &str = "v2\ns 4000000000000002ffff 00 3\n";

/// An issuer of `shards` shards and four cards, whose table declines every request.
pub(crate) fn sample(alloc: Global, shards: u8) -> Result<Issuer, Fail>
    ensures { IfOk result (λ issuer. issuer.shards ≡ shards) }
{
    let table = declining_table().ok_or("a table")?;
    Ok(issuer(alloc, shards, &CARDS, table).ok_or("an issuer")?)
}

/// A store with this text and spare capacity, which fails at the listed calls.
pub(crate) fn store(alloc: Global, text: &str, fails: &[u64]) -> Result<MemoryStore, Fail> {
    let text = text.as_bytes().to_vec(alloc)?;
    let fails = fails.to_vec(alloc)?;
    Ok(MemoryStore::new(alloc, text, 262_144, fails).map_err(|_| "a store")?)
}

/// So many empty stores.
pub(crate) fn empty_stores(alloc: Global, count: u8) -> Result<Vec<MemoryStore>, Fail>
    ensures { IfOk result (λ stores. length stores.items ≡ count) }
{
    let mut stores = Vec::new(alloc);
    for _ in 0..count {
        stores.push(store(alloc, "", &[])?)?;
    }
    if stores.len() != usize::from(count) {
        return Err("a store for each shard".into());
    }
    Ok(stores)
}

/// A host of so many shards over these stores, of old journals and journals, or what its loading gives back.
fn load_shards(
    alloc: Global,
    shards: u8,
    olds: &mut Vec<MemoryStore>,
    stores: Vec<MemoryStore>,
) -> Result<Result<Solo<MemoryStore>, HostBack<MemoryStore>>, Fail> {
    let issuer = sample(alloc, shards)?;
    if olds.len() != usize::from(shards) || stores.len() != usize::from(shards) {
        return Err("two stores for each shard".into());
    }
    Ok(Solo::load(alloc, olds, stores, issuer))
}

/// A host of one shard over these stores, of an old journal and a journal.
fn load(
    alloc: Global,
    olds: &mut Vec<MemoryStore>,
    stores: Vec<MemoryStore>,
) -> Result<Solo<MemoryStore>, Fail> {
    match load_shards(alloc, 1, olds, stores)? {
        Ok(host) => Ok(host),
        Err(
            HostBack {
                fault: _,
                shard: _,
                stores: _,
            },
        ) => Err("a host".into()),
    }
}

/// A list of one store with this text, which fails at the listed calls.
fn one_store(alloc: Global, text: &str, fails: &[u64]) -> Result<Vec<MemoryStore>, Fail> {
    let mut stores = Vec::new(alloc);
    stores.push(store(alloc, text, fails)?)?;
    Ok(stores)
}

/// Whether the answer is a new decision whose record has this index of the first shard.
pub(crate) fn is_fresh(answer: &Answer, at: u64) -> bool {
    matches!(answer, Answer::Fresh { shard: 0, place, .. } if *place == at)
}

/// Whether the answer is the stored reply of the record at this index.
pub(crate) fn is_kept(answer: &Answer, at: u64) -> bool {
    matches!(answer, Answer::Kept { shard: 0, place, .. } if *place == at)
}

#[test]
fn keeps_a_reply_across_a_restart(rt: HostRuntime) -> Result<(), Fail> {
    for (line, old, new) in [
        (REQUEST, OLD, ""),
        (AES_REQUEST, OLD, "v2\ns 40"),
        (REQUEST, "", NEW),
    ] {
        let mut olds = one_store(rt.alloc(), old, &[])?;
        let stores = one_store(rt.alloc(), new, &[])?;
        let mut host = load(rt.alloc(), &mut olds, stores)?;
        let fresh = host.authorise(line.as_bytes());
        let kept = host.authorise(line.as_bytes());
        let mut host = load(rt.alloc(), &mut olds, host.close())?;
        let again = host.authorise(line.as_bytes());
        assert!(rt; is_fresh(&fresh, 1), "{line}");
        assert!(rt; is_kept(&kept, 1), "{line}");
        assert!(rt; again == kept, "{line}");
        if host.issuer().cards() > 0 {
            let view = host.show(0);
            assert!(rt;
                view.hi == Some(7) && view.status == 3 && view.queued == 0,
                "{line}"
            );
        }
        host.close();
    }
    Ok(())
}

/// An append that fails, and a sync that fails.
#[test]
fn decides_anew_after_a_fault_of_the_store(rt: HostRuntime) -> Result<(), Fail> {
    for call in [3, 4] {
        let mut olds = one_store(rt.alloc(), "", &[])?;
        let stores = one_store(rt.alloc(), NEW, &[call])?;
        let mut host = load(rt.alloc(), &mut olds, stores)?;
        let refused = host.authorise(REQUEST.as_bytes());
        let fresh = host.authorise(REQUEST.as_bytes());
        let mut host = load(rt.alloc(), &mut olds, host.close())?;
        let kept = host.authorise(REQUEST.as_bytes());
        host.close();
        assert!(rt; refused == Answer::Refused(Refusal::StoreFault), "{call}");
        assert!(rt; is_fresh(&fresh, 1), "{call}");
        assert!(rt; is_kept(&kept, 1), "{call}");
    }
    Ok(())
}

/// The first shard is migrated before the second one's old journal or journal is found to be bad.
#[test]
fn names_the_first_bad_journal(rt: HostRuntime) -> Result<(), Fail> {
    let alloc = rt.alloc();
    for (old, new, expected) in [
        ("", "x\n", LoadFault::BadLine(1)),
        ("x\n", "x\n", LoadFault::OldLine(1)),
    ] {
        let mut olds = one_store(alloc, OLD, &[])?;
        olds.push(store(alloc, old, &[])?)?;
        let mut stores = empty_stores(alloc, 1)?;
        stores.push(store(alloc, new, &[])?)?;
        match load_shards(alloc, 2, &mut olds, stores)? {
            Ok(host) => {
                host.close();
                return Err("no host".into());
            }
            Err(
                HostBack {
                    fault,
                    shard,
                    stores,
                },
            ) => {
                assert!(rt; fault == expected && shard == 1);
                assert!(rt; stores.len() == 2 && stores[0].len() == 31 && stores[1].len() == 2);
                assert!(rt; olds.len() == 2 && olds[0].len() == 28);
            }
        }
    }
    Ok(())
}
