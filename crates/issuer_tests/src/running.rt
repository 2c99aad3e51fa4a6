//! A run of the top call over a desk in memory.

use issuer_base::{Desk, Gate, Sink, Store, Words};
use issuer_top::{Ended, issue};
use memory_edge::{MemoryDesk, MemorySink, MemoryStore};
use std::alloc::Global;
use std::sync::Wait;
use std::test::Fail;
use std::thread::Threads;

pub(crate) const SERVE: &str = "serve --config config --requests requests --journal journal";

pub(crate) const SHOW: &str = "show --config config --journal journal";

/// For each device the call that fails, counted from 0: configuration, requests, desk, sink, store, old store.
pub(crate) type Fails = [Option<u64>; 6];

pub(crate) const NONE_FAILS: Fails = [None; 6];

/// The inputs of a run, and its expected outcome. Texts are in parts.
pub(crate) struct Run {
    pub(crate) name: &'static str,

    /// The command-line arguments, separated by spaces.
    pub(crate) words: &'static str,
    pub(crate) config: &'static str,
    pub(crate) requests: &'static [&'static str],

    /// The old journal of shard 0, if the run begins with journals of its own.
    pub(crate) old: &'static [&'static str],

    /// The journal of shard 0; `None`: the journals that the last run left, old ones too.
    pub(crate) before: Option<&'static [&'static str]>,
    pub(crate) fails: Fails,
    pub(crate) answers: &'static [&'static str],
    pub(crate) status: u8,

    /// The expected journal of shard 0; `None`: it isn't compared.
    pub(crate) after: Option<&'static [&'static str]>,
}

/// The bytes of the journals of some shards, in order: the old ones, and those of version 2.
#[derive(Drop)]
pub(crate) struct Texts {
    pub(crate) olds: Vec<Vec<u8>>,
    pub(crate) stores: Vec<Vec<u8>>,
}

impl Texts {
    pub(crate) fn none(alloc: Global) -> Self {
        Texts {
            olds: Vec::new(alloc),
            stores: Vec::new(alloc),
        }
    }
}

/// Runs the top call. All runs go through here, since each function that calls it carries its whole contract.
pub(crate) fn run_over<R, D, W, G>(
    rt: &R,
    words: &Words,
    desk: D,
    out: &mut W,
    gate: &G,
) -> Ended<D>
where
    R: AllocGlobal + Threads + Wait + Sync,
    D: Desk,
    D::Journal: Send,
    W: Sink,
    G: Gate + Sync,
{
    issue(rt, words, desk, out, gate)
}

/// The status of a run, the unread remainder of its request file, its old stores and its stores.
pub(crate) fn left_by<D>(
    ended: Ended<D>,
) -> (u8, Option<D::Input>, Vec<D::Journal>, Vec<D::Journal>)
where
    D: Desk + Drop,
    D::Input: Drop,
{
    let Ended {
        status,
        desk: _desk,
        config: _config,
        requests,
        olds,
        stores,
    } = ended;
    (status, requests, olds, stores)
}

/// The status of a run over a desk in memory, and what it writes. `journals` has the journals before the run, and then
/// those after it.
pub(crate) fn run_at<R, G>(
    rt: &R,
    run: &Run,
    fails: &Fails,
    journals: &mut Texts,
    gate: &G,
) -> Result<(u8, String), Fail>
where
    R: AllocGlobal + Threads + Wait + Sync,
    G: Gate + Sync,
{
    let alloc = rt.alloc();
    let desk = memory_desk(alloc, run, fails, journals)?;
    let words = words_of(alloc, run.words)?;
    let [_config, _requests, _desk, sink, _store, _old] = *fails;
    let mut out = MemorySink::new(alloc, 65_536, listed(alloc, sink)?)?;
    let (status, _requests, olds, stores) = left_by(run_over(rt, &words, desk, &mut out, gate));
    *journals = Texts {
        olds: left_in(alloc, &olds)?,
        stores: left_in(alloc, &stores)?,
    };
    Ok((status, String::from_utf8(out.bytes().to_vec(alloc)?)?))
}

/// The desk of a run.
fn memory_desk(
    alloc: Global,
    run: &Run,
    fails: &Fails,
    journals: &Texts,
) -> Result<MemoryDesk, Fail> {
    let [config, requests, desk, _sink, store, old] = *fails;
    let mut memory = MemoryDesk::new(alloc, listed(alloc, desk)?);
    let text = run.config.as_bytes().to_vec(alloc)?;
    memory.input(
        String::from_str(alloc, "config")?,
        text,
        listed(alloc, config)?,
    )?;
    let text = joined(alloc, run.requests)?.into_bytes();
    memory.input(
        String::from_str(alloc, "requests")?,
        text,
        listed(alloc, requests)?,
    )?;
    for (name, journal) in ["journal.00", "journal.01"]
        .iter()
        .zip(journals.olds.iter())
    {
        let name = String::from_str(alloc, name)?;
        memory.journal(name, journal.clone()?, 65_536, listed(alloc, old)?)?;
    }
    for (name, journal) in ["journal.00.v2", "journal.01.v2"]
        .iter()
        .zip(journals.stores.iter())
    {
        let name = String::from_str(alloc, name)?;
        memory.journal(name, journal.clone()?, 65_536, listed(alloc, store)?)?;
    }
    Ok(memory)
}

/// The arguments of a command line.
pub(crate) fn words_of(alloc: Global, line: &str) -> Result<Words, Fail> {
    let mut words = Words::new(alloc);
    for word in line.split(' ') {
        words.push(word)?;
    }
    Ok(words)
}

/// The text of these parts.
pub(crate) fn joined(alloc: Global, parts: &[&str]) -> Result<String, Fail> {
    let mut text = String::new(alloc);
    for part in parts {
        text.push_str(part)?;
    }
    Ok(text)
}

/// The journals of shard 0 alone, the old one and its own.
pub(crate) fn one_shard(alloc: Global, old: &[&str], parts: &[&str]) -> Result<Texts, Fail> {
    Ok(Texts {
        olds: one_journal(alloc, old)?,
        stores: one_journal(alloc, parts)?,
    })
}

/// One journal alone.
pub(crate) fn one_journal(alloc: Global, parts: &[&str]) -> Result<Vec<Vec<u8>>, Fail> {
    let mut journals = Vec::new(alloc);
    journals.push(joined(alloc, parts)?.into_bytes())?;
    Ok(journals)
}

/// A list of this call, if any.
fn listed(alloc: Global, call: Option<u64>) -> Result<Vec<u64>, Fail> {
    match call {
        Some(call) => Ok([call].as_slice().to_vec(alloc)?),
        None => Ok(Vec::new(alloc)),
    }
}

/// The bytes of each store, all of which a crash may leave.
fn left_in(alloc: Global, stores: &[MemoryStore]) -> Result<Vec<Vec<u8>>, Fail> {
    let mut journals = Vec::new(alloc);
    for store in stores {
        match store.image(store.len()) {
            Ok(Some(bytes)) => journals.push(bytes)?,
            _ => return Err(Fail::from("no such image")),
        }
    }
    Ok(journals)
}
