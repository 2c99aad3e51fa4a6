//! Runs that are watched: by a gate that counts its calls, and by stores and a sink that say what was durable as each answer began.
ghost use Rattle.std.specs.Prelude.{◌≡◌, None, length};

use crate::pieces::Pieces;
use crate::running::{left_by, run_over, words_of};
use crate::samples::{ELEVEN_LINES, TWO_SHARDS};
use issuer_base::{Desk, DeskFault, Gate, NoMemory, OpenGate, Sink, Store, StoreFail, WriteFault};
use memory_edge::MemorySink;
use std::alloc::Global;
use std::array;
use std::sync::atomic::{AtomicBool, AtomicUsize, Ordering};
use std::sync::{Arc, Wait};
use std::test::Fail;
use std::thread::Threads;
use store_edge::RoomStore;

/// The number of lines of each run.
const LINES: usize = 11;

/// A gate that counts its calls by the line's number, and those with any other number as line 0.
#[derive(Drop)]
struct Counting {
    at: [AtomicUsize; LINES + 1],
    done: [AtomicUsize; LINES + 1],
    is_done_early: AtomicBool,
}

impl Counting {
    fn new() -> Counting {
        Counting {
            at: array::from_fn(|_| AtomicUsize::new(0)),
            done: array::from_fn(|_| AtomicUsize::new(0)),
            is_done_early: AtomicBool::new(false),
        }
    }

    /// Whether it was called exactly once before each line's answer and once after it, and for no other line.
    fn was_told_of_each_line(&self) -> bool {
        for (number, (at, done)) in self.at.iter().zip(self.done.iter()).enumerate() {
            let expected = if number == 0 { 0 } else { 1 };
            if at.load(Ordering::SeqCst) != expected || done.load(Ordering::SeqCst) != expected {
                return false;
            }
        }
        !self.is_done_early.load(Ordering::SeqCst)
    }
}

/// The count of a line.
fn count_of(counts: &[AtomicUsize; LINES + 1], line: u64) -> &AtomicUsize {
    match counts.get(line as usize) {
        Some(count) => count,
        None => &counts[0],
    }
}

impl Gate for Counting {
    fn at<R: Wait>(&self, _rt: &R, line: u64) {
        count_of(&self.at, line).fetch_add(1, Ordering::SeqCst);
    }

    fn done<R: Wait>(&self, _rt: &R, line: u64) {
        let before = count_of(&self.done, line).fetch_add(1, Ordering::SeqCst);
        if count_of(&self.at, line).load(Ordering::SeqCst) <= before {
            self.is_done_early.store(true, Ordering::SeqCst);
        }
    }
}

/// How many records of each of two journals are durable.
#[derive(Drop)]
struct Durable {
    first: AtomicUsize,
    second: AtomicUsize,
}

impl Durable {
    fn new() -> Durable {
        Durable {
            first: AtomicUsize::new(0),
            second: AtomicUsize::new(0),
        }
    }

    fn journal(&self, is_second: bool) -> &AtomicUsize {
        if is_second { &self.second } else { &self.first }
    }

    fn counts(&self) -> [usize; 2] {
        [
            self.first.load(Ordering::SeqCst),
            self.second.load(Ordering::SeqCst),
        ]
    }
}

/// A store that reports none of its bytes to contracts, counts its records as durable at each sync that succeeds, and
/// fails at one sync.
#[derive(Drop)]
struct WatchedStore {
    is_second: bool,
    durable: Arc<Durable>,
    records: usize,
    syncs: u64,
    failing_sync: u64,
    faults: u64,
    store: RoomStore,
}

impl Store for WatchedStore {
    ghost size = { λ s. length s.store.held };

    ghost faults = { λ s. s.faults };

    ghost told_size = { λ _. tt };

    ghost told_alike = { λ _ _. tt };

    ghost told_bytes = { λ _. tt };

    fn len(&self) -> u64 {
        self.store.len()
    }

    fn read_at(&mut self, at: u64, into: &mut [u8]) -> Result<usize, StoreFail> {
        self.store.read_at(at, into)
    }

    fn append(&mut self, piece: &[u8]) -> Result<(), StoreFail> {
        if self.store.append(piece).is_err() {
            self.faults = self.faults.saturating_add(1);
            return Err(StoreFail);
        }
        if piece.ends_with(b"\n") && !piece.starts_with(b"v2") {
            self.records = self.records.saturating_add(1);
        }
        Ok(())
    }

    /// Only bytes that aren't durable are ever truncated.
    fn cut(&mut self, len: u64) -> Result<(), StoreFail> {
        self.records = self.durable.journal(self.is_second).load(Ordering::SeqCst);
        self.store.cut(len)
    }

    fn sync(&mut self) -> Result<(), StoreFail> {
        self.syncs = self.syncs.saturating_add(1);
        if self.syncs == self.failing_sync {
            self.faults = self.faults.saturating_add(1);
            return Err(StoreFail);
        }
        self.durable
            .journal(self.is_second)
            .store(self.records, Ordering::SeqCst);
        self.store.sync()
    }
}

/// A sink that takes one byte a call, and notes how many records were durable at the first byte of each line.
#[derive(Drop)]
struct WatchingSink {
    durable: Arc<Durable>,
    durable_at: Vec<[usize; 2]>,
    out: MemorySink,
}

impl Sink for WatchingSink {
    ghost faults = { λ s. s.out.calls.faults };

    fn write(&mut self, piece: &[u8]) -> Result<usize, WriteFault> {
        let text = self.out.bytes();
        if text.is_empty() || text.ends_with(b"\n") {
            let _ = self.durable_at.push(self.durable.counts());
        }
        self.out.write(&piece[..1])
    }
}

/// A desk that reports nothing of its files to contracts, over a text in chunks of `piece` bytes and stores that fail
/// at one sync.
#[derive(Drop)]
struct WatchedDesk {
    alloc: Global,
    piece: usize,
    durable: Arc<Durable>,
    failing_sync: u64,
}

impl Desk for WatchedDesk {
    type Input = Pieces;

    type Journal = WatchedStore;

    ghost faults = { λ _. 0 };

    ghost last_fault = { λ _. None };

    fn read(&mut self, name: &str) -> Result<Pieces, DeskFault> {
        if name == "config" {
            Ok(Pieces::new(TWO_SHARDS, 1, 4_096, 10))
        } else {
            Ok(Pieces::new(ELEVEN_LINES, 1, self.piece, 100))
        }
    }

    fn log(&mut self, name: &str) -> Result<WatchedStore, DeskFault> {
        let Ok(durable) = Arc::try_clone(&self.durable) else {
            return Err(DeskFault::NoMemory);
        };
        match RoomStore::new(self.alloc, 65_536) {
            Ok(store) => Ok(WatchedStore {
                is_second: name.ends_with(".01.v2"),
                durable,
                records: 0,
                syncs: 0,
                failing_sync: self.failing_sync,
                faults: 0,
                store,
            }),
            Err(NoMemory) => Err(DeskFault::NoMemory),
        }
    }
}

/// The outcome of a run: its status, its text, and how many records were durable as each line of it began.
#[derive(Drop)]
struct WatchedRun {
    status: u8,
    text: String,
    durable_at: Vec<[usize; 2]>,
}

/// Runs the top call with these arguments, over a text in chunks of `piece` bytes and stores that fail at one sync.
fn run_watched<R: AllocGlobal + Threads + Wait + Sync, G: Gate + Sync>(
    rt: &R,
    words: &str,
    piece: usize,
    failing_sync: u64,
    gate: &G,
) -> Result<WatchedRun, Fail> {
    let alloc = rt.alloc();
    let durable = Arc::new(alloc, Durable::new())?;
    let mut out = WatchingSink {
        durable: Arc::try_clone(&durable)?,
        durable_at: Vec::new(alloc),
        out: MemorySink::new(alloc, 65_536, Vec::new(alloc))?,
    };
    let desk = WatchedDesk {
        alloc,
        piece,
        durable,
        failing_sync,
    };
    let words = words_of(alloc, words)?;
    let (status, _requests, _olds, _stores) = left_by(run_over(rt, &words, desk, &mut out, gate));
    Ok(WatchedRun {
        status,
        text: String::from_utf8(out.out.bytes().to_vec(alloc)?)?,
        durable_at: out.durable_at,
    })
}

/// The arguments for this many callers.
macro_rules! by_callers {
    ($callers:literal) => {
        concat!(
            "serve --config config --requests requests --journal journal --callers ",
            $callers
        )
    };
}

/// The lines come in blocks of at most four, and then in one block.
#[test]
fn tells_the_gate_of_each_line_once(rt: HostRuntime) -> Result<(), Fail> {
    for words in [by_callers!("1"), by_callers!("3"), by_callers!("4")] {
        for piece in [1_000, 65_536] {
            let gate = Counting::new();
            let run = run_watched(&rt, words, piece, 0, &gate)?;
            assert_eq!(rt; run.status, 0, "{words}");
            assert_eq!(rt; run.text.as_str().lines().count(), LINES, "{words}");
            assert!(rt; gate.was_told_of_each_line(), "{words} {piece}");
        }
    }
    Ok(())
}

/// The shard and the position of the record that an answer added.
fn new_record(answer: &str) -> Option<(usize, usize)> {
    let mut words = answer.split(' ');
    if !matches!(words.next()?, "fresh" | "queued" | "set") {
        return None;
    }
    let shard = words.next()?.parse::<usize>().ok()?;
    let position = words.next()?.parse::<usize>().ok()?;
    Some((shard, position))
}

/// How many answers of a run added a record, if each of these records was durable before its answer began.
fn answered_once_durable(run: &WatchedRun) -> Option<usize> {
    let mut recorded = 0usize;
    for (answer, durable) in run.text.as_str().lines().zip(run.durable_at.iter()) {
        if let Some((shard, position)) = new_record(answer) {
            if *durable.get(shard)? <= position {
                return None;
            }
            recorded = recorded.saturating_add(1);
        }
    }
    Some(recorded)
}

/// No sync fails, and then that of the second record of each store. The first sync is that of a journal's first line.
#[test]
fn answers_once_the_record_is_durable(rt: HostRuntime) -> Result<(), Fail> {
    for words in [by_callers!("1"), by_callers!("4")] {
        for (failing_sync, recorded) in [(0, 10), (3, 8)] {
            let run = run_watched(&rt, words, 1_000, failing_sync, &OpenGate)?;
            assert_eq!(rt; run.status, 0, "{words}");
            assert_eq!(rt; run.durable_at.len(), LINES, "{words}");
            assert_eq!(rt; answered_once_durable(&run), Some(recorded), "{words}");
        }
    }
    Ok(())
}
