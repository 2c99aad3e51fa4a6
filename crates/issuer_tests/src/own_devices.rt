//! Runs over devices of the tests' own: inputs in small pieces, a sink that takes a byte a call, and stores that wait for each other.
ghost use Rattle.std.specs.Prelude.{◌≡◌, None, length};

use crate::callers::looks_for;
use crate::pieces::Pieces;
use crate::running::{SERVE, left_by, run_over, words_of};
use crate::samples::{CONFIG, FRESH_EACH, SEVENTH_EACH, TWO_SHARDS};
use issuer_base::{Desk, DeskFault, NoMemory, OpenGate, Sink, Store, StoreFail, WriteFault};
use memory_edge::MemorySink;
use std::alloc::Global;
use std::sync::Arc;
use std::sync::atomic::{AtomicBool, Ordering};
use std::test::Fail;
use store_edge::RoomStore;

/// A sink that takes one byte a call, and fails after `room` bytes, at most 16.
#[derive(Drop)]
struct Bytes {
    text: [u8; 16],
    taken: usize,
    room: usize,
    faults: u64,
}

impl Bytes {
    fn new(room: usize) -> Bytes {
        Bytes {
            text: [0; 16],
            taken: 0,
            room,
            faults: 0,
        }
    }

    fn has_taken(&self, text: &str) -> bool {
        self.text.get(..self.taken) == Some(text.as_bytes())
    }
}

impl Sink for Bytes {
    ghost faults = { λ s. s.faults };

    fn write(&mut self, piece: &[u8]) -> Result<usize, WriteFault> {
        if self.taken >= self.room || self.taken >= self.text.len() {
            self.faults = self.faults.saturating_add(1);
            return Err(WriteFault);
        }
        self.text[self.taken] = piece[0];
        self.taken += 1;
        Ok(1)
    }
}

/// For each shard, whether an append of a decision to its store has begun, and whether its store saw that the other
/// one's had too.
#[derive(Drop)]
struct Meeting {
    asked: [AtomicBool; 2],
    seen: [AtomicBool; 2],
}

/// How often a store polls for the other one.
const MOST_LOOKS: u32 = 100_000_000;

/// A store that reports none of its bytes to contracts, and appends a decision only after it has polled for the other
/// store's.
#[derive(Drop)]
struct MeetingStore {
    second: bool,
    meeting: Arc<Meeting>,
    store: RoomStore,
}

impl Store for MeetingStore {
    ghost size = { λ s. length s.store.held };

    ghost faults = { λ s. s.store.faults };

    ghost told_size = { λ _. tt };

    ghost told_alike = { λ _ _. tt };

    ghost told_bytes = { λ _. tt };

    fn len(&self) -> u64 {
        self.store.len()
    }

    fn read_at(&mut self, at: u64, into: &mut [u8]) -> Result<usize, StoreFail> {
        self.store.read_at(at, into)
    }

    fn append(&mut self, piece: &[u8]) -> Result<(), StoreFail> {
        if piece.starts_with(b"d") {
            let (own, other) = if self.second { (1, 0) } else { (0, 1) };
            self.meeting.asked[own].store(true, Ordering::SeqCst);
            if looks_for(&self.meeting.asked[other], MOST_LOOKS) {
                self.meeting.seen[own].store(true, Ordering::SeqCst);
            }
        }
        self.store.append(piece)
    }

    fn cut(&mut self, len: u64) -> Result<(), StoreFail> {
        self.store.cut(len)
    }

    fn sync(&mut self) -> Result<(), StoreFail> {
        self.store.sync()
    }
}

/// A desk that reports nothing of its files to contracts, over a configuration, requests and stores that meet.
#[derive(Drop)]
struct OwnDesk {
    alloc: Global,
    config: &'static str,
    requests: Pieces,
    meeting: Arc<Meeting>,

    /// How many bytes each store takes.
    room: usize,
}

impl OwnDesk {
    fn new(alloc: Global, config: &'static str, requests: Pieces) -> Result<OwnDesk, Fail> {
        let meeting = Meeting {
            asked: [AtomicBool::new(false), AtomicBool::new(false)],
            seen: [AtomicBool::new(false), AtomicBool::new(false)],
        };
        Ok(OwnDesk {
            alloc,
            config,
            requests,
            meeting: Arc::new(alloc, meeting)?,
            room: 65_536,
        })
    }
}

impl Desk for OwnDesk {
    type Input = Pieces;

    type Journal = MeetingStore;

    ghost faults = { λ _. 0 };

    ghost last_fault = { λ _. None };

    fn read(&mut self, name: &str) -> Result<Pieces, DeskFault> {
        if name == "config" {
            Ok(Pieces::new(self.config, 1, 4_096, 10))
        } else {
            Ok(Pieces {
                faults: 0,
                ..self.requests
            })
        }
    }

    fn log(&mut self, name: &str) -> Result<MeetingStore, DeskFault> {
        let Ok(meeting) = Arc::try_clone(&self.meeting) else {
            return Err(DeskFault::NoMemory);
        };
        match RoomStore::new(self.alloc, self.room) {
            Ok(store) => Ok(MeetingStore {
                second: name.ends_with(".01.v2"),
                meeting,
                store,
            }),
            Err(NoMemory) => Err(DeskFault::NoMemory),
        }
    }
}

/// For each read of one byte that fails: every line that was read whole before it is answered. There is no ninth read.
#[test]
fn answers_the_lines_read_whole_before_a_fault(rt: HostRuntime) -> Result<(), Fail> {
    let alloc = rt.alloc();
    let words = words_of(alloc, SERVE)?;
    for (reads, expected, status) in [
        (0, "stop 3\n", 3),
        (1, "stop 3\n", 3),
        (2, "refused 1 1\nstop 3\n", 3),
        (3, "refused 1 1\nstop 3\n", 3),
        (4, "refused 1 1\nstop 3\n", 3),
        (5, "refused 1 1\nrefused 1 1\nstop 3\n", 3),
        (6, "refused 1 1\nrefused 1 1\nrefused 1 1\nstop 3\n", 3),
        (7, "refused 1 1\nrefused 1 1\nrefused 1 1\nstop 3\n", 3),
        (8, "refused 1 1\nrefused 1 1\nrefused 1 1\nrefused 1 1\n", 0),
    ] {
        let desk = OwnDesk::new(alloc, CONFIG, Pieces::new("X\nXY\n\nZ", 1, 1, reads))?;
        let mut out = MemorySink::new(alloc, 1_024, Vec::new(alloc))?;
        let (found, _requests, _olds, _stores) = left_by(run_over(
            &rt, &words, desk, &mut out, &OpenGate,
        ));
        assert_eq!(rt; out.bytes(), expected.as_bytes(), "after {reads}");
        assert_eq!(rt; found, status, "after {reads}");
    }
    Ok(())
}

/// A sink with room for less than the answer takes what fits, and the run ends with status 4.
#[test]
fn stops_where_the_sink_fails(rt: HostRuntime) -> Result<(), Fail> {
    let alloc = rt.alloc();
    let words = words_of(alloc, SERVE)?;
    for (room, text, status) in [
        (0, "", 4),
        (1, "r", 4),
        (11, "refused 1 1", 4),
        (12, "refused 1 1\n", 0),
    ] {
        let desk = OwnDesk::new(alloc, CONFIG, Pieces::new("X", 1, 1, 10))?;
        let mut out = Bytes::new(room);
        let (ended, _requests, _olds, _stores) = left_by(run_over(
            &rt, &words, desk, &mut out, &OpenGate,
        ));
        assert!(rt; out.has_taken(text), "{room}");
        assert_eq!(rt; ended, status, "{room}");
    }
    Ok(())
}

#[test]
fn stops_at_a_line_too_many(rt: HostRuntime) -> Result<(), Fail> {
    let alloc = rt.alloc();
    let desk = OwnDesk::new(alloc, CONFIG, Pieces::new("x\n", 1_048_577, 2, 2_000_000))?;
    let mut out = MemorySink::new(alloc, 16_777_216, Vec::new(alloc))?;
    let words = words_of(alloc, SERVE)?;
    let (status, _requests, _olds, _stores) = left_by(run_over(
        &rt, &words, desk, &mut out, &OpenGate,
    ));
    assert_eq!(rt; status, 8);
    // 1,048,576 times `refused 1 1`, and then the last line.
    assert_eq!(rt; out.bytes().len(), 12 * 1_048_576 + 15);
    assert!(rt; out.bytes().ends_with(b"refused 1 1\nstop 8 1048577\n"));
    Ok(())
}

/// The source returns one line a read, and the sink fails at the first answer, with one caller and with four.
#[test]
fn answers_before_it_waits_for_more(rt: HostRuntime) -> Result<(), Fail> {
    let alloc = rt.alloc();
    for command in [
        SERVE,
        "serve --config config --requests requests --journal journal --callers 4",
    ] {
        let desk = OwnDesk::new(alloc, CONFIG, Pieces::new("x\n", 3, 2, 10))?;
        let mut out = Bytes::new(0);
        let words = words_of(alloc, command)?;
        let (status, requests, _olds, _stores) = left_by(run_over(
            &rt, &words, desk, &mut out, &OpenGate,
        ));
        assert_eq!(rt; status, 4, "{command}");
        assert_eq!(rt; requests.map(|source| source.times), Some(2), "{command}");
    }
    Ok(())
}

/// The source returns one line a read, and the store has no room for the record of the first.
#[test]
fn takes_a_feed_line_before_it_waits_for_more(rt: HostRuntime) -> Result<(), Fail> {
    let alloc = rt.alloc();
    let feed = Pieces::new("0 0 s 4000000000000002ffff 00 3\n", 3, 32, 10);
    let mut desk = OwnDesk::new(alloc, CONFIG, feed)?;
    desk.room = 16;
    let mut out = MemorySink::new(alloc, 1_024, Vec::new(alloc))?;
    let words = words_of(
        alloc,
        "standby --config config --feed requests --journal journal",
    )?;
    let (status, requests, _olds, _stores) = left_by(run_over(
        &rt, &words, desk, &mut out, &OpenGate,
    ));
    assert_eq!(rt; out.bytes(), "stop 5 0\n".as_bytes());
    assert_eq!(rt; status, 5);
    assert_eq!(rt; requests.map(|source| source.times), Some(2));
    Ok(())
}

/// Each store appends its decision while the other's append has begun, which only concurrent callers can do.
#[test]
fn appends_to_two_journals_at_once(rt: HostRuntime) -> Result<(), Fail> {
    let alloc = rt.alloc();
    let desk = OwnDesk::new(alloc, TWO_SHARDS, Pieces::new(SEVENTH_EACH, 1, 4_096, 10))?;
    let meeting = Arc::try_clone(&desk.meeting)?;
    let mut out = MemorySink::new(alloc, 65_536, Vec::new(alloc))?;
    let words = words_of(
        alloc,
        "serve --config config --requests requests --journal journal --callers 2",
    )?;
    let (status, _requests, _olds, _stores) = left_by(run_over(
        &rt, &words, desk, &mut out, &OpenGate,
    ));
    assert_eq!(rt; status, 0);
    assert_eq!(rt; out.bytes(), FRESH_EACH.as_bytes());
    assert!(rt; meeting.seen[0].load(Ordering::SeqCst));
    assert!(rt; meeting.seen[1].load(Ordering::SeqCst));
    Ok(())
}
