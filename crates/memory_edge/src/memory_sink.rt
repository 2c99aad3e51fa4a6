//! A sink in memory.
ghost use Rattle.std.specs.Prelude.{◌≡◌, ◌+◌, ◌<◌, [], ◌||◌, nat_lt, length, Some, is_err, IfOk};
ghost use Rattle.std.specs.Io.KnownBytes.{WriteAppends};
ghost use Rattle.issuer_base.specs.OutsideFaults.{CountsFaults};
ghost use Rattle.memory_edge.specs.OutsideMemory.{after_call, is_next_listed, no_calls};

use crate::failing_calls::FailingCalls;
use issuer_base::{NoMemory, Sink, WriteFault};
use std::alloc::Global;
use std::marker::Model;

/// A sink that keeps its bytes in memory, and fails at the listed calls.
///
/// It allocates all of its room at first, so that no write allocates.
#[derive(Drop)]
pub struct MemorySink {
    bytes: Vec<u8>,
    room: usize,
    calls: FailingCalls,
}

impl Model for MemorySink {
    ghost use Rattle.std.specs.Prelude.{◌≤◌, vec_len, vec_capacity};
    ghost use Rattle.memory_edge.specs.OutsideMemory.{SinkState};

    ghost Value = { SinkState };

    ghost view = { λ s. record { held = s.bytes.items; room = s.room; calls = s.calls } };

    ghost invariant = { λ s. (vec_len s.bytes ≤ s.room) × (s.room ≤ vec_capacity s.bytes) };
}

impl MemorySink {
    /// An empty sink with room for so many bytes, which fails at the listed calls, counted from 0.
    pub fn new(alloc: Global, room: usize, fails: Vec<u64>) -> Result<MemorySink, NoMemory>
        ensures { IfOk result (λ sink. sink ≡ record { held = []; room = room; calls = no_calls fails.items }) }
    {
        let bytes = Vec::with_capacity(alloc, room)?;
        Ok(MemorySink {
            bytes,
            room,
            calls: FailingCalls::new(fails),
        })
    }

    /// What was written.
    pub fn bytes(&self) -> &[u8]
        ensures { result.now ≡ self.now.held }
    {
        &self.bytes
    }
}

impl Sink for MemorySink {
    ghost held = { λ s. Some s.held };

    ghost faults = { λ s. s.calls.faults };

    /// Fails exactly at a listed call and where the piece goes past the room, and else appends all of it.
    fn write(&mut self, piece: &[u8]) -> Result<usize, WriteFault>
        requires { 0 < length piece.now }
        ensures bytes { WriteAppends (Some self.old.held) (Some self.new.held) result piece.now }
        ensures count { CountsFaults self.old.calls.faults self.new.calls.faults (is_err result) }
        ensures fails { is_err result ≡ (is_next_listed self.old.calls
            || nat_lt self.old.room (length self.old.held + length piece.now)) }
        ensures whole { IfOk result (λ n. n ≡ length piece.now) }
        ensures calls { self.new.calls ≡ after_call self.old.calls (is_err result) }
        ensures room { self.new.room ≡ self.old.room }
    {
        if self.calls.count_call() || piece.len() > self.room - self.bytes.len() {
            self.calls.count_fault();
            return Err(WriteFault);
        }
        self.bytes.extend_from_slice(piece).unwrap();
        Ok(piece.len())
    }
}
