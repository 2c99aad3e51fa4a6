//! A source in memory.
ghost use Rattle.std.specs.Prelude.{◌≡◌, ◌<◌, length, min, take, Some, is_err, IfOk};
ghost use Rattle.std.specs.Io.{ReadsAtMost};
ghost use Rattle.std.specs.Io.KnownBytes.{ReadConsumes};
ghost use Rattle.issuer_base.specs.OutsideFaults.{CountsFaults};
ghost use Rattle.memory_edge.specs.OutsideMemory.{after_call, is_next_listed, no_calls};

use crate::failing_calls::FailingCalls;
use issuer_base::{ReadFault, Source};
use std::marker::Model;

/// A source over bytes in memory, which fails at the listed calls.
#[derive(Drop)]
pub struct MemorySource {
    bytes: Vec<u8>,
    at: usize,
    step: usize,
    calls: FailingCalls,
}

impl Model for MemorySource {
    ghost use Rattle.std.specs.Prelude.{◌<◌, ◌≤◌, drop, vec_len};
    ghost use Rattle.memory_edge.specs.OutsideMemory.{SourceState};

    ghost Value = { SourceState };

    ghost view = { λ s. record { left = drop s.at s.bytes.items; step = s.step; calls = s.calls } };

    ghost invariant = { λ s. (s.at ≤ vec_len s.bytes) × (0 < s.step) };
}

impl MemorySource {
    /// A source that reads as many bytes as fit, and fails at the listed calls, counted from 0.
    pub fn new(bytes: Vec<u8>, fails: Vec<u64>) -> MemorySource
        ensures { result ≡ record { left = bytes.items; step = usize.MAX; calls = no_calls fails.items } }
    {
        MemorySource::with_step(bytes, fails, usize::MAX)
    }

    /// The same, but a read returns at most `step` bytes.
    pub fn with_step(bytes: Vec<u8>, fails: Vec<u64>, step: usize) -> MemorySource
        requires { 0 < step }
        ensures { result ≡ record { left = bytes.items; step = step; calls = no_calls fails.items } }
    {
        MemorySource {
            bytes,
            at: 0,
            step,
            calls: FailingCalls::new(fails),
        }
    }
}

impl Source for MemorySource {
    ghost left = { λ s. Some s.left };

    ghost faults = { λ s. s.calls.faults };

    /// Fails exactly at a listed call, and else reads as many bytes as it has, as fit, and as its step allows.
    fn read(&mut self, into: &mut [u8]) -> Result<usize, ReadFault>
        requires { 0 < length into.old }
        ensures bound { ReadsAtMost result into.new }
        ensures bytes { ReadConsumes (Some self.old.left) (Some self.new.left) result into.new }
        ensures count { CountsFaults self.old.calls.faults self.new.calls.faults (is_err result) }
        ensures listed { is_err result ≡ is_next_listed self.old.calls }
        ensures full { IfOk result (λ n. n ≡ min (min (length self.old.left) (length into.old)) self.old.step) }
        ensures calls { self.new.calls ≡ after_call self.old.calls (is_err result) }
        ensures step { self.new.step ≡ self.old.step }
    {
        if self.calls.count_call() {
            self.calls.count_fault();
            return Err(ReadFault);
        }
        let count = copy_front(&self.bytes[self.at..], into, self.step);
        self.at += count;
        Ok(count)
    }
}

// Copies a prefix of `from`: what fits, and at most `most` bytes. Returns its length.
fn copy_front(from: &[u8], into: &mut [u8], most: usize) -> usize
    ensures count { result ≡ min (min (length from.now) (length into.old)) most }
    ensures front { take result into.new ≡ take result from.now }
{
    let count = from.len().min(into.len()).min(most);
    into[..count].copy_from_slice(&from[..count]);
    count
}
