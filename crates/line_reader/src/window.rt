//! The part of an input that is in memory: the current line, and the unread bytes after it.
ghost use Rattle.std.specs.Prelude.{◌≡◌, ◌≢◌, ℕ, ◌+◌, ◌-◌, ◌<◌, ◌≤◌, List, [], ◌++◌, length, take, drop, vec_len, slice_index};
ghost use Rattle.std.specs.Prelude.{is_err, IfOk, MatchBool, MatchOption, MatchResult};
ghost use Rattle.std.specs.Io.KnownBytes.{Keeps};
ghost use Rattle.issuer_base.specs.OutsideFaults.{CountsFaults};
ghost use Rattle.issuer_base.specs.declared.limits.TheConstants.{KEPT_BYTES};
ghost use Rattle.line_reader.specs.declared.limits.TheConstants.{BUFFER_BYTES, MAX_BUFFER_BYTES, NEWLINE};
ghost use Rattle.line_reader.specs.Lines.{IsUnbroken, IsFirstNewline};

use crate::limits::NEWLINE;
use issuer_base::{KEPT_BYTES, ReadFault, Source};
use memchr::{memchr, memrchr};
use std::alloc::{AllocError, Global};

/// What scanning the unread bytes found of the current line.
pub(crate) enum Passed {
    /// The line ends: this many more bytes of it, and then its newline.
    ToNewline(usize),
    /// All unread bytes, this many, belong to the line.
    All(usize),
    /// The line needs more bytes than `room`.
    NoRoom,
}

/// The part of an input that is in memory.
#[derive(Drop)]
pub(crate) struct Window {
    bytes: Vec<u8>,
    // The current line, truncated.
    line_start: usize,
    line_end: usize,
    // The unread bytes.
    start: usize,
    end: usize,
    // The offset after the last newline of the bytes read; at most `start` if the unread bytes have none.
    last_end: usize,
    ghost sized: { (BUFFER_BYTES ≤ vec_len bytes) × (vec_len bytes ≤ MAX_BUFFER_BYTES) },
    ghost line_in_order: { line_start ≤ line_end },
    ghost line_kept: { line_end - line_start ≤ KEPT_BYTES },
    ghost line_passed: { line_end ≤ start },
    ghost ahead_in_order: { start ≤ end },
    ghost in_bounds: { end ≤ vec_len bytes },
    ghost last_within: { last_end ≤ end },
    ghost last_newline: { start < last_end → slice_index bytes.items (last_end - 1) ≡ NEWLINE },
    ghost none_behind: { (place : ℕ) → last_end ≤ place → place < end → slice_index bytes.items place ≢ NEWLINE },
}

impl Window {
    ghost use Rattle.line_reader.specs.Window.{ahead_of, line_of, HasPassed, Passes, Gives};

    /// No bytes, and room for so many.
    pub(crate) fn new(alloc: Global, size: usize) -> Result<Self, AllocError>
        requires { (BUFFER_BYTES ≤ size) × (size ≤ MAX_BUFFER_BYTES) }
        ensures ahead { IfOk result (λ window. ahead_of window ≡ []) }
        ensures line { IfOk result (λ window. line_of window ≡ []) }
    {
        Ok(Window {
            bytes: vec![in alloc; 0; size]?,
            line_start: 0,
            line_end: 0,
            start: 0,
            end: 0,
            last_end: 0,
        })
    }

    pub(crate) fn line(&self) -> &[u8]
        ensures { result.now ≡ line_of self.now }
    {
        &self.bytes[self.line_start..self.line_end]
    }

    /// Begins an empty current line, to which the unread bytes belong.
    pub(crate) fn begin_line(&mut self)
        ensures ahead { ahead_of self.new ≡ ahead_of self.old }
        ensures passed { HasPassed self.new [] }
    {
        self.line_start = self.start;
        self.line_end = self.start;
    }

    /// Scans the unread bytes up to the end of the current line, if that needs at most `room` bytes.
    pub(crate) fn pass(&mut self, room: u64) -> Passed
        ensures { Passes self.old self.new room result }
    {
        let ahead = &self.bytes[self.start..self.end];
        let count = ahead.len();
        match first_newline(ahead, room) {
            Some(place) => {
                self.take(place);
                self.start += 1;
                Passed::ToNewline(place)
            }
            None if (count as u64) > room => Passed::NoRoom,
            None => {
                self.take(count);
                Passed::All(count)
            }
        }
    }

    /// Moves the next `count` unread bytes into the current line, which stays truncated.
    fn take(&mut self, count: usize)
        requires { count ≤ length (ahead_of self.old) }
        ensures ahead { ahead_of self.new ≡ drop count (ahead_of self.old) }
        ensures passed { (passed : List ℕ) → HasPassed self.old passed
            → HasPassed self.new (passed ++ take count (ahead_of self.old)) }
    {
        let kept = self.line_end - self.line_start;
        self.line_end += count.min(KEPT_BYTES - kept);
        self.start += count;
    }

    /// Whether the unread bytes have a newline.
    pub(crate) fn has_newline(&self) -> bool
        ensures { MatchBool result ((place : ℕ) × IsFirstNewline (ahead_of self.now) place)
            (IsUnbroken (ahead_of self.now)) }
    {
        self.start < self.last_end
    }

    /// Reads from the source once no byte is unread. The current line moves to the start of the buffer, and the bytes
    /// read follow it.
    pub(crate) fn fill<S: Source>(&mut self, source: &mut S) -> Result<usize, ReadFault>
        ensures passed { (passed : List ℕ) → HasPassed self.old passed → HasPassed self.new passed }
        ensures bytes { MatchResult result
            (λ count. Gives (S.left source.old) (S.left source.new) (ahead_of self.new) count)
            (λ _. Keeps (S.left source.old) (S.left source.new)) }
        ensures count { CountsFaults (S.faults source.old) (S.faults source.new) (is_err result) }
    {
        self.move_to_front();
        let count = source.read(&mut self.bytes[self.start..])?;
        self.end += count;
        self.last_end = self.start + last_end(&self.bytes[self.start..self.end]);
        Ok(count)
    }

    /// Moves the current line to the start of the buffer.
    fn move_to_front(&mut self)
        ensures line { line_of self.new ≡ line_of self.old }
        ensures front { self.new.line_start ≡ 0 }
        ensures joined { self.new.line_end ≡ self.new.start }
        ensures none_ahead { self.new.end ≡ self.new.start }
    {
        let kept = self.line_end - self.line_start;
        if self.line_start > 0 {
            self.bytes.copy_within(self.line_start..self.line_end, 0);
        }
        self.line_start = 0;
        self.line_end = kept;
        self.start = kept;
        self.end = kept;
        self.last_end = kept;
    }
}

/// The offset after the last newline of these bytes, or 0.
fn last_end(bytes: &[u8]) -> usize
    ensures within { result ≤ length bytes.now }
    ensures newline { 0 < result → slice_index bytes.now (result - 1) ≡ NEWLINE }
    ensures none_behind { (place : ℕ) → result ≤ place → place < length bytes.now
        → slice_index bytes.now place ≢ NEWLINE }
{
    match memrchr(NEWLINE, bytes) {
        Some(place) => place + 1,
        None => 0,
    }
}

/// The offset of the first newline in the first `room` bytes.
fn first_newline(bytes: &[u8], room: u64) -> Option<usize>
    ensures { MatchOption result (IsUnbroken (take room bytes.now))
        (λ place. IsFirstNewline (take room bytes.now) place) }
{
    if room < bytes.len() as u64 {
        memchr(NEWLINE, &bytes[..room as usize])
    } else {
        memchr(NEWLINE, bytes)
    }
}
