//! A reader of an input's lines, one at a time, within the limits of an input.
ghost use Rattle.std.specs.Prelude.{◌≡◌, ℕ, ◌-◌, ◌≤◌, List, true, false, IfOk, MatchBool, if◌then◌else◌, ◌==◌};
ghost use Rattle.issuer_base.specs.OutsideFaults.{CountsFaults};
ghost use Rattle.line_reader.specs.declared.limits.TheConstants.{BUFFER_BYTES, MAX_BUFFER_BYTES, MAX_BYTES, MAX_LINES};
ghost use Rattle.line_reader.specs.Lines.{IsFirstNewline, IsUnbroken};
ghost use Rattle.line_reader.specs.Reading.{unread};
ghost use Rattle.line_reader.specs.NextLine.{GivesInHand, GivesNone, IsNoneInHand};
ghost use Rattle.line_reader.specs.NextLine.{GivesLine, GivesRest, ReachesEnd, StopsAtFault, StopsAtLimit, is_fault};

use crate::limits::{BUFFER_BYTES, MAX_BUFFER_BYTES, MAX_BYTES, MAX_LINES};
use crate::window::{Passed, Window};
use issuer_base::{NoMemory, ReadFault, Source};
use std::alloc::Global;
use std::marker::Model;

/// What a call for the next line found.
#[derive(Clone, Copy, PartialEq, Eq, Debug)]
pub enum NextLine {
    /// A line that a newline ends.
    Line,
    /// The last line, which isn't empty and has no newline.
    Rest,
    /// The input is at its end, and every byte of it is in a line that was returned.
    End,
    /// The source failed. Every whole line of the bytes read was returned.
    Fault,
    /// A byte is past a limit, in the line after those returned.
    TooLong,
}

/// Reads an input line by line, through one buffer.
///
/// The reader is exhausted after [`NextLine::End`], [`NextLine::Fault`] or [`NextLine::TooLong`]; a later call is
/// unspecified.
#[derive(Drop)]
pub struct LineReader {
    window: Window,
    lines: u32,
    bytes: u64,
}

impl Model for LineReader {
    ghost use Rattle.line_reader.specs.Reading.{Reading, IsWithinLimits};
    ghost use Rattle.line_reader.specs.Window.{ahead_of, line_of};

    ghost Value = { Reading };

    ghost view = { λ r. record {
      ahead = ahead_of r.window;
      lines = r.lines;
      bytes = r.bytes;
      line = line_of r.window;
    } };

    ghost invariant = { λ r. IsWithinLimits r.lines r.bytes };
}

impl LineReader {
    /// A reader that has returned no line yet, with a buffer of [`BUFFER_BYTES`]. No later call allocates.
    pub fn new(alloc: Global) -> Result<Self, NoMemory>
        ensures { IfOk result (λ reader. reader ≡ unread) }
    {
        LineReader::with_buffer(alloc, BUFFER_BYTES)
    }

    /// A reader that has returned no line yet, with a buffer of this size in bytes. No later call allocates.
    pub fn with_buffer(alloc: Global, size: usize) -> Result<Self, NoMemory>
        requires { (BUFFER_BYTES ≤ size) × (size ≤ MAX_BUFFER_BYTES) }
        ensures { IfOk result (λ reader. reader ≡ unread) }
    {
        Ok(LineReader {
            window: Window::new(alloc, size)?,
            lines: 0,
            bytes: 0,
        })
    }

    /// The current line without its newline, truncated to [`KEPT_BYTES`](issuer_base::KEPT_BYTES).
    pub fn line(&self) -> &[u8]
        ensures { result.now ≡ self.now.line }
    {
        self.window.line()
    }

    /// How many lines were returned: the number of the current line, counted from 1.
    pub fn number(&self) -> u32
        ensures lines { result ≡ self.now.lines }
        ensures within { result ≤ MAX_LINES }
    {
        self.lines
    }

    /// Whether the unread bytes in the buffer have a newline, so that the next line needs no read of the source.
    pub fn has_line(&self) -> bool
        ensures { MatchBool result ((place : ℕ) × IsFirstNewline self.now.ahead place) (IsUnbroken self.now.ahead) }
    {
        self.window.has_newline()
    }

    /// Takes the next line that is whole in the buffer, without a read of the source, if there is one and it is within
    /// the limits.
    pub fn take_in_hand(&mut self) -> bool
        ensures taken { result ≡ true → (line : List ℕ) × GivesInHand self.old line self.new }
        ensures none { result ≡ false → IsNoneInHand self.old × (self.new.ahead ≡ self.old.ahead)
            × GivesNone self.old self.new }
    {
        if !self.window.has_newline() {
            return false;
        }
        let room = room_after(self.lines, self.bytes);
        self.window.begin_line();
        match self.window.pass(room) {
            Passed::ToNewline(count) => {
                self.lines += 1;
                self.bytes += count as u64 + 1;
                true
            }
            Passed::All(_) | Passed::NoRoom => false,
        }
    }

    /// Reads the next line.
    pub fn next_line<S: Source>(&mut self, source: &mut S) -> NextLine
        ensures line { result ≡ NextLine.Line
            → GivesLine (S.left source.old) (S.left source.new) self.old self.new }
        ensures rest { result ≡ NextLine.Rest
            → GivesRest (S.left source.old) (S.left source.new) self.old self.new }
        ensures end { result ≡ NextLine.End
            → ReachesEnd (S.left source.old) (S.left source.new) self.old self.new }
        ensures fault { result ≡ NextLine.Fault
            → StopsAtFault (S.left source.old) (S.left source.new) self.old self.new }
        ensures too_long { result ≡ NextLine.TooLong
            → StopsAtLimit (S.left source.old) (S.left source.new) self.old self.new }

        // The outcome is `Fault` only if the source's fault counter increased.
        ensures count { CountsFaults (S.faults source.old) (S.faults source.new) (is_fault result) }
    {
        let room = room_after(self.lines, self.bytes);
        self.window.begin_line();
        let mut length = 0;
        loop {
            match self.window.pass(room - length) {
                Passed::ToNewline(count) => {
                    self.lines += 1;
                    self.bytes += length + count as u64 + 1;
                    return NextLine::Line;
                }
                Passed::All(count) => length += count as u64,
                Passed::NoRoom => return NextLine::TooLong,
            }
            match self.window.fill(source) {
                Err(ReadFault) => return NextLine::Fault,
                Ok(0) => break,
                Ok(_) => {}
            }
        }
        if length == 0 {
            return NextLine::End;
        }
        self.lines += 1;
        self.bytes += length;
        NextLine::Rest
    }
}

/// How many bytes the next line may have, with its newline: 0 once the greatest number of lines was returned.
fn room_after(lines: u32, bytes: u64) -> u64
    requires { bytes ≤ MAX_BYTES }
    ensures { result ≡ (if lines == MAX_LINES then 0 else MAX_BYTES - bytes) }
{
    if lines == MAX_LINES {
        0
    } else {
        MAX_BYTES - bytes
    }
}
