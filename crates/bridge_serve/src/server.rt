//! The turns of an input, each answered by its lines and a dot.
ghost use Rattle.std.specs.Prelude.{◌≡◌, ◌⊎◌, ◌≤◌, ℕ, false, List, Option, [], ◌∷◌, ◌++◌, Some, None, length, IfOk, IfSome};
ghost use Rattle.issuer_base.specs.OutsideFaults.{CountsFaults};
ghost use Rattle.bridge_lines.specs.Acts.{Act, Stop};
ghost use Rattle.bridge_lines.specs.Starts.{no_start};
ghost use Rattle.bridge_lines.specs.TurnReading.{turn_end};
ghost use Rattle.bridge_serve.specs.Runs.{desk_of};
ghost use Rattle.bridge_serve.specs.Ends.{Serves, Ends, GoesOn, is_read_fault, is_write_fault, some_read_fault};
ghost use Rattle.bridge_serve.specs.Reading.{ahead_of};
ghost use Rattle.bridge_serve.specs.Written.{WritesRun};

use crate::desk::{Desk, Fault};
use crate::ended::Ended;
use crate::output::Output;
use crate::printer::Printer;
use crate::window::Window;
use bridge_lines::{Action, Why, turn_end};
use issuer_base::{NoMemory, Sink, Source};
use std::alloc::Global;

/// How the program ended, and the output.
#[derive(Drop)]
pub struct Served<W: Sink + Drop> {
    pub ended: Ended,
    pub out: W,
}

/// Answers each turn of the input, by lines and a dot.
///
/// What is written are the lines of the run of a partition over the turns that were read.
pub fn serve<S: Source, W: Sink + Drop>(alloc: Global, source: &mut S, out: W) -> Served<W>
    ensures run { WritesRun (S.left source.old) (S.left source.new) result.ended (W.held out) (W.held result.out) }
    ensures reads { CountsFaults (S.faults source.old) (S.faults source.new) (is_read_fault result.ended) }
    ensures writes { CountsFaults (W.faults out) (W.faults result.out) (is_write_fault result.ended) }
{
    let mut printer = match Printer::new(alloc, out) {
        Ok(printer) => printer,
        Err(out) => {
            let ended = Ended::NoMemory;
            return Served { ended, out };
        }
    };
    let ended = serve_to(alloc, source, &mut printer);
    let out = printer.into_out();
    Served { ended, out }
}

/// Answers each turn of the input.
///
/// What is said is the run of a partition over the turns that were read.
pub fn serve_to<S: Source, O: Output>(alloc: Global, source: &mut S, out: &mut O) -> Ended
    ensures ends { (start : O) (before : List Act) → O.says start out.old before → (final : List Act)
        × O.says start out.new final × Ends before (S.left source.old) (S.left source.new) result final }
    ensures passed { (result ≡ Ended.WriteFault → ⊥) → O.has_passed out.new }
    ensures failed { result ≡ Ended.WriteFault → O.has_failed out.new }
    ensures count { CountsFaults (S.faults source.old) (S.faults source.new) (is_read_fault result) }
{
    match Server::new(alloc) {
        Ok(mut server) => server.run(source, out),
        Err(NoMemory) => finish(Ended::NoMemory, out),
    }
}

/// A partition, and the bytes that are read.
#[derive(Drop)]
struct Server {
    window: Window,
    desk: Desk,
}

impl Server {
    fn new(alloc: Global) -> Result<Server, NoMemory>
        ensures window { IfOk result (λ server. ahead_of server.window ≡ []) }
        ensures desk { IfOk result (λ server. server.desk ≡ desk_of no_start None) }
    {
        Ok(Server {
            window: Window::new(alloc)?,
            desk: Desk::new(alloc)?,
        })
    }

    /// Reads turns and answers them, until one of both ends.
    fn run<S: Source, O: Output>(&mut self, source: &mut S, out: &mut O) -> Ended
        ensures ends { (start : O) (before said : List Act) (all : Option (List ℕ))
            → Serves before all (S.left source.old) (ahead_of self.old.window) self.old.desk said → O.says start out.old said
            → (final : List Act) × O.says start out.new final × Ends before all (S.left source.new) result final }
        ensures passed { (result ≡ Ended.WriteFault → ⊥) → O.has_passed out.new }
        ensures failed { result ≡ Ended.WriteFault → O.has_failed out.new }
        ensures count { CountsFaults (S.faults source.old) (S.faults source.new) (is_read_fault result) }
    {
        for _ in 0..u64::MAX {
            if let Some(ended) = self.step(source, out) {
                return ended;
            }
        }
        finish(Ended::TooMany, out)
    }

    /// Answers the first turn of the bytes that are read, or reads more of them.
    fn step<S: Source, O: Output>(&mut self, source: &mut S, out: &mut O) -> Option<Ended>
        ensures goes_on { (start : O) (before said : List Act) (all : Option (List ℕ))
            → Serves before all (S.left source.old) (ahead_of self.old.window) self.old.desk said → O.says start out.old said
            → (final : List Act) × O.says start out.new final
            × GoesOn before all (S.left source.new) (ahead_of self.new.window) self.new.desk result final }
        ensures passed { IfSome result (λ ended. (ended ≡ Ended.WriteFault → ⊥) → O.has_passed out.new) }
        ensures failed { IfSome result (λ ended. ended ≡ Ended.WriteFault → O.has_failed out.new) }
        ensures count { CountsFaults (S.faults source.old) (S.faults source.new) (some_read_fault result) }
    {
        match turn_end(self.window.ahead()) {
            Some(end) => self.answer(end, out),
            None => self.read(source, out),
        }
    }

    /// Answers the turn that the first bytes are, so many.
    fn answer<O: Output>(&mut self, end: usize, out: &mut O) -> Option<Ended>
        requires turn { turn_end (ahead_of self.old.window) ≡ Some end }
        requires within { end ≤ length (ahead_of self.old.window) }
        ensures goes_on { (start : O) (before said : List Act) (all left : Option (List ℕ))
            → Serves before all left (ahead_of self.old.window) self.old.desk said → O.says start out.old said
            → (final : List Act) × O.says start out.new final
            × GoesOn before all left (ahead_of self.new.window) self.new.desk result final }
        ensures passed { IfSome result (λ ended. (ended ≡ Ended.WriteFault → ⊥) → O.has_passed out.new) }
        ensures failed { IfSome result (λ ended. ended ≡ Ended.WriteFault → O.has_failed out.new) }
        ensures reads_none { some_read_fault result ≡ false }
    {
        let turn = &self.window.ahead()[..end];
        match self.desk.take(turn, out) {
            Ok(()) => {}
            Err(Fault::Stop(why)) => return Some(stop(why, out)),
            Err(Fault::NoMemory) => return Some(finish(Ended::NoMemory, out)),
        }
        out.say(&Action::Over);
        self.window.pass(end);
        None
    }

    /// Passes on what was said, and reads more bytes.
    fn read<S: Source, O: Output>(&mut self, source: &mut S, out: &mut O) -> Option<Ended>
        requires { turn_end (ahead_of self.old.window) ≡ None }
        ensures goes_on { (start : O) (before said : List Act) (all : Option (List ℕ))
            → Serves before all (S.left source.old) (ahead_of self.old.window) self.old.desk said → O.says start out.old said
            → (final : List Act) × O.says start out.new final
            × GoesOn before all (S.left source.new) (ahead_of self.new.window) self.new.desk result final }
        ensures passed { IfSome result (λ ended. (ended ≡ Ended.WriteFault → ⊥) → O.has_passed out.new) }
        ensures failed { IfSome result (λ ended. ended ≡ Ended.WriteFault → O.has_failed out.new) }
        ensures count { CountsFaults (S.faults source.old) (S.faults source.new) (some_read_fault result) }
    {
        if !out.flush() {
            return Some(Ended::WriteFault);
        }
        if !self.window.has_room() {
            return Some(stop(Why::BadLine, out));
        }
        match self.window.fill(source) {
            Err(_) => Some(Ended::ReadFault),
            Ok(0) => Some(Ended::AtEnd),
            Ok(_) => None,
        }
    }
}

/// Says last why the program stops.
fn stop<O: Output>(why: Why, out: &mut O) -> Ended
    ensures ended { (result ≡ Ended.Stopped) ⊎ (result ≡ Ended.WriteFault) }
    ensures said { (start : O) (said : List Act) → O.says start out.old said → O.says start out.new (said ++ Stop why ∷ []) }
    ensures passed { (result ≡ Ended.WriteFault → ⊥) → O.has_passed out.new }
    ensures failed { result ≡ Ended.WriteFault → O.has_failed out.new }
{
    out.say(&Action::Stop(why));
    finish(Ended::Stopped, out)
}

/// Passes on what was said. If the output doesn't take it, that is how the program ends.
fn finish<O: Output>(ended: Ended, out: &mut O) -> Ended
    requires { is_write_fault ended ≡ false }
    ensures ended { (result ≡ ended) ⊎ (result ≡ Ended.WriteFault) }
    ensures said { (start : O) (said : List Act) → O.says start out.old said → O.says start out.new said }
    ensures passed { (result ≡ Ended.WriteFault → ⊥) → O.has_passed out.new }
    ensures failed { result ≡ Ended.WriteFault → O.has_failed out.new }
{
    if out.flush() {
        ended
    } else {
        Ended::WriteFault
    }
}
