//! Actions that are said in lines.
ghost use Rattle.std.specs.Prelude.{◌≡◌, ◌≤◌, ◌++◌, [], vec_len, vec_capacity, true, false, IfOk, MatchResult};
ghost use Rattle.bridge_lines.specs.declared.limits.TheConstants.{MOST_ACTION_BYTES};
ghost use Rattle.bridge_lines.specs.Acts.{act_of};
ghost use Rattle.bridge_lines.specs.ActLines.{lines_of};
ghost use Rattle.bridge_serve.specs.declared.printer.TheConstants.{PRINTER_BYTES};
ghost use Rattle.bridge_serve.specs.Printing.{CountsOnce, Prints};

use crate::output::Output;
use bridge_lines::{Action, MOST_ACTION_BYTES};
use bridge_turns::Speaker;
use issuer_base::{Sink, write_all};
use std::alloc::Global;

/// How many bytes of lines there is room for: those that are kept, and those of one more action.
const PRINTER_BYTES: usize = 2 * MOST_ACTION_BYTES;

/// The lines of actions, which are written together.
#[derive(Drop)]
pub struct Printer<W: Sink + Drop> {
    out: W,
    text: Vec<u8>,
    has_failed: bool,
    ghost room: { PRINTER_BYTES ≤ vec_capacity text },
    ghost short: { vec_len text ≤ MOST_ACTION_BYTES },
}

impl<W: Sink + Drop> Printer<W> {
    /// No lines, and room for them; without memory the output. No other call allocates.
    pub fn new(alloc: Global, out: W) -> Result<Printer<W>, W>
        ensures out { MatchResult result (λ printer. printer.out ≡ out) (λ other. other ≡ out) }
        ensures none { IfOk result (λ printer. printer.text.items ≡ []) }
        ensures works { IfOk result (λ printer. printer.has_failed ≡ false) }
    {
        match Vec::with_capacity(alloc, PRINTER_BYTES) {
            Ok(text) => Ok(Printer {
                out,
                text,
                has_failed: false,
            }),
            Err(_) => Err(out),
        }
    }

    /// The output.
    pub fn into_out(self) -> W
        ensures { result ≡ self.out }
    {
        let Printer { out, .. } = self;
        out
    }

    /// Puts the lines of an action behind those that wait. Many of them are written.
    fn put(&mut self, action: &Action)
        ensures lines { Prints (W.held self.old.out) (W.held self.new.out) (self.old.text.items ++ lines_of (act_of action.now))
            self.new.text.items self.old.has_failed self.new.has_failed }
        ensures count { CountsOnce (W.faults self.old.out) (W.faults self.new.out) self.old.has_failed self.new.has_failed }
    {
        action.write(&mut self.text);
        if self.text.len() > MOST_ACTION_BYTES {
            self.has_failed = write_out(&mut self.out, &mut self.text, self.has_failed);
        }
    }

    /// Writes the lines that wait. Returns whether the output took all that was written so far.
    fn write(&mut self) -> bool
        ensures lines { Prints (W.held self.old.out) (W.held self.new.out) self.old.text.items self.new.text.items
            self.old.has_failed self.new.has_failed }
        ensures none { self.new.text.items ≡ [] }
        ensures works { result ≡ true → self.new.has_failed ≡ false }
        ensures fails { result ≡ false → self.new.has_failed ≡ true }
        ensures count { CountsOnce (W.faults self.old.out) (W.faults self.new.out) self.old.has_failed self.new.has_failed }
    {
        self.has_failed = write_out(&mut self.out, &mut self.text, self.has_failed);
        !self.has_failed
    }
}

/// Writes a text, unless the output failed before, and leaves none. Returns whether the output has failed.
fn write_out<W: Sink>(out: &mut W, text: &mut Vec<u8>, has_failed: bool) -> bool
    ensures bytes { Prints (W.held out.old) (W.held out.new) text.old.items [] has_failed result }
    ensures count { CountsOnce (W.faults out.old) (W.faults out.new) has_failed result }
    ensures none { text.new.items ≡ [] }
    ensures len { vec_len text.new ≡ 0 }
    ensures room { vec_capacity text.old ≤ vec_capacity text.new }
{
    if has_failed {
        text.clear();
        return true;
    }
    let failed = write_all(out, text.as_slice()).is_err();
    text.clear();
    failed
}

impl<W: Sink + Drop> Speaker for Printer<W> {
    ghost use Rattle.std.specs.Prelude.{◌++◌};
    ghost use Rattle.std.specs.List.{flat_map};
    ghost use Rattle.bridge_lines.specs.ActLines.{lines_of};
    ghost use Rattle.bridge_serve.specs.Printing.{CountsOnce, Prints};

    ghost says = { λ start now said. Prints (W.held start.out) (W.held now.out) (start.text.items ++ flat_map lines_of said)
        now.text.items start.has_failed now.has_failed
        × CountsOnce (W.faults start.out) (W.faults now.out) start.has_failed now.has_failed };

    fn say(&mut self, action: &Action) {
        self.put(action);
    }
}

impl<W: Sink + Drop> Output for Printer<W> {
    ghost use Rattle.std.specs.Prelude.{◌≡◌, [], true, false};

    ghost has_passed = { λ printer. (printer.text.items ≡ []) × (printer.has_failed ≡ false) };

    ghost has_failed = { λ printer. printer.has_failed ≡ true };

    fn flush(&mut self) -> bool {
        self.write()
    }
}
