//! A caller with its pass, the lines that it answers, and the texts of its answers.
ghost use Rattle.std.specs.Prelude.{◌≡◌, ◌<◌, ◌≤◌, ◌+◌, ℕ, List, length, IfOk};
ghost use Rattle.line_checks.specs.LookedUp.{AreLookUps, IsLookUp};
ghost use Rattle.line_checks.specs.Reading.{reading};
ghost use Rattle.line_checks.specs.declared.lines_ahead.TheConstants.{MOST_AHEAD};
ghost use Rattle.shared_laws.specs.Authorising.{Authorises};
ghost use Rattle.host_calls.specs.Passes.{claims_of, logs_of, IsFree};
ghost use Rattle.shared_callers.specs.declared.half_block.TheConstants.{HALF_LINES};

use crate::part::Part;
use crate::texts::AnswerTexts;
use crossbeam_utils::CachePadded;
use host_calls::{Host, Pass};
use issuer_base::{Answer, Gate, KEPT_BYTES, MAX_CHIP_BYTES, NoMemory, Refusal, Store};
use line_checks::{LinesAhead, LookedUp, MOST_AHEAD, look_up};
use line_reader::PackedLines;
use std::alloc::Global;
use std::sync::Wait;

/// The memory of a lane: room for lines and the texts of their answers.
#[derive(Drop)]
pub(crate) struct LaneRoom {
    part: Part,
    ahead: LinesAhead,
}

impl LaneRoom {
    ghost use Rattle.shared_callers.specs.OneLane.{places_in};

    /// Allocates the memory, for `count` lines.
    pub(crate) fn new(alloc: Global, count: usize) -> Result<LaneRoom, NoMemory>
        requires { count ≤ HALF_LINES }
        ensures { IfOk result (λ room. places_in room ≡ count) }
    {
        Ok(LaneRoom {
            part: Part::new(alloc, count)?,
            ahead: LinesAhead::new(alloc)?,
        })
    }
}

/// A caller with its pass, the lines that it answers, and the texts of its answers.
pub(crate) struct Lane {
    pub(crate) pass: Pass,
    pub(crate) lines: PackedLines<KEPT_BYTES>,

    /// The look-ups of some of the lines that wait, one after another, while they are answered.
    ahead: LinesAhead,
    pub(crate) texts: AnswerTexts,

    /// The number of the next line, counted from 1 in the run, and the stride between this caller's lines.
    number: u64,
    step: u64,

    /// Keeps the callers in a list off each other's cache lines.
    apart: CachePadded<()>,
    ghost fits: { texts.room ≡ lines.room },
}

impl Lane {
    ghost use Rattle.shared_callers.specs.OneLane.{waiting_lines, waits, looked_up_lines, LaneAnswers, places_in};

    /// A caller with this pass. `number` is that of its first line in the run, and `step` the stride between its lines.
    pub(crate) fn new(pass: Pass, room: LaneRoom, number: u64, step: u64) -> Lane
        ensures pass { result.pass ≡ pass }
        ensures room { result.lines.room ≡ places_in room }
    {
        let LaneRoom { part, ahead } = room;
        let Part { lines, texts } = part;
        Lane {
            pass,
            lines,
            ahead,
            texts,
            number,
            step,
            apart: CachePadded::new(()),
        }
    }

    /// Ends the lane, and returns its pass.
    pub(crate) fn into_pass(self) -> Pass
        ensures { result ≡ self.pass }
    {
        let Lane {
            pass,
            lines: _,
            ahead: _,
            texts: _,
            number: _,
            step: _,
            apart: _,
        } = self;
        pass
    }

    /// Whether a line waits.
    pub(crate) fn waits(&self) -> bool
        ensures { result ≡ waits self.now }
    {
        self.lines.len() != 0
    }

    /// Answers the lines that wait, in their order, and writes the texts of the answers, in place of those before.
    pub(crate) fn answer<S: Store, R: Wait, G: Gate>(&mut self, rt: &R, host: &Host<S>, gate: &G)
        requires { IsFree host.now self.old.pass }
        ensures { LaneAnswers host.now self.old self.new }
    {
        self.ahead.clear();
        self.texts.clear();
        let mut first = 0;
        for place in 0..self.lines.len() {
            first = self.look_ahead(host, first, place);
            let found = self.ahead.get(place - first).unwrap();
            let answer = answer_line(rt, host, gate, &mut self.pass, self.number, found);
            self.texts.add(&answer);
            self.number = self.number.saturating_add(self.step);
        }
    }

    /// Looks up lines ahead from this index on, unless the line with this index is among those that were looked up, the
    /// first of which has the index `first`. Returns the index of the first one that is looked up then.
    fn look_ahead<S: Store>(&mut self, host: &Host<S>, first: usize, place: usize) -> usize
        requires within { (first ≤ place) × (place < length (waiting_lines self.old)) }
        requires ahead { AreLookUps host.now.issuer (looked_up_lines first self.old) self.old.ahead }
        ensures ahead { AreLookUps host.now.issuer (looked_up_lines result self.new) self.new.ahead }
        ensures within { (result ≤ place) × (place < result + length self.new.ahead) }
        ensures same { (self.new.pass ≡ self.old.pass) × (self.new.lines ≡ self.old.lines)
            × (self.new.texts ≡ self.old.texts) }
    {
        if place - first < self.ahead.len() {
            return first;
        }
        self.ahead.clear();
        let count = MOST_AHEAD.min(self.lines.len() - place);
        self.look_up_lines(host, place, place + count);
        place
    }

    /// Looks up the lines from one index on up to another, and checks their cryptograms, together if they are many.
    fn look_up_lines<S: Store>(&mut self, host: &Host<S>, place: usize, end: usize)
        requires within { (place ≤ end) × (end ≤ length (waiting_lines self.old)) }
        requires few { end ≤ place + MOST_AHEAD }
        requires none { length self.old.ahead ≡ 0 }
        ensures ahead { AreLookUps host.now.issuer (looked_up_lines place self.new) self.new.ahead }
        ensures count { end ≡ place + length self.new.ahead }
        ensures same { (self.new.pass ≡ self.old.pass) × (self.new.lines ≡ self.old.lines)
            × (self.new.texts ≡ self.old.texts) }
    {
        let mut data = [0; MAX_CHIP_BYTES];
        for index in place..end {
            let found = look_up(host.issuer(), self.lines.line(index), &mut data);
            self.ahead.add(found);
        }
        self.ahead.check(host.issuer());
    }
}

/// Answers a line, with this number, that was looked up. The gate is called before the line's turn and after it.
fn answer_line<S: Store, R: Wait, G: Gate>(
    rt: &R,
    host: &Host<S>,
    gate: &G,
    pass: &mut Pass,
    number: u64,
    found: &Result<LookedUp, Refusal>,
) -> Answer
    requires free { IsFree host.now pass.old }
    requires found { (line : List ℕ) × IsLookUp host.now.issuer line found.now }
    ensures free { IsFree host.now pass.new }
    ensures answers { (line : List ℕ) → IsLookUp host.now.issuer line found.now
        → Authorises host.now.issuer (reading host.now.issuer line)
        (claims_of pass.old) (logs_of pass.old) result (claims_of pass.new) (logs_of pass.new) }
    ensures names { (claims_of pass.new).names ≡ (claims_of pass.old).names }
{
    let checked = host.pre_check_found(pass, found);
    gate.at(rt, number);
    let answer = match checked {
        Ok(checked) => host.finish(rt, pass, checked),
        Err(refusal) => Answer::Refused(refusal),
    };
    gate.done(rt, number);
    answer
}
