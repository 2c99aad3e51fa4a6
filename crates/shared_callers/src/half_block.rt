//! The half block that this thread has in hand: it deals lines into it, and writes the answers that came back in it.
ghost use Rattle.std.specs.Prelude.{◌≡◌, ℕ, ◌+◌, ◌*◌, ◌<◌, ◌≤◌, List, [], ◌∷◌, ◌++◌, length, vec_len, All, is_err};
ghost use Rattle.std.specs.Prelude.{◌==◌, map};
ghost use Rattle.std.specs.List.{flat_map};
ghost use Rattle.issuer_base.specs.OutsideFaults.{CountsFaults};
ghost use Rattle.issuer_base.specs.Sink.{WritesAll};
ghost use Rattle.issuer_base.specs.declared.limits.TheConstants.{KEPT_BYTES};
ghost use Rattle.line_blocks.specs.declared.block.TheConstants.{BLOCK_LINES};
ghost use Rattle.line_reader.specs.Reading.{TakesInHand, kept};
ghost use Rattle.shared_callers.specs.Parts.{texts_of};
ghost use Rattle.shared_callers.specs.Turns.{IsBehind, IsWaiting, IsDue};
ghost use Rattle.shared_callers.specs.declared.half_block.TheConstants.{HALF_LINES};

use crate::part::Part;
use issuer_base::{MAX_CALLERS, Sink, WriteFault};
use line_blocks::Block;
use line_checks::MOST_AHEAD;
use line_reader::LineReader;

/// How many lines of a half block are for each caller, at most: four times as many as are checked together.
pub(crate) const MOST_EACH: usize = 4 * MOST_AHEAD;

/// How many lines a half block has, at most: so many may wait, and so many answers be due. These are the lines of the
/// most callers. Their answers fit a block.
pub const HALF_LINES: usize = MAX_CALLERS as usize * MOST_EACH;

/// A part for each caller, and whose turn it is: the lines of one half block, which wait, and the texts of the answers
/// of the half block before, which are due.
#[derive(Drop)]
pub(crate) struct HalfBlock {
    pub(crate) parts: Vec<Part>,

    /// The part that has the first line that waits, the one that gets the next line, and how many lines wait.
    pub(crate) first: usize,
    pub(crate) next: usize,
    pub(crate) waiting: usize,

    /// The part that has the first text that is due, and how many are.
    pub(crate) from: usize,
    pub(crate) due: usize,

    /// How many lines may wait.
    pub(crate) room: usize,
    ghost some: { 0 < vec_len parts },
    ghost each_room: { All (λ part. vec_len parts * part.lines.room ≡ room) parts.items },
    ghost within: { (first < vec_len parts) × (next < vec_len parts) × (from < vec_len parts) },
    ghost fit: { (waiting ≤ room) × (due ≤ room) × (room ≤ HALF_LINES) },
    ghost waits: { ∥ IsWaiting parts.items first next waiting ∥₁ },
    ghost dues: { ∥ IsDue texts_of parts.items from due ∥₁ },
}

impl HalfBlock {
    ghost use Rattle.shared_callers.specs.Parts.{lines_of};
    ghost use Rattle.shared_callers.specs.Halves.{HasWaiting, HasDue, HasSameRooms, HasExchanged};

    /// No lines and no texts, in these parts, each with the same room.
    pub(crate) fn new(parts: Vec<Part>, each: usize) -> HalfBlock
        requires some { 0 < vec_len parts }
        requires room { All (λ part. part.lines.room ≡ each) parts.items }
        requires few { vec_len parts * each ≤ HALF_LINES }
        requires none { All (λ part. (lines_of part ≡ []) × (texts_of part ≡ [])) parts.items }
        ensures parts { (result.parts.items ≡ parts.items) × (result.room ≡ vec_len parts * each) }
        ensures none { HasWaiting result [] [] × HasDue result [] [] }
    {
        let room = parts.len() * each;
        HalfBlock {
            parts,
            first: 0,
            next: 0,
            waiting: 0,
            from: 0,
            due: 0,
            room,
        }
    }

    /// How many lines may wait.
    pub(crate) fn room(&self) -> usize
        ensures { result ≡ self.now.room }
    {
        self.room
    }

    /// Whether no more line fits.
    pub(crate) fn is_full(&self) -> bool
        ensures { result ≡ (self.now.waiting == self.now.room) }
    {
        self.waiting == self.room
    }

    /// Deals the next line to the part whose turn it is.
    pub(crate) fn deal(&mut self, line: &[u8])
        requires room { self.old.waiting < self.old.room }
        requires kept { length line.now ≤ KEPT_BYTES }
        ensures waiting { (before waiting : List (List ℕ)) → HasWaiting self.old before waiting
            → HasWaiting self.new before (waiting ++ line.now ∷ []) }
        ensures due { (taken due : List (List ℕ)) → HasDue self.old taken due → HasDue self.new taken due }
        ensures counts { (self.new.waiting ≡ self.old.waiting + 1) × (self.new.due ≡ self.old.due) }
        ensures rooms { HasSameRooms self.old self.new }
    {
        let next = self.next;
        self.parts[next].lines.add(line);
        self.next = behind(next, self.parts.len());
        self.waiting += 1;
    }

    /// Appends the first text that is due to a block.
    fn append_next(&mut self, block: &mut Block)
        requires some { 0 < self.old.due }
        requires room { block.old.lines < BLOCK_LINES }
        ensures due { (taken due : List (List ℕ)) → HasDue self.old taken due
            → (text : List ℕ) × (rest : List (List ℕ)) × (due ≡ text ∷ rest) × HasDue self.new (taken ++ text ∷ []) rest
            × (block.new.text.items ≡ block.old.text.items ++ text) }
        ensures waiting { (before waiting : List (List ℕ)) → HasWaiting self.old before waiting
            → HasWaiting self.new before waiting }
        ensures counts { (self.new.due + 1 ≡ self.old.due) × (self.new.waiting ≡ self.old.waiting)
            × (block.new.lines ≡ block.old.lines + 1) }
        ensures rooms { HasSameRooms self.old self.new }
    {
        let from = self.from;
        self.parts[from].texts.move_first(block);
        self.from = behind(from, self.parts.len());
        self.due -= 1;
    }

    /// Appends all texts that are due to an empty block, in the order of the lines.
    fn append_due(&mut self, block: &mut Block)
        requires { (block.old.text.items ≡ []) × (block.old.lines ≡ 0) }
        ensures due { (taken due : List (List ℕ)) → HasDue self.old taken due
            → HasDue self.new (taken ++ due) [] × (block.new.text.items ≡ flat_map (λ text. text) due) }
        ensures waiting { (before waiting : List (List ℕ)) → HasWaiting self.old before waiting
            → HasWaiting self.new before waiting }
        ensures counts { (self.new.due ≡ 0) × (self.new.waiting ≡ self.old.waiting) }
        ensures rooms { HasSameRooms self.old self.new }
    {
        while self.due > 0 {
            self.append_next(block);
        }
    }

    /// Writes the texts that are due, in the order of the lines, by a block that is empty before and after.
    pub(crate) fn write_due<W: Sink>(
        &mut self,
        block: &mut Block,
        out: &mut W,
    ) -> Result<(), WriteFault>
        requires { (block.old.text.items ≡ []) × (block.old.lines ≡ 0) }
        ensures written { (taken due : List (List ℕ)) → HasDue self.old taken due
            → HasDue self.new (taken ++ due) []
            × WritesAll (W.held out.old) (W.held out.new) result (flat_map (λ text. text) due) }
        ensures waiting { (before waiting : List (List ℕ)) → HasWaiting self.old before waiting
            → HasWaiting self.new before waiting }
        ensures counts { (self.new.due ≡ 0) × (self.new.waiting ≡ self.old.waiting) }
        ensures rooms { HasSameRooms self.old self.new }
        ensures block { (block.new.text.items ≡ []) × (block.new.lines ≡ 0) }
        ensures faults { CountsFaults (W.faults out.old) (W.faults out.new) (is_err result) }
    {
        self.append_due(block);
        block.write(out)
    }

    /// Deals lines that are whole in the reader's buffer, as many as fit.
    fn take_lines(&mut self, reader: &mut LineReader)
        ensures taken { (before waiting : List (List ℕ)) → HasWaiting self.old before waiting
            → (taken : List (List ℕ)) × HasWaiting self.new before (waiting ++ map kept taken)
            × TakesInHand reader.old taken reader.new }
        ensures due { (taken due : List (List ℕ)) → HasDue self.old taken due → HasDue self.new taken due }
        ensures counts { (self.new.due ≡ self.old.due)
            × (self.new.waiting + length reader.new.ahead ≤ self.old.waiting + length reader.old.ahead)
            × (reader.old.lines ≤ reader.new.lines) }
        ensures rooms { HasSameRooms self.old self.new }
    {
        while !self.is_full() {
            if !reader.take_in_hand() {
                return;
            }
            self.deal(reader.line());
        }
    }

    /// Writes the texts that are due, and then deals lines that are whole in the reader's buffer. If the sink fails, no
    /// line is dealt.
    pub(crate) fn exchange<W: Sink>(
        &mut self,
        reader: &mut LineReader,
        block: &mut Block,
        out: &mut W,
    ) -> Result<(), WriteFault>
        requires none { self.old.waiting ≡ 0 }
        requires block { (block.old.text.items ≡ []) × (block.old.lines ≡ 0) }
        ensures exchanged { HasExchanged self.old self.new reader.old reader.new (W.held out.old) (W.held out.new) result }
        ensures block { (block.new.text.items ≡ []) × (block.new.lines ≡ 0) }
        ensures faults { CountsFaults (W.faults out.old) (W.faults out.new) (is_err result) }
    {
        self.write_due(block, out)?;
        self.take_lines(reader);
        Ok(())
    }
}

/// Lines that were given to the lanes: the lane that has the first one, and how many there are.
#[derive(Drop)]
pub(crate) struct Given {
    pub(crate) first: usize,
    pub(crate) count: usize,
}

/// The part whose turn follows that of `part`, of `count` parts.
fn behind(part: usize, count: usize) -> usize
    requires { part < count }
    ensures { IsBehind count part result }
{
    if part + 1 < count { part + 1 } else { 0 }
}
