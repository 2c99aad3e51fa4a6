//! What this thread exchanges with one caller: lines that wait for it, and the texts of its answers.
ghost use Rattle.std.specs.Prelude.{◌≡◌, ◌≤◌, [], IfOk};
ghost use Rattle.shared_callers.specs.declared.half_block.TheConstants.{HALF_LINES};

use crate::lane::Lane;
use crate::texts::AnswerTexts;
use issuer_base::{KEPT_BYTES, NoMemory};
use line_reader::PackedLines;
use std::alloc::Global;
use std::mem;

/// The lines that wait for a caller, and the texts of its answers that are due. There is room for as many texts as
/// lines.
#[derive(Drop)]
pub(crate) struct Part {
    pub(crate) lines: PackedLines<KEPT_BYTES>,
    pub(crate) texts: AnswerTexts,
    ghost fits: { texts.room ≡ lines.room },
}

impl Part {
    ghost use Rattle.shared_callers.specs.Parts.{lines_of, texts_of};
    ghost use Rattle.shared_callers.specs.OneLane.{waiting_lines, answer_texts};

    /// No lines and no texts, and room for `room` of each.
    pub(crate) fn new(alloc: Global, room: usize) -> Result<Part, NoMemory>
        requires { room ≤ HALF_LINES }
        ensures none { IfOk result (λ part. (lines_of part ≡ []) × (texts_of part ≡ [])) }
        ensures room { IfOk result (λ part. part.lines.room ≡ room) }
    {
        Ok(Part {
            lines: PackedLines::new(alloc, room)?,
            texts: AnswerTexts::new(alloc, room)?,
        })
    }

    /// Gives all lines to a lane, and takes its slots for the next lines.
    pub(crate) fn give_lines(&mut self, lane: &mut Lane)
        requires { lane.old.lines.room ≡ self.old.lines.room }
        ensures given { waiting_lines lane.new ≡ lines_of self.old }
        ensures none { lines_of self.new ≡ [] }
        ensures texts { texts_of self.new ≡ texts_of self.old }
        ensures room { (self.new.lines.room ≡ self.old.lines.room) × (lane.new.lines.room ≡ lane.old.lines.room) }
        ensures pass { lane.new.pass ≡ lane.old.pass }
    {
        mem::swap(&mut self.lines, &mut lane.lines);
        self.lines.clear();
    }

    /// Takes all texts from a lane, and leaves its slots for the next texts.
    pub(crate) fn take_texts(&mut self, lane: &mut Lane)
        requires { lane.old.lines.room ≡ self.old.lines.room }
        ensures taken { texts_of self.new ≡ answer_texts lane.old }
        ensures lines { self.new.lines ≡ self.old.lines }
        ensures room { lane.new.lines.room ≡ lane.old.lines.room }
        ensures pass { lane.new.pass ≡ lane.old.pass }
    {
        mem::swap(&mut self.texts, &mut lane.texts);
    }
}
