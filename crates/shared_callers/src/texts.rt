//! The texts of a caller's answers.
ghost use Rattle.std.specs.Prelude.{◌≡◌, ◌+◌, ◌<◌, ◌≤◌, [], ◌∷◌, ◌++◌, length, IfOk};
ghost use Rattle.answer_text.specs.AnswerText.{printed};
ghost use Rattle.line_blocks.specs.declared.block.TheConstants.{BLOCK_LINES};
ghost use Rattle.shared_callers.specs.DueTexts.{MovesFirst};
ghost use Rattle.shared_callers.specs.declared.half_block.TheConstants.{HALF_LINES};

use answer_text::{LINE_ROOM, write_answer};
use arrayvec::ArrayVec;
use issuer_base::{Answer, NoMemory};
use line_blocks::Block;
use line_reader::PackedLines;
use std::alloc::Global;
use std::marker::Model;

/// The texts that are due, in their order, and room for more.
///
/// A contract sees the texts, how many there are with those that were removed, and how many there may be of both.
#[derive(Drop)]
pub(crate) struct AnswerTexts {
    lines: PackedLines<LINE_ROOM>,

    /// The index of the first text that is due.
    first: usize,

    /// The last text that was written.
    line: ArrayVec<u8, LINE_ROOM>,
}

impl Model for AnswerTexts {
    ghost use Rattle.std.specs.Prelude.{◌≤◌, length, drop};
    ghost use Rattle.shared_callers.specs.declared.half_block.TheConstants.{HALF_LINES};
    ghost use Rattle.shared_callers.specs.DueTexts.{DueTexts};

    ghost Value = { DueTexts };

    ghost view = { λ texts. record {
      texts = drop texts.first texts.lines.lines;
      used = length texts.lines.lines;
      room = texts.lines.room;
    } };

    ghost invariant = { λ texts. (texts.first ≤ length texts.lines.lines)
        × (length texts.lines.lines ≤ texts.lines.room) × (texts.lines.room ≤ HALF_LINES) };
}

impl AnswerTexts {
    /// No texts, and room for `room` texts. Only this call allocates.
    pub(crate) fn new(alloc: Global, room: usize) -> Result<AnswerTexts, NoMemory>
        requires { room ≤ HALF_LINES }
        ensures { IfOk result (λ texts. texts ≡ record { texts = []; used = 0; room = room }) }
    {
        Ok(AnswerTexts {
            lines: PackedLines::new(alloc, room)?,
            first: 0,
            line: ArrayVec::new(),
        })
    }

    /// Appends the text of an answer.
    pub(crate) fn add(&mut self, answer: &Answer)
        requires { self.old.used < self.old.room }
        ensures { self.new ≡ record {
          texts = self.old.texts ++ printed answer.now ∷ [];
          used = self.old.used + 1;
          room = self.old.room;
        } }
    {
        write_answer(answer, &mut self.line);
        self.lines.add(self.line.as_slice());
    }

    /// Appends the first text to a block, and removes it.
    pub(crate) fn move_first(&mut self, block: &mut Block)
        requires some { 0 < length self.old.texts }
        requires room { block.old.lines < BLOCK_LINES }
        ensures moved { MovesFirst self.old self.new block.old.text.items block.new.text.items }
        ensures lines { block.new.lines ≡ block.old.lines + 1 }
    {
        block.add_text(self.lines.line(self.first));
        self.first += 1;
    }

    /// Removes all texts, so that there is room for as many as may be.
    pub(crate) fn clear(&mut self)
        ensures { self.new ≡ record { texts = []; used = 0; room = self.old.room } }
    {
        self.lines.clear();
        self.first = 0;
    }
}
