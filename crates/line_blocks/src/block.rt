//! Answers that are due, and are written together.
ghost use Rattle.std.specs.Prelude.{◌≡◌, ◌↔◌, ◌+◌, ◌*◌, ◌<◌, ◌≤◌, [], ◌++◌, length, vec_len, vec_capacity, is_err};
ghost use Rattle.std.specs.Prelude.{IfOk, IsTrue};
ghost use Rattle.issuer_base.specs.OutsideFaults.{CountsFaults};
ghost use Rattle.issuer_base.specs.Sink.{WritesAll};
ghost use Rattle.answer_text.specs.AnswerText.{printed};
ghost use Rattle.answer_text.specs.declared.words.TheConstants.{LINE_ROOM};
ghost use Rattle.line_blocks.specs.declared.block.TheConstants.{BLOCK_LINES, BLOCK_ROOM, FULL_LINES};

use answer_text::{LINE_ROOM, write_answer};
use arrayvec::ArrayVec;
use issuer_base::{Answer, NoMemory, Sink, WriteFault, write_all};
use std::alloc::Global;

/// How many lines a block has, at most: as many as may wait for several callers before they are answered.
pub const BLOCK_LINES: usize = 8_192;

/// How many lines a full block has, which is to be written.
pub const FULL_LINES: usize = 2_048;

/// How many bytes their answers have, at most.
const BLOCK_ROOM: usize = BLOCK_LINES * LINE_ROOM;

/// Lines of text that are written together: the answers to so many lines.
#[derive(Drop)]
pub struct Block {
    pub(crate) text: Vec<u8>,
    pub(crate) lines: usize,

    /// The last of them.
    line: ArrayVec<u8, LINE_ROOM>,
    ghost room: { BLOCK_ROOM ≤ vec_capacity text },
    ghost fits: { vec_len text ≤ lines * LINE_ROOM },
}

impl Block {
    /// No answers, with room for those of a whole block.
    pub fn new(alloc: Global) -> Result<Self, NoMemory>
        ensures none { IfOk result (λ block. block.text.items ≡ []) }
        ensures no_lines { IfOk result (λ block. block.lines ≡ 0) }
    {
        Ok(Block {
            text: Vec::with_capacity(alloc, BLOCK_ROOM)?,
            lines: 0,
            line: ArrayVec::new(),
        })
    }

    /// How many lines it has.
    pub fn lines(&self) -> usize
        ensures { result ≡ self.now.lines }
    {
        self.lines
    }

    /// Whether it has as many lines as a full block, and is to be written.
    pub fn is_full(&self) -> bool
        ensures { IsTrue result ↔ (FULL_LINES ≤ self.now.lines) }
    {
        self.lines >= FULL_LINES
    }

    /// Puts an answer behind those that are there.
    pub fn add(&mut self, answer: &Answer)
        requires { self.old.lines < BLOCK_LINES }
        ensures text { self.new.text.items ≡ self.old.text.items ++ printed answer.now }
        ensures lines { self.new.lines ≡ self.old.lines + 1 }
    {
        write_answer(answer, &mut self.line);
        self.append_line();
    }

    /// Puts a line behind those that are there.
    pub fn add_line(&mut self, line: &ArrayVec<u8, LINE_ROOM>)
        requires { self.old.lines < BLOCK_LINES }
        ensures text { self.new.text.items ≡ self.old.text.items ++ line.now.items }
        ensures lines { self.new.lines ≡ self.old.lines + 1 }
    {
        self.add_text(line.as_slice());
    }

    /// Puts the text of a line behind those that are there.
    pub fn add_text(&mut self, text: &[u8])
        requires room { self.old.lines < BLOCK_LINES }
        requires short { length text.now ≤ LINE_ROOM }
        ensures text { self.new.text.items ≡ self.old.text.items ++ text.now }
        ensures lines { self.new.lines ≡ self.old.lines + 1 }
    {
        self.text.extend_from_slice(text).unwrap();
        self.lines += 1;
    }

    /// Appends the last answer's line to the text.
    fn append_line(&mut self)
        requires { self.old.lines < BLOCK_LINES }
        ensures text { self.new.text.items ≡ self.old.text.items ++ self.old.line.items }
        ensures lines { self.new.lines ≡ self.old.lines + 1 }
    {
        self.text.extend_from_slice(self.line.as_slice()).unwrap();
        self.lines += 1;
    }

    /// Writes all answers, and begins a new block.
    pub fn write<W: Sink>(&mut self, out: &mut W) -> Result<(), WriteFault>
        ensures written { WritesAll (W.held out.old) (W.held out.new) result self.old.text.items }
        ensures none { self.new.text.items ≡ [] }
        ensures no_lines { self.new.lines ≡ 0 }
        ensures count { CountsFaults (W.faults out.old) (W.faults out.new) (is_err result) }
    {
        let written = write_all(out, &self.text);
        self.text.clear();
        self.lines = 0;
        written
    }
}
