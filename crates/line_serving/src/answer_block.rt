//! The block of the answers that are due. Only its own calls write it, and each requires that the answers' records are
//! durable.
ghost use Rattle.std.specs.Prelude.{◌≡◌, ◌+◌, ◌<◌, ◌≤◌, ℕ, List, [], ◌++◌, length, is_err, IfOk, MatchResult};
ghost use Rattle.issuer_base.specs.OutsideFaults.{CountsFaults};
ghost use Rattle.issuer_base.specs.Sink.{WritesAll};
ghost use Rattle.issuer_base.specs.declared.answer.Answer.{Answer as AnswerOf};
ghost use Rattle.answer_text.specs.AnswerText.{printed};
ghost use Rattle.line_blocks.specs.declared.block.TheConstants.{BLOCK_LINES};
ghost use Rattle.shared_callers.specs.Lanes.{due_in, waiting_in, HasSameHost, LanesServe};
ghost use Rattle.shared_callers.specs.Rounds.{AnswersRound, WritesAnswers as WritesDue};
ghost use Rattle.line_serving.specs.Durable.{IsDurableText, OwesDurable};

use issuer_base::{Answer, Gate, NoMemory, Sink, Store, WriteFault};
use line_blocks::Block;
use line_reader::LineReader;
use one_caller::Solo;
use shared_callers::Lanes;
use std::alloc::Global;
use std::marker::Model;
use std::sync::Wait;
use std::thread::Threads;

/// The text of answers that are due, in the order of their lines.
#[derive(Drop)]
pub(crate) struct AnswerBlock {
    block: Block,
}

impl Model for AnswerBlock {
    ghost use Rattle.line_blocks.specs.declared.block.Block.{Block as BlockOf};

    ghost Value = { BlockOf };

    ghost view = { λ answers. answers.block };
}

impl AnswerBlock {
    /// No answers, with room for those of a whole block.
    pub(crate) fn new(alloc: Global) -> Result<Self, NoMemory>
        ensures { IfOk result (λ block. (block.text.items ≡ []) × (block.lines ≡ 0)) }
    {
        Ok(AnswerBlock {
            block: Block::new(alloc)?,
        })
    }

    /// How many answers it has.
    pub(crate) fn lines(&self) -> usize
        ensures { result ≡ self.now.lines }
    {
        self.block.lines()
    }

    /// Appends the answer of one caller.
    pub(crate) fn add(&mut self, answer: &Answer)
        requires { self.old.lines < BLOCK_LINES }
        ensures text { self.new.text.items ≡ self.old.text.items ++ printed answer.now }
        ensures lines { self.new.lines ≡ self.old.lines + 1 }
    {
        self.block.add(answer);
    }

    /// Writes all answers of one caller. The record of each is durable before, in the store of its shard.
    pub(crate) fn write_durable<S: Store, W: Sink>(
        &mut self,
        host: &Solo<S>,
        out: &mut W,
    ) -> Result<(), WriteFault>
        requires durable { IsDurableText host.now self.old.text.items }
        ensures written { WritesAll (W.held out.old) (W.held out.new) result self.old.text.items }
        ensures none { (self.new.text.items ≡ []) × (self.new.lines ≡ 0) }
        ensures count { CountsFaults (W.faults out.old) (W.faults out.new) (is_err result) }
    {
        self.block.write(out)
    }

    /// Writes the answers of several callers that are due, in the order of their lines. The record of each is durable
    /// before.
    pub(crate) fn write_due<S: Store, W: Sink>(
        &mut self,
        host: &mut Lanes<S>,
        out: &mut W,
    ) -> Result<(), WriteFault>
        requires durable { OwesDurable host.old }
        requires block { (self.old.text.items ≡ []) × (self.old.lines ≡ 0) }
        ensures served { (lines : List (List ℕ)) (answers due : List AnswerOf) (waiting : List (List ℕ))
            → LanesServe host.old lines answers due waiting
            → LanesServe host.new lines answers [] waiting × WritesDue due (W.held out.old) (W.held out.new) result }
        ensures counts { (due_in host.new ≡ 0) × (waiting_in host.new ≡ waiting_in host.old) }
        ensures host { HasSameHost host.old host.new }
        ensures block { (self.new.text.items ≡ []) × (self.new.lines ≡ 0) }
        ensures faults { CountsFaults (W.faults out.old) (W.faults out.new) (is_err result) }
    {
        host.write_answers(&mut self.block, out)
    }

    /// Has all callers answer the lines that wait. Meanwhile writes the answers that are due, and then takes lines in
    /// hand, as `Lanes::answer_and_read` does. The record of each answer is durable before it is written.
    pub(crate) fn answer_and_write<S, R, W, G>(
        &mut self,
        host: &mut Lanes<S>,
        rt: &R,
        gate: &G,
        reader: &mut LineReader,
        out: &mut W,
    ) -> Result<(), WriteFault>
    where
        S: Store + Send,
        R: Threads + Wait + Sync,
        W: Sink,
        G: Gate + Sync,
        requires durable { OwesDurable host.old }
        requires block { (self.old.text.items ≡ []) × (self.old.lines ≡ 0) }
        ensures served { (lines : List (List ℕ)) (answers due : List AnswerOf) (waiting : List (List ℕ))
            → LanesServe host.old lines answers due waiting
            → AnswersRound host.new reader.old reader.new (W.held out.old) (W.held out.new) result lines answers due waiting }
        ensures counts { MatchResult result (λ _. waiting_in host.new + length reader.new.ahead ≤ length reader.old.ahead)
            (λ _. waiting_in host.new ≡ 0) }
        ensures reader { reader.old.lines ≤ reader.new.lines }
        ensures host { HasSameHost host.old host.new }
        ensures block { (self.new.text.items ≡ []) × (self.new.lines ≡ 0) }
        ensures faults { CountsFaults (W.faults out.old) (W.faults out.new) (is_err result) }
    {
        host.answer_and_read(rt, gate, reader, &mut self.block, out)
    }
}
