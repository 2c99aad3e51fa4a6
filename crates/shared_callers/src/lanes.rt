//! Several callers of one host, to which lines are dealt in turns.
ghost use Rattle.std.specs.Prelude.{◌≡◌, ℕ, ◌<◌, ◌≤◌, ◌+◌, ◌∷◌, ◌++◌, [], List, length, false, is_err, MatchBool, MatchResult};
ghost use Rattle.issuer_base.specs.OutsideFaults.{CountsFaults};
ghost use Rattle.issuer_base.specs.declared.answer.Answer.{Answer};
ghost use Rattle.issuer_base.specs.declared.limits.TheConstants.{KEPT_BYTES};
ghost use Rattle.shared_callers.specs.OneLane.{lane_rooms};
ghost use Rattle.shared_callers.specs.Parts.{rooms_of};
ghost use Rattle.shared_callers.specs.declared.half_block.TheConstants.{HALF_LINES};
ghost use Rattle.shared_callers.specs.Seated.{AreSeated, IsPlain};

use crate::half_block::HalfBlock;
use crate::lane::Lane;
use crate::round::{answer_and_exchange, answer_lines};
use host_calls::{Host, Pass};
use issuer_base::{Gate, Sink, Store, WriteFault};
use issuer_setup::Issuer;
use line_blocks::Block;
use line_reader::LineReader;
use std::sync::Wait;
use std::thread::Threads;

/// Several callers of one host, to which lines are dealt in turns. Line k of the run, from 1, goes to caller (k - 1)
/// mod N of N callers. The callers answer the waiting lines concurrently, each its own in their order, and write the
/// texts of their answers. The texts are written in the order of the lines.
///
/// It ends by `close`.
pub struct Lanes<S: Store> {
    pub(crate) host: Host<S>,

    /// The pass that makes no calls. The others are joined into it.
    pub(crate) first: Pass,
    pub(crate) lanes: Vec<Lane>,
    pub(crate) half: HalfBlock,
    ghost seated: { AreSeated host first lanes.items },
    ghost plain: { IsPlain host },
    ghost shards: { 0 < host.issuer.shards },
    ghost some_room: { 0 < half.room },
    ghost rooms: { lane_rooms lanes.items ≡ rooms_of half.parts.items },
}

impl<S: Store> Lanes<S> {
    ghost use Rattle.shared_callers.specs.Lanes.{issuer_in, waiting_in, due_in, is_full_in, HasSameHost, LanesServe};
    ghost use Rattle.shared_callers.specs.Rounds.{WritesAnswers, AnswersRound};

    /// The issuer that was passed to `load`.
    pub fn issuer(&self) -> &Issuer
        ensures { result.now ≡ issuer_in self.now }
    {
        self.host.issuer()
    }

    /// How many lines may wait: those of a half block.
    pub fn room(&self) -> usize
        ensures { result ≤ HALF_LINES }
    {
        self.half.room()
    }

    /// Whether no more line fits before the waiting ones are answered.
    pub fn is_full(&self) -> bool
        ensures { result ≡ is_full_in self.now }
    {
        self.half.is_full()
    }

    /// Whether a line waits.
    pub fn waits(&self) -> bool
        ensures { MatchBool result (0 < waiting_in self.now) (waiting_in self.now ≡ 0) }
    {
        self.half.waiting > 0
    }

    /// Deals the next line, without its newline, to the caller whose turn it is.
    pub fn deal(&mut self, line: &[u8])
        requires room { is_full_in self.old ≡ false }
        requires kept { length line.now ≤ KEPT_BYTES }
        ensures served { (lines : List (List ℕ)) (answers due : List Answer) (waiting : List (List ℕ))
            → LanesServe self.old lines answers due waiting
            → LanesServe self.new lines answers due (waiting ++ line.now ∷ []) }
        ensures counts { (waiting_in self.new ≡ waiting_in self.old + 1) × (due_in self.new ≡ due_in self.old) }
        ensures host { HasSameHost self.old self.new }
    {
        self.half.deal(line);
    }

    /// Has all callers answer the lines that wait, each its own in their order, and each that has lines in a thread of
    /// its own. It may wait.
    ///
    /// The gate is called with each line's number in the run: after its check, and again after its answer.
    pub fn answer<R: Threads + Wait + Sync, G: Gate + Sync>(&mut self, rt: &R, gate: &G)
    where
        S: Send,
        requires { due_in self.old ≡ 0 }
        ensures served { (lines : List (List ℕ)) (answers : List Answer) (waiting : List (List ℕ))
            → LanesServe self.old lines answers [] waiting
            → (more : List Answer) × LanesServe self.new (lines ++ waiting) (answers ++ more) more [] }
        ensures counts { (waiting_in self.new ≡ 0) × (due_in self.new ≡ waiting_in self.old) }
        ensures host { HasSameHost self.old self.new }
    {
        answer_lines(
            rt,
            &self.host,
            gate,
            self.lanes.as_mut_slice(),
            &mut self.half,
        );
    }

    /// Has all callers answer the lines that wait, as `answer` does. Meanwhile this thread writes the answers that are
    /// due, and then takes lines that are whole in the reader's buffer, as many as fit, which then wait. It doesn't read
    /// the source. If the sink fails, no line is taken; the lines that waited are answered all the same.
    pub fn answer_and_read<R: Threads + Wait + Sync, G: Gate + Sync, W: Sink>(
        &mut self,
        rt: &R,
        gate: &G,
        reader: &mut LineReader,
        block: &mut Block,
        out: &mut W,
    ) -> Result<(), WriteFault>
    where
        S: Send,
        requires block { (block.old.text.items ≡ []) × (block.old.lines ≡ 0) }
        ensures served { (lines : List (List ℕ)) (answers due : List Answer) (waiting : List (List ℕ))
            → LanesServe self.old lines answers due waiting
            → AnswersRound self.new reader.old reader.new (W.held out.old) (W.held out.new) result
            lines answers due waiting }
        ensures counts { MatchResult result
            (λ _. waiting_in self.new + length reader.new.ahead ≤ length reader.old.ahead)
            (λ _. waiting_in self.new ≡ 0) }
        ensures reader { reader.old.lines ≤ reader.new.lines }
        ensures host { HasSameHost self.old self.new }
        ensures block { (block.new.text.items ≡ []) × (block.new.lines ≡ 0) }
        ensures faults { CountsFaults (W.faults out.old) (W.faults out.new) (is_err result) }
    {
        answer_and_exchange(
            rt,
            &self.host,
            gate,
            self.lanes.as_mut_slice(),
            &mut self.half,
            reader,
            block,
            out,
        )
    }

    /// Writes the answers that are due, in the order of their lines, by a block that is empty before and after.
    pub fn write_answers<W: Sink>(
        &mut self,
        block: &mut Block,
        out: &mut W,
    ) -> Result<(), WriteFault>
        requires block { (block.old.text.items ≡ []) × (block.old.lines ≡ 0) }
        ensures served { (lines : List (List ℕ)) (answers due : List Answer) (waiting : List (List ℕ))
            → LanesServe self.old lines answers due waiting
            → LanesServe self.new lines answers [] waiting
            × WritesAnswers due (W.held out.old) (W.held out.new) result }
        ensures counts { (due_in self.new ≡ 0) × (waiting_in self.new ≡ waiting_in self.old) }
        ensures host { HasSameHost self.old self.new }
        ensures block { (block.new.text.items ≡ []) × (block.new.lines ≡ 0) }
        ensures faults { CountsFaults (W.faults out.old) (W.faults out.new) (is_err result) }
    {
        self.half.write_due(block, out)
    }
}
