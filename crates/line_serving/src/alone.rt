//! Lines that one caller answers: a line alone at once, and others once they were checked together.
ghost use Rattle.std.specs.Prelude.{◌≡◌, ◌+◌, ◌<◌, ◌≤◌, ℕ, List, [], ◌∷◌, ◌++◌, length, map, false, is_err};
ghost use Rattle.issuer_base.specs.OutsideFaults.{CountsFaults};
ghost use Rattle.issuer_setup.specs.IssuerSetup.{Setup};
ghost use Rattle.line_checks.specs.LookedUp.{AreLookUps};
ghost use Rattle.line_checks.specs.declared.lines_ahead.TheConstants.{MOST_AHEAD};
ghost use Rattle.line_reader.specs.Reading.{kept};
ghost use Rattle.line_blocks.specs.declared.block.TheConstants.{BLOCK_LINES};
ghost use Rattle.desk_host.specs.Configuration.{HasSoundParts};
ghost use Rattle.desk_host.specs.Journals.{IsReadySolo};
ghost use Rattle.desk_host.specs.SeenStores.{Logged, journals_seen};

use crate::answer_block::AnswerBlock;
use issuer_base::{Gate, Sink, Store, WriteFault};
use line_blocks::FULL_LINES;
use line_checks::LinesAhead;
use one_caller::Solo;
use std::sync::Wait;

/// The host of one caller, and the lines that wait for their turns.
pub struct AloneHost<S: Store> {
    pub(crate) host: Solo<S>,

    /// What the look-ups of the lines that wait gave.
    pub(crate) ahead: LinesAhead,

    /// The number of the first of them, if one waits.
    first: u64,
}

impl<S: Store> AloneHost<S> {
    ghost use Rattle.line_blocks.specs.Serving.{TakesLine, Settles, WritesAnswers};
    ghost use Rattle.line_serving.specs.Leaving.{LeavesAnswered, LeavesLoaded};
    ghost use Rattle.line_serving.specs.Hosts.{HasAnswered};
    ghost use Rattle.line_serving.specs.Hosts.{MaySettleAlone, TakesMoreAlone};
    ghost use Rattle.line_serving.specs.Durable.{IsRecordedText};

    /// This host. No line waits.
    pub(crate) fn new(host: Solo<S>, ahead: LinesAhead) -> Self
        requires { ahead ≡ [] }
        ensures { (result.host ≡ host) × (result.ahead ≡ []) }
    {
        AloneHost {
            host,
            ahead,
            first: 0,
        }
    }

    /// Whether the block is full once the lines that wait are answered.
    pub(crate) fn is_full(&self, block: &AnswerBlock) -> bool
        requires { MaySettleAlone self.now block.now.lines block.now.text.items }
        ensures { result ≡ false → TakesMoreAlone self.now block.now.lines block.now.text.items }
    {
        block.lines() + self.ahead.len() >= FULL_LINES
    }

    /// Takes the line with this number. If no line waits and no other is in hand, it is answered at once. Otherwise it
    /// waits until as many lines wait as are checked together.
    pub(crate) fn take_line<R: Wait, G: Gate>(
        &mut self,
        rt: &R,
        gate: &G,
        number: u64,
        line: &[u8],
        has_next: bool,
        block: &mut AnswerBlock,
    )
        requires { TakesMoreAlone self.old block.old.lines block.old.text.items }
        ensures taken { (first : Solo S S.Store) (lines : List (List ℕ)) (text : List ℕ) (waiting : List (List ℕ))
            → HasAnswered first lines text waiting self.old
            → TakesLine (λ lines text waiting. HasAnswered first lines text waiting self.new) lines text waiting
            line.now block.old.text.items block.new.text.items }
        ensures open { MaySettleAlone self.new block.new.lines block.new.text.items }
    {
        if !has_next && self.ahead.is_empty() {
            return self.answer_at_once(rt, gate, number, line, block);
        }
        self.add(number, line);
        if self.ahead.is_full() {
            self.settle(rt, gate, block);
        }
    }

    /// Answers the line with this number. The gate is called before it and after it. The answer goes into the block. It is a
    /// function of its own, so that lines that wait don't pay for its memory.
    #[inline(never)]
    fn answer_at_once<R: Wait, G: Gate>(
        &mut self,
        rt: &R,
        gate: &G,
        number: u64,
        line: &[u8],
        block: &mut AnswerBlock,
    )
        requires room { block.old.lines < BLOCK_LINES }
        requires none { self.old.ahead ≡ [] }
        requires recorded { IsRecordedText self.old.host block.old.text.items }
        ensures taken { (first : Solo S S.Store) (lines : List (List ℕ)) (text : List ℕ) (waiting : List (List ℕ))
            → HasAnswered first lines text waiting self.old
            → TakesLine (λ lines text waiting. HasAnswered first lines text waiting self.new) lines text waiting
            line.now block.old.text.items block.new.text.items }
        ensures one_more { block.new.lines ≡ block.old.lines + 1 }
        ensures none { self.new.ahead ≡ [] }
        ensures recorded { IsRecordedText self.new.host block.new.text.items }
    {
        gate.at(rt, number);
        let answer = self.host.authorise(line);
        gate.done(rt, number);
        block.add(&answer);
    }

    /// Looks up the line with this number, which then waits.
    fn add(&mut self, number: u64, line: &[u8])
        requires { length self.old.ahead < MOST_AHEAD }
        ensures waits { (first : Solo S S.Store) (lines : List (List ℕ)) (text : List ℕ) (waiting : List (List ℕ))
            → HasAnswered first lines text waiting self.old
            → HasAnswered first lines text (waiting ++ line.now ∷ []) self.new }
        ensures looked_up { (lines : List (List ℕ)) → AreLookUps self.old.host.issuer lines self.old.ahead
            → AreLookUps self.new.host.issuer (lines ++ line.now ∷ []) self.new.ahead }
        ensures one_more { length self.new.ahead ≡ length self.old.ahead + 1 }
        ensures recorded { (due : List ℕ) → IsRecordedText self.old.host due → IsRecordedText self.new.host due }
    {
        let first = if self.ahead.is_empty() {
            number
        } else {
            self.first
        };
        self.first = first;
        let found = self.host.look_ahead(line);
        self.ahead.add(found);
    }

    /// Answers all lines that wait, once their cryptograms were checked, together if they are many. The answers go into
    /// the block. The gate is called with each line's number, before the line is answered and after it. Where no line
    /// waits, nothing is done.
    pub(crate) fn settle<R: Wait, G: Gate>(&mut self, rt: &R, gate: &G, block: &mut AnswerBlock)
        requires room { block.old.lines + length self.old.ahead ≤ BLOCK_LINES }
        requires looked_up { (lines : List (List ℕ)) × AreLookUps self.old.host.issuer lines self.old.ahead }
        requires recorded { IsRecordedText self.old.host block.old.text.items }
        ensures answered { (first : Solo S S.Store) (lines : List (List ℕ)) (text : List ℕ) (waiting : List (List ℕ))
            → HasAnswered first lines text waiting self.old
            → Settles (λ lines text waiting. HasAnswered first lines text waiting self.new) lines text waiting
            block.old.text.items block.new.text.items }
        ensures none { self.new.ahead ≡ [] }
        ensures count { block.new.lines ≡ block.old.lines + length self.old.ahead }
        ensures recorded { IsRecordedText self.new.host block.new.text.items }
    {
        if self.ahead.is_empty() {
            return;
        }
        self.settle_waiting(rt, gate, block);
    }

    /// Answers all lines that wait, once their cryptograms were checked, together if they are many. The answers go into
    /// the block. The gate is called with each line's number, before the line is answered and after it.
    #[inline(never)]
    fn settle_waiting<R: Wait, G: Gate>(&mut self, rt: &R, gate: &G, block: &mut AnswerBlock)
        requires room { block.old.lines + length self.old.ahead ≤ BLOCK_LINES }
        requires looked_up { (lines : List (List ℕ)) × AreLookUps self.old.host.issuer lines self.old.ahead }
        requires recorded { IsRecordedText self.old.host block.old.text.items }
        ensures answered { (first : Solo S S.Store) (lines : List (List ℕ)) (text : List ℕ) (waiting : List (List ℕ))
            → HasAnswered first lines text waiting self.old
            → Settles (λ lines text waiting. HasAnswered first lines text waiting self.new) lines text waiting
            block.old.text.items block.new.text.items }
        ensures none { self.new.ahead ≡ [] }
        ensures count { block.new.lines ≡ block.old.lines + length self.old.ahead }
        ensures recorded { IsRecordedText self.new.host block.new.text.items }
    {
        self.ahead.check(self.host.issuer());
        for index in 0..self.ahead.len() {
            let found = self.ahead.get(index).unwrap();
            gate.at(rt, self.first);
            let answer = self.host.answer(found);
            gate.done(rt, self.first);
            block.add(&answer);
            self.first = self.first.saturating_add(1);
        }
        self.ahead.clear();
    }

    /// Answers all lines that wait, and writes all answers of the block.
    pub(crate) fn write<R: Wait, G: Gate, W: Sink>(
        &mut self,
        rt: &R,
        gate: &G,
        block: &mut AnswerBlock,
        out: &mut W,
    ) -> Result<(), WriteFault>
        requires { MaySettleAlone self.old block.old.lines block.old.text.items }
        ensures written { (first : Solo S S.Store) (lines : List (List ℕ)) (text : List ℕ) (waiting : List (List ℕ))
            → HasAnswered first lines text waiting self.old
            → WritesAnswers (λ lines text waiting. HasAnswered first lines text waiting self.new) lines text waiting
            block.old.text.items (W.held out.old) (W.held out.new) result }
        ensures none { block.new.text.items ≡ [] }
        ensures room { TakesMoreAlone self.new block.new.lines [] }
        ensures settled { self.new.ahead ≡ [] }
        ensures count { CountsFaults (W.faults out.old) (W.faults out.new) (is_err result) }
    {
        self.settle(rt, gate, block);
        block.write_durable(&self.host, out)
    }

    /// The stores of the host's journals, in the order of their shards.
    pub(crate) fn close(self) -> Vec<S>
        ensures answered { (issuer : Setup) (prefix : List ℕ) (logs : Logged) (olds : List S) (first : Solo S S.Store)
            (lines : List (List ℕ)) (text : List ℕ)
            → IsReadySolo issuer prefix logs olds first → HasSoundParts issuer
            → HasAnswered first (map kept lines) text [] self
            → LeavesAnswered 1 issuer prefix logs (journals_seen S.Store olds result.items) lines text }
        ensures loaded { (issuer : Setup) (prefix : List ℕ) (logs : Logged) (olds : List S)
            → IsReadySolo issuer prefix logs olds self.host → HasSoundParts issuer
            → LeavesLoaded 1 issuer prefix logs (journals_seen S.Store olds result.items) }
    {
        let AloneHost {
            host,
            ahead: _,
            first: _,
        } = self;
        host.close()
    }
}
