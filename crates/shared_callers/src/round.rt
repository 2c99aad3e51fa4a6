//! A round: all callers answer the lines that wait, each that has some in a thread of its own.
ghost use Rattle.std.specs.Prelude.{◌≡◌, ℕ, ◌+◌, ◌<◌, ◌≤◌, List, [], ◌++◌, length, All, is_err, MatchResult};
ghost use Rattle.std.specs.List.{list_any};
ghost use Rattle.std.specs.Thread.{IsSync, IsSend};
ghost use Rattle.issuer_base.specs.OutsideFaults.{CountsFaults};
ghost use Rattle.issuer_base.specs.declared.answer.Answer.{Answer};
ghost use Rattle.turn_book.specs.declared.logs.Log.{Log};
ghost use Rattle.shared_shards.specs.declared.logs.LogItem.{LogItem};
ghost use Rattle.shared_shards.specs.declared.logs.LogHead.{LogHead};
ghost use Rattle.host_calls.specs.Passes.{IsFree};
ghost use Rattle.host_calls.specs.declared.pass.Pass.{Pass};
ghost use Rattle.shared_laws.specs.Dealing.{HaveTurns};
ghost use Rattle.shared_callers.specs.Dealt.{HasDealt, DealsRound};
ghost use Rattle.shared_callers.specs.Halves.{HasWaiting, HasDue, HasSameRooms, HasExchanged};
ghost use Rattle.shared_callers.specs.Handing.{LinesGoOver, TextsComeBack};
ghost use Rattle.shared_callers.specs.OneLane.{LanesAnswer, waiting_lines, waits, answer_texts, lane_rooms, passes_of};
ghost use Rattle.shared_callers.specs.Parts.{rooms_of};
ghost use Rattle.shared_callers.specs.Seated.{AreSeated};
ghost use Rattle.shared_callers.specs.Turns.{AreDue, IsDue};

use crate::half_block::{Given, HalfBlock};
use crate::lane::Lane;
use crate::part::Part;
use host_calls::Host;
use issuer_base::{Gate, Sink, Store, WriteFault};
use line_blocks::Block;
use line_reader::LineReader;
use std::sync::Wait;
use std::thread;
use std::thread::Threads;

/// Has all callers answer the lines that wait; their answers are due then.
pub(crate) fn answer_lines<S: Store + Send, R: Threads + Wait + Sync, G: Gate + Sync>(
    rt: &R,
    host: &Host<S>,
    gate: &G,
    lanes: &mut [Lane],
    half: &mut HalfBlock,
)
    requires free { All (λ lane. IsFree host.now lane.pass) lanes.old }
    requires rooms { lane_rooms lanes.old ≡ rooms_of half.old.parts.items }
    requires none { half.old.due ≡ 0 }
    ensures dealt { (opening : List (Log LogItem LogHead)) (lines : List (List ℕ)) (answers : List Answer)
        (waiting : List (List ℕ)) → HasDealt host.now.issuer opening lanes.old half.old lines answers [] waiting
        → (more : List Answer)
        × HasDealt host.now.issuer opening lanes.new half.new (lines ++ waiting) (answers ++ more) more [] }
    ensures seated { (first : Pass) → AreSeated host.now first lanes.old → AreSeated host.now first lanes.new }
    ensures counts { (half.new.waiting ≡ 0) × (half.new.due ≡ half.old.waiting) }
    ensures rooms { (lane_rooms lanes.new ≡ lane_rooms lanes.old) × HasSameRooms half.old half.new }
{
    let given = half.give_lines(lanes);
    answer_at_once(rt, host, gate, lanes);
    half.take_texts(lanes, given);
}

/// Has all callers answer the lines that wait; their answers are due then. Meanwhile this thread writes the answers that
/// were due, and then deals lines that are whole in the reader's buffer.
pub(crate) fn answer_and_exchange<S, R, G, W>(
    rt: &R,
    host: &Host<S>,
    gate: &G,
    lanes: &mut [Lane],
    half: &mut HalfBlock,
    reader: &mut LineReader,
    block: &mut Block,
    out: &mut W,
) -> Result<(), WriteFault>
where
    S: Store + Send,
    R: Threads + Wait + Sync,
    G: Gate + Sync,
    W: Sink,
    requires free { All (λ lane. IsFree host.now lane.pass) lanes.old }
    requires rooms { lane_rooms lanes.old ≡ rooms_of half.old.parts.items }
    requires block { (block.old.text.items ≡ []) × (block.old.lines ≡ 0) }
    ensures dealt { DealsRound host.now.issuer lanes.old lanes.new half.old half.new reader.old reader.new
        (W.held out.old) (W.held out.new) result }
    ensures seated { (first : Pass) → AreSeated host.now first lanes.old → AreSeated host.now first lanes.new }
    ensures fewer { MatchResult result (λ _. half.new.waiting + length reader.new.ahead ≤ length reader.old.ahead)
        (λ _. half.new.waiting ≡ 0) }
    ensures rooms { (lane_rooms lanes.new ≡ lane_rooms lanes.old) × HasSameRooms half.old half.new }
    ensures after { (block.new.text.items ≡ []) × (block.new.lines ≡ 0)
        × CountsFaults (W.faults out.old) (W.faults out.new) (is_err result) }
{
    let given = half.give_lines(lanes);
    let written = exchange_beside(rt, host, gate, half, reader, block, out, lanes);
    half.take_texts(lanes, given);
    written
}

/// Has a thread of its own answer for each caller that has lines but the last such one. This thread spawns these
/// threads, then exchanges what the half has, and then answers for the last one. So there are as many threads as callers
/// with lines, and a line that comes alone is answered by the thread that reads.
#[cycle(round)]
fn exchange_beside<S, R, G, W>(
    rt: &R,
    host: &Host<S>,
    gate: &G,
    half: &mut HalfBlock,
    reader: &mut LineReader,
    block: &mut Block,
    out: &mut W,
    lanes: &mut [Lane],
) -> Result<(), WriteFault>
where
    S: Store + Send,
    R: Threads + Wait + Sync,
    G: Gate + Sync,
    W: Sink,
    requires free { All (λ lane. IsFree host.now lane.pass) lanes.old × (0 < length lanes.old) }
    requires none { half.old.waiting ≡ 0 }
    requires block { (block.old.text.items ≡ []) × (block.old.lines ≡ 0) }
    ensures lanes { LanesAnswer host.now lanes.old lanes.new }
    ensures exchanged { HasExchanged half.old half.new reader.old reader.new (W.held out.old) (W.held out.new) result }
    ensures block { (block.new.text.items ≡ []) × (block.new.lines ≡ 0) }
    ensures faults { CountsFaults (W.faults out.old) (W.faults out.new) (is_err result) }
{
    let (first, others) = lanes.split_at_mut(1);
    if !any_waits(others) {
        let written = half.exchange(reader, block, out);
        first[0].answer(rt, host, gate);
        answer_at_once(rt, host, gate, others);
        return written;
    }
    if first[0].waits() {
        return exchange_beside_both(rt, host, gate, half, reader, block, out, first, others);
    }
    first[0].answer(rt, host, gate);
    exchange_beside(rt, host, gate, half, reader, block, out, others)
}

/// Has a thread of its own answer for the first caller, while this thread does what is left, as [`exchange_beside`] says.
#[cycle(round)]
fn exchange_beside_both<S, R, G, W>(
    rt: &R,
    host: &Host<S>,
    gate: &G,
    half: &mut HalfBlock,
    reader: &mut LineReader,
    block: &mut Block,
    out: &mut W,
    first: &mut [Lane],
    others: &mut [Lane],
) -> Result<(), WriteFault>
where
    S: Store + Send,
    R: Threads + Wait + Sync,
    G: Gate + Sync,
    W: Sink,
    requires free { All (λ lane. IsFree host.now lane.pass) first.old
        × All (λ lane. IsFree host.now lane.pass) others.old }
    requires some { (length first.old ≡ 1) × (0 < length others.old) }
    requires half { (half.old.waiting ≡ 0) × (block.old.text.items ≡ []) × (block.old.lines ≡ 0) }
    ensures lanes { LanesAnswer host.now first.old first.new × LanesAnswer host.now others.old others.new }
    ensures exchanged { HasExchanged half.old half.new reader.old reader.new (W.held out.old) (W.held out.new) result }
    ensures after { (block.new.text.items ≡ []) × (block.new.lines ≡ 0)
        × CountsFaults (W.faults out.old) (W.faults out.new) (is_err result) }
{
    let mut front = ||
        requires { IsSync R.row × IsSync G.row × IsSend S.row × (length first.now ≡ 1)
            × All (λ lane. IsFree host.now lane.pass) first.now }
        ensures { LanesAnswer host.entry.now first.entry.now first.exit.now }
    { answer_at_once(rt, host, gate, first) };
    let mut back = || -> Result<(), WriteFault>
        requires { IsSync R.row × IsSync G.row × IsSend S.row × (half.now.waiting ≡ 0)
            × (block.now.text.items ≡ []) × (block.now.lines ≡ 0) × (0 < length others.now)
            × All (λ lane. IsFree host.now lane.pass) others.now }
        ensures { LanesAnswer host.entry.now others.entry.now others.exit.now
            × HasExchanged half.entry.now half.exit.now reader.entry.now reader.exit.now (W.held out.entry.now)
            (W.held out.exit.now) result
            × (block.exit.now.text.items ≡ []) × (block.exit.now.lines ≡ 0)
            × CountsFaults (W.faults out.entry.now) (W.faults out.exit.now) (is_err result) }
    { exchange_beside(rt, host, gate, half, reader, block, out, others) };
    let (_, written) = thread::join_mut(rt, &mut front, &mut back);
    written
}

/// Has all callers answer the lines that wait, each that has lines in a thread of its own. This thread spawns one for
/// each of them but the last, and answers for that one itself.
#[cycle(lanes)]
fn answer_at_once<S: Store + Send, R: Threads + Wait + Sync, G: Gate + Sync>(
    rt: &R,
    host: &Host<S>,
    gate: &G,
    lanes: &mut [Lane],
)
    requires free { All (λ lane. IsFree host.now lane.pass) lanes.old }
    ensures { LanesAnswer host.now lanes.old lanes.new }
{
    if lanes.is_empty() {
        return;
    }
    let (first, others) = lanes.split_at_mut(1);
    if first[0].waits() && any_waits(others) {
        answer_beside(rt, host, gate, first, others);
    } else {
        first[0].answer(rt, host, gate);
        answer_at_once(rt, host, gate, others);
    }
}

/// Has a thread of its own answer for the first caller, while this thread has the others answer.
#[cycle(lanes)]
fn answer_beside<S: Store + Send, R: Threads + Wait + Sync, G: Gate + Sync>(
    rt: &R,
    host: &Host<S>,
    gate: &G,
    first: &mut [Lane],
    others: &mut [Lane],
)
    requires free { All (λ lane. IsFree host.now lane.pass) first.old
        × All (λ lane. IsFree host.now lane.pass) others.old }
    requires one { length first.old ≡ 1 }
    requires some { 0 < length others.old }
    ensures first { LanesAnswer host.now first.old first.new }
    ensures others { LanesAnswer host.now others.old others.new }
{
    let mut front = ||
        requires { IsSync R.row × IsSync G.row × IsSend S.row × (length first.now ≡ 1)
            × All (λ lane. IsFree host.now lane.pass) first.now }
        ensures { LanesAnswer host.entry.now first.entry.now first.exit.now }
    { answer_at_once(rt, host, gate, first) };
    let mut back = ||
        requires { IsSync R.row × IsSync G.row × IsSend S.row × (0 < length others.now)
            × All (λ lane. IsFree host.now lane.pass) others.now }
        ensures { LanesAnswer host.entry.now others.entry.now others.exit.now }
    { answer_at_once(rt, host, gate, others) };
    thread::join_mut(rt, &mut front, &mut back);
}

/// Whether a caller has lines that wait.
fn any_waits(lanes: &[Lane]) -> bool
    ensures { result ≡ list_any waits lanes.now }
{
    lanes.iter().any(|lane| lane.waits())
}

impl HalfBlock {
    /// Gives the lines that wait to the lanes of their callers.
    fn give_lines(&mut self, lanes: &mut [Lane]) -> Given
        requires { lane_rooms lanes.old ≡ rooms_of self.old.parts.items }
        ensures given { (before waiting : List (List ℕ)) → HasWaiting self.old before waiting
            → HaveTurns waiting_lines lanes.new before waiting × HasWaiting self.new (before ++ waiting) [] }
        ensures due { (taken due : List (List ℕ)) → HasDue self.old taken due → HasDue self.new taken due }
        ensures lanes { (passes_of lanes.new ≡ passes_of lanes.old) × (lane_rooms lanes.new ≡ lane_rooms lanes.old) }
        ensures counts { (result.first ≡ self.old.first) × (result.count ≡ self.old.waiting) × (self.new.waiting ≡ 0)
            × (self.new.due ≡ self.old.due) }
        ensures rooms { HasSameRooms self.old self.new }
    {
        give_each(self.parts.as_mut_slice(), lanes);
        let given = Given {
            first: self.first,
            count: self.waiting,
        };
        self.first = self.next;
        self.waiting = 0;
        given
    }

    /// Takes the texts of the answers to the lines that were given to the lanes. They are due now.
    fn take_texts(&mut self, lanes: &mut [Lane], given: Given)
        requires rooms { lane_rooms lanes.old ≡ rooms_of self.old.parts.items }
        requires fits { given.count ≤ self.old.room }
        requires due { ∥ IsDue answer_texts lanes.old given.first given.count ∥₁ }
        ensures due { (taken due : List (List ℕ)) → AreDue answer_texts lanes.old given.first given.count taken due
            → HasDue self.new taken due }
        ensures waiting { (before waiting : List (List ℕ)) → HasWaiting self.old before waiting
            → HasWaiting self.new before waiting }
        ensures lanes { (passes_of lanes.new ≡ passes_of lanes.old) × (lane_rooms lanes.new ≡ lane_rooms lanes.old) }
        ensures counts { (self.new.due ≡ given.count) × (self.new.waiting ≡ self.old.waiting) }
        ensures rooms { HasSameRooms self.old self.new }
    {
        take_each(self.parts.as_mut_slice(), lanes);
        self.from = given.first;
        self.due = given.count;
    }
}

/// Gives each lane the lines of its part.
fn give_each(parts: &mut [Part], lanes: &mut [Lane])
    requires { lane_rooms lanes.old ≡ rooms_of parts.old }
    ensures { LinesGoOver parts.old lanes.old parts.new lanes.new }
{
    for index in 0..lanes.len() {
        parts[index].give_lines(&mut lanes[index]);
    }
}

/// Takes the texts of each lane into its part.
fn take_each(parts: &mut [Part], lanes: &mut [Lane])
    requires { lane_rooms lanes.old ≡ rooms_of parts.old }
    ensures { TextsComeBack parts.old lanes.old parts.new lanes.new }
{
    for index in 0..lanes.len() {
        parts[index].take_texts(&mut lanes[index]);
    }
}
