//! Lines that several callers of one host answer at once, each its own.
ghost use Rattle.std.specs.Prelude.{◌≡◌, ◌+◌, ◌≤◌, ℕ, List, [], length, map, is_err, OnOk};
ghost use Rattle.issuer_base.specs.OutsideFaults.{CountsFaults};
ghost use Rattle.issuer_setup.specs.IssuerSetup.{Setup};
ghost use Rattle.line_reader.specs.declared.limits.TheConstants.{MAX_LINES};
ghost use Rattle.line_reader.specs.Reading.{kept};
ghost use Rattle.shared_callers.specs.Lanes.{callers_in, waiting_in};
ghost use Rattle.desk_host.specs.Configuration.{HasSoundParts};
ghost use Rattle.line_blocks.specs.Serving.{TakesAndWrites, WritesAnswers};
ghost use Rattle.line_serving.specs.Leaving.{LeavesAnswered, LeavesLoaded};
ghost use Rattle.line_serving.specs.Hosts.{IsReadyTogether, HaveAnswered};
ghost use Rattle.line_serving.specs.Hosts.{OwesNone, TakesMore};
ghost use Rattle.desk_host.specs.SeenStores.{Logged, journals_seen};

use crate::answer_block::AnswerBlock;
use issuer_base::{Gate, Sink, Store, WriteFault};
use line_reader::LineReader;
use shared_callers::Lanes;
use std::sync::Wait;
use std::thread::Threads;

/// Has all callers answer the lines that wait, and writes their answers, in the order of the lines. Meanwhile the lines
/// that are whole in the reader's buffer are taken, and answered in their turn, until none is left there.
pub(crate) fn write_together<S, R, W, G>(
    host: &mut Lanes<S>,
    rt: &R,
    gate: &G,
    reader: &mut LineReader,
    block: &mut AnswerBlock,
    out: &mut W,
) -> Result<(), WriteFault>
where
    S: Store + Send,
    R: Threads + Wait + Sync,
    W: Sink,
    G: Gate + Sync,
    requires { OwesNone host.old block.old.lines }
    ensures written { (first : Lanes S S.Store) (lines : List (List ℕ)) (text : List ℕ) (waiting : List (List ℕ))
        → HaveAnswered first lines text waiting host.old
        → TakesAndWrites (λ lines text waiting. HaveAnswered first lines text waiting host.new) lines text waiting
        block.old.text.items reader.old reader.new (W.held out.old) (W.held out.new) result }
    ensures none { block.new.text.items ≡ [] }
    ensures settled { (waiting_in host.new ≡ 0) × OnOk result (TakesMore host.new block.new.lines) }
    ensures reader { reader.old.lines ≤ reader.new.lines }
    ensures count { CountsFaults (W.faults out.old) (W.faults out.new) (is_err result) }
{
    while host.waits() {
        block.answer_and_write(host, rt, gate, reader, out)?;
    }
    block.write_due(host, out)
}

/// Has all callers answer the lines that wait, and writes their answers, in the order of the lines. No other line is
/// taken.
pub(crate) fn write_last_together<S, R, W, G>(
    host: &mut Lanes<S>,
    rt: &R,
    gate: &G,
    block: &mut AnswerBlock,
    out: &mut W,
) -> Result<(), WriteFault>
where
    S: Store + Send,
    R: Threads + Wait + Sync,
    W: Sink,
    G: Gate + Sync,
    requires { OwesNone host.old block.old.lines }
    ensures written { (first : Lanes S S.Store) (lines : List (List ℕ)) (text : List ℕ) (waiting : List (List ℕ))
        → HaveAnswered first lines text waiting host.old
        → WritesAnswers (λ lines text waiting. HaveAnswered first lines text waiting host.new) lines text waiting
        block.old.text.items (W.held out.old) (W.held out.new) result }
    ensures settled { waiting_in host.new ≡ 0 }
    ensures count { CountsFaults (W.faults out.old) (W.faults out.new) (is_err result) }
{
    host.answer(rt, gate);
    block.write_due(host, out)
}

/// The stores of the host's journals, in the order of their shards.
pub(crate) fn close_together<S: Store>(host: Lanes<S>) -> Vec<S>
    requires { waiting_in host ≡ 0 }
    ensures answered { (issuer : Setup) (prefix : List ℕ) (logs : Logged) (olds : List S) (first : Lanes S S.Store)
        (lines : List (List ℕ)) (text : List ℕ)
        → IsReadyTogether issuer prefix logs olds first → HasSoundParts issuer → length lines ≤ MAX_LINES
        → HaveAnswered first (map kept lines) text [] host
        → LeavesAnswered (callers_in first) issuer prefix logs (journals_seen S.Store olds result.items) lines text }
    ensures loaded { (issuer : Setup) (prefix : List ℕ) (logs : Logged) (olds : List S)
        → IsReadyTogether issuer prefix logs olds host → HasSoundParts issuer
        → LeavesLoaded (callers_in host) issuer prefix logs (journals_seen S.Store olds result.items) }
{
    host.close()
}
