//! One whole line of a feed, taken into the shards of a node.
ghost use Rattle.std.specs.Prelude.{◌≡◌, ℕ, ◌<◌, ◌≤◌, Bool, List, length};
ghost use Rattle.std.specs.List.{AllZip};
ghost use Rattle.arpc_methods.specs.Batch.{answers_at, with_answer};
ghost use Rattle.line_checks.specs.declared.lines_ahead.TheConstants.{MOST_AHEAD};
ghost use Rattle.issuer_base.specs.declared.entry.Entry.{Entry};
ghost use Rattle.host_loading.specs.Hosts.{AreShards};
ghost use Rattle.shard_book.specs.Calls.{KeepsCall};
ghost use Rattle.shard_book.specs.Shards.{IsUnder};
ghost use Rattle.shard_book.specs.Taking.{IsReadRecord, IsReplicaOf, LeavesReplicas};
ghost use Rattle.journal_rec.specs.Record.{IsLineOf};
ghost use Rattle.line_reader.specs.Lines.{ended};
ghost use Rattle.feed_text.specs.declared.limits.TheConstants.{MOST_FEED_BYTES};
ghost use Rattle.standby_node.specs.OneLine.{Does, TakesAt, has_failed};
ghost use Rattle.standby_node.specs.KeptTexts.{HasText};
ghost use Rattle.standby_node.specs.ReadLines.{IsFormed, IsReadAs, IsReady, answer_of_line};
ghost use Rattle.standby_node.specs.Standing.{Hold, KeepsShards, LeavesBetween};

use arpc_methods::{AnswerBatch, MadeAhead};
use arrayvec::ArrayVec;
use feed_text::{MOST_FEED_BYTES, read_head};
use issuer_base::{Entry, Refusal, Store};
use issuer_setup::Issuer;
use journal_rec::read_entry;
use line_checks::LookedUp;
use line_reader::NEWLINE;
use shard_book::{Shard, TakeFault, add_answer, look_up_record};

/// Why a standby stops.
#[derive(Clone, Copy, PartialEq, Eq, Debug)]
pub enum FeedFault {
    /// The line with this number, counted from 1, is bad: it isn't a line of a feed, it names no shard of the node, or
    /// it has the next record of its shard and that one isn't legal.
    BadFeed(u64),

    /// The store of the shard with this number, from 0, failed. The record in hand is in doubt.
    StoreFault(u8),
}

/// A whole line of a feed, read ahead of its turn.
#[derive(Drop)]
pub(crate) enum ReadLine {
    /// It is bad, whatever records the shards have.
    Bad,

    /// Its shard had a record with its index when it was read.
    Behind,

    /// It is for this shard, with this index. What follows is the line of no record.
    NoRecord { shard: u8, place: u64 },

    /// It is for this shard, with this index. What follows is the line of this record.
    Record { shard: u8, place: u64, entry: Entry },
}

/// Takes the whole line with this number, without its newline, into the shards of an issuer.
pub(crate) fn take_line<S: Store>(
    shards: &mut Vec<Shard<S>>,
    issuer: &Issuer,
    line: &[u8],
    number: u64,
) -> Result<(), FeedFault>
    requires { AreShards issuer.now shards.old.items }
    ensures does { (in_doubt : ℕ → Bool) (histories : List (List Entry))
        → Hold issuer.now in_doubt shards.old.items histories
        → (after : List (List Entry))
        × Does issuer.now in_doubt histories line.now number result shards.new.items after
        × LeavesBetween issuer.now histories after shards.old.items shards.new.items }
    ensures kept { KeepsShards issuer.now shards.old.items result shards.new.items }
{
    let (read, rest) = read_line(shards, issuer, line);
    let found = look_up_line(issuer, &read);
    let text = ended(rest);
    take_read(shards, issuer, &read, text.as_slice(), &found, None, number)
}

/// Reads a whole line, without its newline, for the shards of an issuer. Beside it stands the text of its record.
pub(crate) fn read_line<'a, S: Store>(
    shards: &Vec<Shard<S>>,
    issuer: &Issuer,
    line: &'a [u8],
) -> (ReadLine, &'a [u8])
    requires { AreShards issuer.now shards.now.items }
    ensures read { (in_doubt : ℕ → Bool) (histories : List (List Entry))
        → Hold issuer.now in_doubt shards.now.items histories → IsReadAs histories line.now result.0 }
    ensures form { IsFormed issuer.now result.0 }
    ensures text { HasText result.0 (ended result.1.now) × (length result.1.now < MOST_FEED_BYTES) }
{
    if line.len() >= MOST_FEED_BYTES {
        return (ReadLine::Bad, &line[..0]);
    }
    let Some(head) = read_head(line) else {
        return (ReadLine::Bad, &line[..0]);
    };
    if head.shard >= u64::from(issuer.shards()) {
        return (ReadLine::Bad, &line[..0]);
    }
    let shard = head.shard as u8;
    if head.place < shards[usize::from(shard)].places() {
        return (ReadLine::Behind, &line[..0]);
    }
    let Ok(entry) = read_entry(head.rest) else {
        let read = ReadLine::NoRecord {
            shard,
            place: head.place,
        };
        return (read, &line[..0]);
    };
    let read = ReadLine::Record {
        shard,
        place: head.place,
        entry,
    };
    (read, head.rest)
}

/// A line with its newline.
fn ended(line: &[u8]) -> ArrayVec<u8, MOST_FEED_BYTES>
    requires { length line.now < MOST_FEED_BYTES }
    ensures { result.items ≡ ended line.now }
{
    let mut text = ArrayVec::new();
    text.try_extend_from_slice(line).unwrap();
    text.push(NEWLINE);
    text
}

/// What is looked up for the record of a line; a refusal, if it has none.
pub(crate) fn look_up_line(issuer: &Issuer, line: &ReadLine) -> Result<LookedUp, Refusal>
    requires { IsFormed issuer.now line.now }
    ensures { IsReady issuer.now line.now result }
{
    match line {
        ReadLine::Record { entry, .. } => look_up_record(issuer, entry),
        _ => Err(Refusal::UnknownCard),
    }
}

/// Adds the answers of the records of lines, for which this was looked up, to none.
pub(crate) fn add_answers(
    issuer: &Issuer,
    lines: &[ReadLine],
    found: &[Result<LookedUp, Refusal>],
    batch: &mut AnswerBatch,
)
    requires ready { AllZip (IsReady issuer.now) lines.now found.now }
    requires few { length lines.now ≤ MOST_AHEAD }
    ensures all { length batch.new.answers ≡ length lines.now }
    ensures count { batch.new.count ≡ answers_at (answer_of_line issuer.now) lines.now found.now }
{
    batch.clear();
    for (i, line) in lines.iter().enumerate() {
        add_answer_of(issuer, line, &found[i], batch);
    }
}

/// Adds what the issuer authentication data of a line's record are made of, if they are to be made ahead.
fn add_answer_of(
    issuer: &Issuer,
    line: &ReadLine,
    found: &Result<LookedUp, Refusal>,
    batch: &mut AnswerBatch,
)
    requires line { IsReady issuer.now line.now found.now }
    requires room { length batch.old.answers < 128 }
    ensures { batch.new ≡ with_answer (answer_of_line issuer.now line.now found.now) batch.old }
{
    match line {
        ReadLine::Record { entry, .. } => add_answer(issuer, entry, found, batch),
        _ => batch.add(None),
    }
}

/// Takes the line with this number, which was read ahead, into the shards of an issuer. The text is its record's, with
/// its newline, and `made` has the record's issuer authentication data, if they were made ahead.
pub(crate) fn take_read<S: Store>(
    shards: &mut Vec<Shard<S>>,
    issuer: &Issuer,
    line: &ReadLine,
    text: &[u8],
    found: &Result<LookedUp, Refusal>,
    made: Option<&MadeAhead>,
    number: u64,
) -> Result<(), FeedFault>
    requires shards { AreShards issuer.now shards.old.items }
    requires line { IsReady issuer.now line.now found.now }
    requires text { HasText line.now text.now }
    ensures does { (in_doubt : ℕ → Bool) (histories : List (List Entry)) (text : List ℕ)
        → Hold issuer.now in_doubt shards.old.items histories → IsReadAs histories text line.now
        → (after : List (List Entry))
        × Does issuer.now in_doubt histories text number result shards.new.items after
        × LeavesBetween issuer.now histories after shards.old.items shards.new.items }
    ensures kept { KeepsShards issuer.now shards.old.items result shards.new.items }
{
    match line {
        ReadLine::Bad => Err(FeedFault::BadFeed(number)),
        ReadLine::Behind => Ok(()),
        ReadLine::NoRecord { shard, place } => {
            if *place != shards[usize::from(*shard)].places() {
                return Ok(());
            }
            Err(FeedFault::BadFeed(number))
        }
        ReadLine::Record {
            shard,
            place,
            entry,
        } => match take_next(
            &mut shards[usize::from(*shard)],
            issuer,
            *place,
            entry,
            text,
            found,
            made,
        ) {
            Ok(()) => Ok(()),
            Err(TakeFault::NotLegal) => Err(FeedFault::BadFeed(number)),
            Err(TakeFault::StoreFault) => Err(FeedFault::StoreFault(*shard)),
        },
    }
}

/// Takes a record into a shard if this is its next index. Any other index is passed over. `NotLegal` means that the
/// record isn't legal there.
fn take_next<S: Store>(
    shard: &mut Shard<S>,
    issuer: &Issuer,
    place: u64,
    entry: &Entry,
    text: &[u8],
    found: &Result<LookedUp, Refusal>,
    made: Option<&MadeAhead>,
) -> Result<(), TakeFault>
    requires under { IsUnder issuer.now shard.old }
    requires read { IsReadRecord issuer.now entry.now text.now found.now }
    ensures taken { (history : List Entry) (line : List ℕ) → IsReplicaOf issuer.now shard.old history
        → IsLineOf entry.now line → TakesAt issuer.now shard.old history place line result shard.new }
    ensures crash { LeavesReplicas issuer.now shard.old shard.new }
    ensures kept { KeepsCall issuer.now shard.old (has_failed result) shard.new }
{
    if place != shard.places() {
        return Ok(());
    }
    match shard.take_looked_up(issuer, entry, text, found, made) {
        Ok(_) => Ok(()),
        Err(fault) => Err(fault),
    }
}
