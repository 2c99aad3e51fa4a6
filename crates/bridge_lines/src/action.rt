//! What the program says to do, and the writer of its lines.
ghost use Rattle.std.specs.Prelude.{◌≡◌, ◌+◌, ◌≤◌, ◌∷◌, ◌++◌, length, vec_len, vec_capacity, codes};
ghost use Rattle.std.specs.Fmt.{decimal};
ghost use Rattle.bridge_rule.specs.Openings.{barrier_of};
ghost use Rattle.bridge_rule.specs.Bridges.{indexed};
ghost use Rattle.bridge_lines.specs.declared.limits.TheConstants.{MOST_ACTION_BYTES};
ghost use Rattle.bridge_lines.specs.Texts.{SaysBarrier, SaysMark, barrier_words, ended, feed_line};
ghost use Rattle.bridge_lines.specs.Messages.{records_of};
ghost use Rattle.bridge_lines.specs.Acts.{act_of, published};
ghost use Rattle.bridge_lines.specs.ActLines.{lines_of, published_said, shard_number, why_word};

use crate::limits::MOST_ACTION_BYTES;
use crate::message::Message;
use crate::records::Records;
use crate::writing::{
    put, put_barrier, put_byte, put_feed_line, put_feed_lines, put_number, put_shard_number,
    put_word,
};
use bridge_rule::{Name, Opening, Placed};

/// A journal is truncated to so many records.
#[derive(Clone, Copy)]
pub struct Cut {
    pub shard: u8,
    pub length: u64,
}

/// So many records of a shard count.
#[derive(Clone, Copy)]
pub struct Counted {
    pub shard: u8,
    pub number: u64,
}

/// Why a partition stops.
#[derive(Clone, Copy)]
pub enum Why {
    /// A record counts that the host which serves didn't record.
    Diverged,
    /// A line isn't of the form.
    BadLine,
    /// A line came where the rule doesn't take it.
    OutOfTurn,
    /// The journals have more records beyond those that count, or more answers wait, than there is room for.
    NoRoom,
}

/// What a node has to do.
#[derive(Drop)]
pub enum Action<'a> {
    /// Append this record, which counts, to its journal.
    Put(&'a Placed),
    /// Truncate a journal.
    Cut(Cut),
    /// Write this message to the stream.
    Publish(&'a Message<'a>),
    /// This barrier counts now: a position after the message has it.
    Position(&'a Opening),
    /// So many records of a shard count now.
    Count(Counted),
    /// Stand in the line of the queue's consumers.
    Ready,
    /// Start the host over the journals.
    Begin,
    /// Kill the host. Nobody is answered any more.
    End,
    /// Send the reply of the answer with this number.
    Reply(u64),
    /// Stop the partition.
    Stop(Why),
    /// The turn is over.
    Over,
}

impl Why {
    /// The reason in a word.
    pub fn word(&self) -> &'static [u8]
        ensures word { result.now ≡ why_word self.now }
        ensures short { length result.now ≤ 8 }
    {
        match self {
            Why::Diverged => b"diverged",
            Why::BadLine => b"line",
            Why::OutOfTurn => b"turn",
            Why::NoRoom => b"room",
        }
    }
}

impl<'a> Action<'a> {
    /// Appends the lines that say it.
    pub fn write(&self, out: &mut Vec<u8>)
        requires { vec_len out.old + MOST_ACTION_BYTES ≤ vec_capacity out.old }
        ensures text { out.new.items ≡ out.old.items ++ lines_of (act_of self.now) }
        ensures len { vec_len out.new ≤ vec_len out.old + MOST_ACTION_BYTES }
        ensures room { vec_capacity out.old ≤ vec_capacity out.new }
    {
        match self {
            Action::Put(one) => write_record(out, one),
            Action::Cut(cut) => write_shard_number(out, b"cut", cut.shard, cut.length),
            Action::Publish(message) => write_message(out, message),
            Action::Position(opening) => write_position(out, opening),
            Action::Count(counted) => {
                write_shard_number(out, b"count", counted.shard, counted.number);
            }
            Action::Ready => write_line(out, b"ready"),
            Action::Begin => write_line(out, b"begin"),
            Action::End => write_line(out, b"end"),
            Action::Reply(number) => write_reply(out, *number),
            Action::Stop(why) => write_words(out, b"stop", why.word()),
            Action::Over => write_line(out, b"."),
        }
    }
}

fn write_line(out: &mut Vec<u8>, line: &[u8])
    requires { vec_len out.old + length line.now + 1 ≤ vec_capacity out.old }
    ensures text { out.new.items ≡ out.old.items ++ ended line.now }
    ensures len { vec_len out.new ≡ vec_len out.old + length line.now + 1 }
    ensures room { vec_capacity out.old ≤ vec_capacity out.new }
{
    put(out, line);
    put_byte(out, b'\n');
}

fn write_words(out: &mut Vec<u8>, word: &[u8], more: &[u8])
    requires { vec_len out.old + length word.now + length more.now + 2 ≤ vec_capacity out.old }
    ensures text { out.new.items ≡ out.old.items ++ ended (word.now ++ 32 ∷ more.now) }
    ensures len { vec_len out.new ≡ vec_len out.old + length word.now + length more.now + 2 }
    ensures room { vec_capacity out.old ≤ vec_capacity out.new }
{
    put_word(out, word);
    put(out, more);
    put_byte(out, b'\n');
}

fn write_record(out: &mut Vec<u8>, one: &Placed)
    requires { vec_len out.old + MOST_ACTION_BYTES ≤ vec_capacity out.old }
    ensures text { out.new.items ≡ out.old.items ++ ended (codes "put" ++ 32 ∷ feed_line (indexed one.now)) }
    ensures len { vec_len out.new ≤ vec_len out.old + MOST_ACTION_BYTES }
    ensures room { vec_capacity out.old ≤ vec_capacity out.new }
{
    put_word(out, b"put");
    put_feed_line(out, one);
    put_byte(out, b'\n');
}

fn write_shard_number(out: &mut Vec<u8>, word: &[u8], shard: u8, number: u64)
    requires { vec_len out.old + length word.now + 43 ≤ vec_capacity out.old }
    ensures text { out.new.items ≡ out.old.items ++ ended (word.now ++ 32 ∷ shard_number shard number) }
    ensures len { vec_len out.new ≤ vec_len out.old + length word.now + 43 }
    ensures room { vec_capacity out.old ≤ vec_capacity out.new }
{
    put_word(out, word);
    put_shard_number(out, shard, number);
    put_byte(out, b'\n');
}

fn write_position(out: &mut Vec<u8>, opening: &Opening)
    requires { vec_len out.old + MOST_ACTION_BYTES ≤ vec_capacity out.old }
    ensures text { out.new.items ≡ out.old.items ++ ended (codes "position" ++ 32 ∷ barrier_words (barrier_of opening.now)) }
    ensures len { vec_len out.new ≤ vec_len out.old + MOST_ACTION_BYTES }
    ensures room { vec_capacity out.old ≤ vec_capacity out.new }
{
    put_word(out, b"position");
    put_barrier(out, opening);
    put_byte(out, b'\n');
}

fn write_reply(out: &mut Vec<u8>, number: u64)
    requires { vec_len out.old + MOST_ACTION_BYTES ≤ vec_capacity out.old }
    ensures text { out.new.items ≡ out.old.items ++ ended (codes "reply" ++ 32 ∷ decimal number) }
    ensures len { vec_len out.new ≤ vec_len out.old + MOST_ACTION_BYTES }
    ensures room { vec_capacity out.old ≤ vec_capacity out.new }
{
    put_word(out, b"reply");
    put_number(out, number);
    put_byte(out, b'\n');
}

/// Appends the line that says how many lines follow.
fn write_publish(out: &mut Vec<u8>, count: u64)
    requires { vec_len out.old + 29 ≤ vec_capacity out.old }
    ensures text { out.new.items ≡ out.old.items ++ ended (codes "publish" ++ 32 ∷ decimal count) }
    ensures len { vec_len out.new ≤ vec_len out.old + 29 }
    ensures room { vec_capacity out.old ≤ vec_capacity out.new }
{
    put_word(out, b"publish");
    put_number(out, count);
    put_byte(out, b'\n');
}

fn write_message(out: &mut Vec<u8>, message: &Message<'_>)
    requires { vec_len out.old + MOST_ACTION_BYTES ≤ vec_capacity out.old }
    ensures text { out.new.items ≡ out.old.items ++ lines_of (published message.now) }
    ensures len { vec_len out.new ≤ vec_len out.old + MOST_ACTION_BYTES }
    ensures room { vec_capacity out.old ≤ vec_capacity out.new }
{
    match message {
        Message::Opening(opening) => write_barrier(out, opening),
        Message::Records(records) => write_records(out, records),
        Message::Mark(word) => write_mark(out, word),
        Message::Nothing => write_publish(out, 0),
    }
}

fn write_barrier(out: &mut Vec<u8>, opening: &Opening)
    requires { vec_len out.old + MOST_ACTION_BYTES ≤ vec_capacity out.old }
    ensures text { out.new.items ≡ out.old.items ++ published_said (SaysBarrier (barrier_of opening.now)) }
    ensures len { vec_len out.new ≤ vec_len out.old + MOST_ACTION_BYTES }
    ensures room { vec_capacity out.old ≤ vec_capacity out.new }
{
    write_publish(out, 1);
    put_word(out, b"barrier");
    put_barrier(out, opening);
    put_byte(out, b'\n');
}

fn write_mark(out: &mut Vec<u8>, word: &Name)
    requires { vec_len out.old + MOST_ACTION_BYTES ≤ vec_capacity out.old }
    ensures text { out.new.items ≡ out.old.items ++ published_said (SaysMark word.now.items) }
    ensures len { vec_len out.new ≤ vec_len out.old + MOST_ACTION_BYTES }
    ensures room { vec_capacity out.old ≤ vec_capacity out.new }
{
    write_publish(out, 1);
    write_words(out, b"mark", word.as_slice());
}

fn write_records(out: &mut Vec<u8>, records: &Records)
    requires { vec_len out.old + MOST_ACTION_BYTES ≤ vec_capacity out.old }
    ensures text { out.new.items ≡ out.old.items ++ published_said (records_of records.now) }
    ensures len { vec_len out.new ≤ vec_len out.old + MOST_ACTION_BYTES }
    ensures room { vec_capacity out.old ≤ vec_capacity out.new }
{
    write_publish(out, records.records.len() as u64 + 1);
    write_head(out, records);
    put_feed_lines(out, &records.records);
}

/// Appends the first line of a message of records.
fn write_head(out: &mut Vec<u8>, records: &Records)
    requires { vec_len out.old + 94 ≤ vec_capacity out.old }
    ensures text { out.new.items ≡ out.old.items
        ++ ended (codes "records" ++ 32 ∷ (records.now.name.items ++ 32 ∷ decimal records.now.sequence)) }
    ensures len { vec_len out.new ≤ vec_len out.old + 94 }
    ensures room { vec_capacity out.old ≤ vec_capacity out.new }
{
    put_word(out, b"records");
    put_word(out, records.name.as_slice());
    put_number(out, records.sequence);
    put_byte(out, b'\n');
}
