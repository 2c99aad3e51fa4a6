//! A stream's message, and the parser of its text.
ghost use Rattle.std.specs.Prelude.{◌≡◌, ◌<◌, ◌≤◌, length, map, option_map, vec_capacity, IfSome};
ghost use Rattle.bridge_rule.specs.Openings.{barrier_of};
ghost use Rattle.bridge_rule.specs.Bridges.{indexed, ArePlaced};
ghost use Rattle.bridge_rule.specs.declared.limits.TheConstants.{INDEX_END};
ghost use Rattle.bridge_lines.specs.declared.limits.TheConstants.{MAX_RECORDS};
ghost use Rattle.bridge_lines.specs.Reading.{barrier_in, line_said, message_in, records_in, records_said, said_in};
ghost use Rattle.bridge_lines.specs.Messages.{found_said, said_of, IsFoundInRange};
ghost use Rattle.bridge_lines.specs.News.{IsMessageWithin};

use crate::limits::MAX_RECORDS;
use crate::records::Records;
use crate::words::{cut, is_same, name_in, number_in, record_in};
use bridge_rule::{Name, Opening, Placed};

/// A message of a partition's stream.
#[derive(Drop)]
pub enum Message<'a> {
    /// A machine takes the partition over.
    Opening(Opening),
    /// What the host of that machine recorded.
    Records(&'a Records),
    /// Its writer knows by it how far it has read.
    Mark(Name),
    /// A text that is no message: it counts nowhere.
    Nothing,
}

/// What a text says. Its records are in the room for them.
#[derive(Drop)]
enum Found {
    Opening(Opening),
    Records,
    Mark(Name),
}

impl<'a> Message<'a> {
    /// The message of a text, whose records are put into the room.
    pub fn parse(text: &[u8], room: &'a mut Records) -> Message<'a>
        ensures message { said_of result ≡ message_in text.now }
        ensures within { IsMessageWithin result }
    {
        match read(text, room) {
            None => Message::Nothing,
            Some(Found::Opening(opening)) => Message::Opening(opening),
            Some(Found::Records) => Message::Records(room),
            Some(Found::Mark(word)) => Message::Mark(word),
        }
    }
}

/// What a text says.
#[tactic(auto, unfolding(crate::specs::Reading::message_in))]
fn read(text: &[u8], room: &mut Records) -> Option<Found>
    ensures said { option_map (found_said room.new) result ≡ message_in text.now }
    ensures range { IfSome result (IsFoundInRange room.new) }
{
    let (head, lines) = cut(b'\n', text)?;
    let (kind, words) = cut(b' ', head)?;
    read_kind(kind, words, lines, room)
}

/// What a text says, by the first word of its first line, the other words, and the other lines.
#[tactic(auto, unfolding(crate::specs::Reading::said_in))]
fn read_kind(kind: &[u8], words: &[u8], lines: &[u8], room: &mut Records) -> Option<Found>
    ensures said { option_map (found_said room.new) result ≡ said_in kind.now words.now lines.now }
    ensures range { IfSome result (IsFoundInRange room.new) }
{
    if is_same(kind, b"records") {
        return read_records(words, lines, room);
    }
    if !lines.is_empty() {
        return None;
    }
    read_line(kind, words, room)
}

/// A message in one line.
#[tactic(auto, unfolding(crate::specs::Reading::line_said))]
fn read_line(kind: &[u8], words: &[u8], room: &Records) -> Option<Found>
    ensures said { option_map (found_said room.now) result ≡ line_said kind.now words.now }
    ensures range { IfSome result (IsFoundInRange room.now) }
{
    if is_same(kind, b"barrier") {
        let opening = barrier_in(words)?;
        return Some(Found::Opening(opening));
    }
    if is_same(kind, b"mark") {
        let word = name_in(words)?;
        return Some(Found::Mark(word));
    }
    None
}

/// A barrier: its number, its name and its machine's name.
#[tactic(auto, unfolding(crate::specs::Reading::barrier_in))]
pub(crate) fn barrier_in(words: &[u8]) -> Option<Opening>
    ensures barrier { option_map barrier_of result ≡ barrier_in words.now }
    ensures range { IfSome result (λ opening. opening.number < INDEX_END) }
{
    let (number, names) = cut(b' ', words)?;
    let number = number_in(number)?;
    let (name, machine) = cut(b' ', names)?;
    let name = name_in(name)?;
    let machine = name_in(machine)?;
    Some(Opening {
        number,
        name,
        machine,
    })
}

/// Records by a name.
#[tactic(auto, unfolding(crate::specs::Reading::records_said))]
fn read_records(words: &[u8], lines: &[u8], room: &mut Records) -> Option<Found>
    ensures said { option_map (found_said room.new) result ≡ records_said words.now lines.now }
    ensures range { IfSome result (IsFoundInRange room.new) }
{
    let (name, sequence) = cut(b' ', words)?;
    room.name = name_in(name)?;
    room.sequence = number_in(sequence)?;
    records_in(lines, &mut room.records)?;
    Some(Found::Records)
}

/// Reads feed lines, as many as a message has at most.
fn records_in(lines: &[u8], records: &mut Vec<Placed>) -> Option<()>
    requires { MAX_RECORDS ≤ vec_capacity records.old }
    ensures records { option_map (λ _. map indexed records.new.items) result ≡ records_in MAX_RECORDS lines.now }
    ensures placed { ArePlaced records.new.items }
    ensures most { length records.new.items ≤ MAX_RECORDS }
    ensures room { vec_capacity records.new ≡ vec_capacity records.old }
{
    records.clear();
    let mut rest = lines;
    for i in 0..MAX_RECORDS {
        if rest.is_empty() {
            return Some(());
        }
        let (line, more) = cut(b'\n', rest)?;
        let one = record_in(line)?;
        records.push_reserved(one);
        rest = more;
    }
    if rest.is_empty() { Some(()) } else { None }
}
