//! What a node tells the program, and the parser of its lines.
ghost use Rattle.std.specs.Prelude.{◌≡◌, option_map, IfSome, None, nat_lt, length, codes, if◌then◌else◌};
ghost use Rattle.std.specs.Str.{bytes_eq};
ghost use Rattle.bridge_lines.specs.News.{news_of, IsWithin};
ghost use Rattle.bridge_lines.specs.Parts.{cut};
ghost use Rattle.bridge_lines.specs.TurnReading.{answered_by, news_by, news_in, plain_in, text_news, worded_in};

use crate::message::Message;
use crate::records::Records;
use crate::turn::lines_end;
use crate::words::{cut, is_same, name_in, number_in, record_in, shard_in};
use bridge_rule::{Name, Place, Placed};

/// An answer of the host: its number, and where the record is that it names, if it names one.
#[derive(Clone, Copy)]
pub struct Answered {
    pub number: u64,
    pub place: Option<Place>,
}

/// What happened on a machine.
#[derive(Drop)]
pub enum Event<'a> {
    /// The journals have this record: the next one of its shard that the bridge doesn't know.
    Has(Placed),
    /// The bridge knows what the journals have.
    Told,
    /// The stream can be read and written. A mark of this word says how far there is to read.
    Connected(Name),
    /// The connection is lost.
    Lost,
    /// The queue delivers here. A barrier may have this name, which none had before.
    Called(Name),
    /// The stream's next message.
    Message(Message<'a>),
    /// The host has loaded the journals, and has no line yet.
    Loaded,
    /// The host has ended by itself.
    Ended,
    /// The host has answered.
    Answered(Answered),
    /// Nothing came for a while, or something is missing: what didn't come back is written again.
    Again,
}

impl<'a> Event<'a> {
    /// The event that the lines of a turn tell. The records of a message are put into the room.
    #[tactic(auto, unfolding(crate::specs::TurnReading::news_in))]
    pub fn parse(turn: &[u8], room: &'a mut Records) -> Option<Event<'a>>
        ensures news { option_map news_of result ≡ news_in turn.now }
        ensures within { IfSome result IsWithin }
    {
        let (line, rest) = cut(b'\n', turn)?;
        by_line(line, rest, room)
    }
}

/// The event of a first line, and of the other lines.
#[tactic(auto, unfolding(crate::specs::TurnReading::news_by))]
fn by_line<'a>(line: &[u8], rest: &[u8], room: &'a mut Records) -> Option<Event<'a>>
    ensures news { option_map news_of result ≡ news_by line.now rest.now (cut 32 line.now) }
    ensures within { IfSome result IsWithin }
{
    match cut(b' ', line) {
        None => alone(line, rest),
        Some((word, more)) => worded(word, more, rest, room),
    }
}

/// The event of a line without a space.
fn alone<'a>(line: &[u8], rest: &[u8]) -> Option<Event<'a>>
    ensures news { option_map news_of result ≡ (if nat_lt 0 (length rest.now) then None else plain_in line.now) }
    ensures within { IfSome result IsWithin }
{
    if !rest.is_empty() {
        return None;
    }
    plain_in(line)
}

/// The event of a first line with a space, and of the other lines.
fn worded<'a>(word: &[u8], more: &[u8], rest: &[u8], room: &'a mut Records) -> Option<Event<'a>>
    ensures news { option_map news_of result ≡ (if bytes_eq word.now (codes "message") then text_news more.now rest.now
        else if nat_lt 0 (length rest.now) then None else worded_in word.now more.now) }
    ensures within { IfSome result IsWithin }
{
    if is_same(word, b"message") {
        return text_in(more, rest, room);
    }
    if !rest.is_empty() {
        return None;
    }
    worded_in(word, more)
}

/// A message: how many lines, and those.
#[tactic(auto, unfolding(crate::specs::TurnReading::text_news))]
fn text_in<'a>(count: &[u8], text: &[u8], room: &'a mut Records) -> Option<Event<'a>>
    ensures news { option_map news_of result ≡ text_news count.now text.now }
    ensures within { IfSome result IsWithin }
{
    let count = number_in(count)?;
    let end = lines_end(count, text)?;
    if end != text.len() {
        return None;
    }
    Some(Event::Message(Message::parse(text, room)))
}

/// An event that is a word alone.
#[tactic(auto, unfolding(crate::specs::TurnReading::plain_in))]
fn plain_in<'a>(line: &[u8]) -> Option<Event<'a>>
    ensures news { option_map news_of result ≡ plain_in line.now }
    ensures within { IfSome result IsWithin }
{
    if is_same(line, b"told") {
        return Some(Event::Told);
    }
    if is_same(line, b"again") {
        return Some(Event::Again);
    }
    if is_same(line, b"loaded") {
        return Some(Event::Loaded);
    }
    if is_same(line, b"ended") {
        return Some(Event::Ended);
    }
    if is_same(line, b"lost") {
        return Some(Event::Lost);
    }
    None
}

/// An event of a word, and of what follows it in its line.
#[tactic(auto, unfolding(crate::specs::TurnReading::worded_in))]
fn worded_in<'a>(word: &[u8], more: &[u8]) -> Option<Event<'a>>
    ensures news { option_map news_of result ≡ worded_in word.now more.now }
    ensures within { IfSome result IsWithin }
{
    if is_same(word, b"has") {
        let one = record_in(more)?;
        return Some(Event::Has(one));
    }
    if is_same(word, b"answered") {
        return answered_in(more);
    }
    if is_same(word, b"connected") {
        let name = name_in(more)?;
        return Some(Event::Connected(name));
    }
    if is_same(word, b"called") {
        let name = name_in(more)?;
        return Some(Event::Called(name));
    }
    None
}

/// An answer: its number, and the place of the record that it names.
#[tactic(auto, unfolding(crate::specs::TurnReading::answered_by))]
fn answered_in<'a>(words: &[u8]) -> Option<Event<'a>>
    ensures news { option_map news_of result ≡ answered_by words.now (cut 32 words.now) }
    ensures within { IfSome result IsWithin }
{
    match cut(b' ', words) {
        None => {
            let number = number_in(words)?;
            let place = None;
            Some(Event::Answered(Answered { number, place }))
        }
        Some((number, rest)) => {
            let number = number_in(number)?;
            let (shard, index) = cut(b' ', rest)?;
            let shard = shard_in(shard)?;
            let index = number_in(index)?;
            let place = Some(Place { shard, index });
            Some(Event::Answered(Answered { number, place }))
        }
    }
}
