//! The parts of a line: what is before a separator, names, numbers, and records.
ghost use Rattle.std.specs.Prelude.{◌≡◌, ◌<◌, ◌≤◌, length, option_map, true, IfSome};
ghost use Rattle.std.specs.Str.Parse.{AllDigits};
ghost use Rattle.std.specs.List.{list_all};
ghost use Rattle.std.specs.Str.{bytes_eq};
ghost use Rattle.bridge_rule.specs.Bridges.{indexed};
ghost use Rattle.bridge_rule.specs.declared.limits.TheConstants.{LOGS, NAME_ROOM, TEXT_ROOM};
ghost use Rattle.bridge_lines.specs.declared.limits.TheConstants.{MOST_DIGITS, NUMBER_END};
ghost use Rattle.bridge_lines.specs.Parts.{place, cut, is_digit, is_letter, is_name_byte, is_name, is_number, is_text_byte, is_text, name_in};
ghost use Rattle.bridge_lines.specs.Parts.{number_in, shard_in, text_in, record_in};
ghost use Rattle.bridge_lines.specs.Views.{cut_view, name_items, IsPlaced};

use crate::limits::MOST_DIGITS;
use arrayvec::ArrayVec;
use bridge_rule::{LOGS, NAME_ROOM, Name, Placed, TEXT_ROOM, Text};
use memchr::memchr;

/// The index of the first such byte.
pub(crate) fn place(byte: u8, bytes: &[u8]) -> Option<usize>
    ensures place { result ≡ place byte bytes.now }
    ensures within { IfSome result (λ at. at < length bytes.now) }
{
    memchr(byte, bytes)
}

/// What is before the first such byte, and what follows it.
pub(crate) fn cut(byte: u8, bytes: &[u8]) -> Option<(&[u8], &[u8])>
    ensures { option_map cut_view result ≡ cut byte bytes.now }
{
    let at = place(byte, bytes)?;
    Some((&bytes[..at], &bytes[at + 1..]))
}

/// Whether two words are the same.
pub(crate) fn is_same(word: &[u8], other: &[u8]) -> bool
    ensures { result ≡ bytes_eq word.now other.now }
{
    word == other
}

fn is_digit(byte: u8) -> bool
    ensures { result ≡ is_digit byte }
{
    byte >= b'0' && byte <= b'9'
}

fn is_letter(byte: u8) -> bool
    ensures { result ≡ is_letter byte }
{
    byte >= b'A' && byte <= b'Z' || byte >= b'a' && byte <= b'z'
}

fn is_name_byte(byte: u8) -> bool
    ensures { result ≡ is_name_byte byte }
{
    is_digit(byte) || is_letter(byte) || byte == b'_' || byte == b'.' || byte == b'-'
}

fn are_name_bytes(word: &[u8]) -> bool
    ensures { result ≡ list_all is_name_byte word.now }
{
    word.iter().all(|byte| is_name_byte(*byte))
}

#[tactic(auto, unfolding(crate::specs::Parts::is_name))]
fn is_name(word: &[u8]) -> bool
    ensures name { result ≡ is_name word.now }
    ensures short { result ≡ true → length word.now ≤ NAME_ROOM }
{
    !word.is_empty() && word.len() <= NAME_ROOM && are_name_bytes(word)
}

/// The name that a word is.
pub(crate) fn name_in(word: &[u8]) -> Option<Name>
    ensures { option_map name_items result ≡ name_in word.now }
{
    if !is_name(word) {
        return None;
    }
    let mut name = ArrayVec::new();
    name.try_extend_from_slice(word).unwrap();
    Some(name)
}

fn pass_digits(word: &[u8]) -> bool
    ensures { result ≡ list_all is_digit word.now }
{
    word.iter().all(|byte| is_digit(*byte))
}

fn are_digits(word: &[u8]) -> bool
    ensures test { result ≡ list_all is_digit word.now }
    ensures digits { result ≡ true → AllDigits 10 word.now }
{
    pass_digits(word)
}

#[tactic(auto, unfolding(crate::specs::Parts::is_number))]
fn is_number(word: &[u8]) -> bool
    ensures number { result ≡ is_number word.now }
    ensures short { result ≡ true → length word.now ≤ MOST_DIGITS }
    ensures digits { result ≡ true → AllDigits 10 word.now }
{
    !word.is_empty()
        && word.len() <= MOST_DIGITS
        && are_digits(word)
        && (word[0] != b'0' || word.len() <= 1)
}

/// The number that a word says.
pub(crate) fn number_in(word: &[u8]) -> Option<u64>
    ensures number { result ≡ number_in word.now }
    ensures below { IfSome result (λ number. number < NUMBER_END) }
{
    if !is_number(word) {
        return None;
    }
    let mut number = 0;
    for byte in word {
        number = number * 10 + u64::from(*byte - b'0');
    }
    Some(number)
}

/// The shard that a word says.
pub(crate) fn shard_in(word: &[u8]) -> Option<u8>
    ensures shard { result ≡ shard_in word.now }
    ensures below { IfSome result (λ shard. shard < LOGS) }
{
    let shard = number_in(word)?;
    if shard < LOGS as u64 {
        Some(shard as u8)
    } else {
        None
    }
}

fn is_text_byte(byte: u8) -> bool
    ensures { result ≡ is_text_byte byte }
{
    byte < 128 && byte != b'\n'
}

fn are_text_bytes(text: &[u8]) -> bool
    ensures { result ≡ list_all is_text_byte text.now }
{
    text.iter().all(|byte| is_text_byte(*byte))
}

#[tactic(auto, unfolding(crate::specs::Parts::is_text))]
fn is_text(text: &[u8]) -> bool
    ensures text { result ≡ is_text text.now }
    ensures short { result ≡ true → length text.now ≤ TEXT_ROOM }
{
    !text.is_empty() && text.len() <= TEXT_ROOM && are_text_bytes(text)
}

/// The text of a record.
fn text_in(text: &[u8]) -> Option<Text>
    ensures { option_map name_items result ≡ text_in text.now }
{
    if !is_text(text) {
        return None;
    }
    let mut copy = ArrayVec::new();
    copy.try_extend_from_slice(text).unwrap();
    Some(copy)
}

/// The record of a feed line.
#[tactic(auto, unfolding(crate::specs::Parts::record_in))]
pub(crate) fn record_in(line: &[u8]) -> Option<Placed>
    ensures record { option_map indexed result ≡ record_in line.now }
    ensures placed { IfSome result IsPlaced }
{
    let (shard, rest) = cut(b' ', line)?;
    let shard = shard_in(shard)?;
    let (index, text) = cut(b' ', rest)?;
    let index = number_in(index)?;
    let text = text_in(text)?;
    Some(Placed { shard, index, text })
}
