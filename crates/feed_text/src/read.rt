//! The parser of the numbers that a feed line begins with.
ghost use Rattle.std.specs.Prelude.{◌≡◌, ◌≢◌, ◌↔◌, ℕ, ◌+◌, ◌*◌, ◌^◌, ◌<◌, ◌≤◌, List, ◌∷◌, ◌++◌, length, slice_index, IsTrue, MatchOption};
ghost use Rattle.std.specs.Char.{digit_value};
ghost use Rattle.std.specs.Fmt.{decimal};
ghost use Rattle.feed_text.specs.FeedText.{HasHead};

use crate::limits::PLACE_END;
use memchr::memchr;

/// What a feed line begins with, and what follows it.
#[derive(Clone, Copy)]
pub struct FeedHead<'a> {
    /// The number of the shard, from 0.
    pub shard: u64,
    /// The record's index in the shard's journal.
    pub place: u64,
    /// What follows: the record's line, if it is one.
    pub rest: &'a [u8],
}

/// Parses the numbers that a line begins with: a shard and an index, in shortest decimals and each followed by a space.
/// It reads nothing of what follows them.
pub fn read_head(line: &[u8]) -> Option<FeedHead<'_>>
    ensures { MatchOption result ((shard place : ℕ) (rest : List ℕ) → HasHead line.now shard place rest → ⊥)
        (λ head. HasHead line.now head.shard head.place head.rest.now) }
{
    let (shard, left) = next_number(line)?;
    let (place, rest) = next_number(left)?;
    if place >= PLACE_END {
        return None;
    }
    Some(FeedHead { shard, place, rest })
}

/// The number before the line's first space, and what follows that space.
fn next_number(line: &[u8]) -> Option<(u64, &[u8])>
    ensures { MatchOption result
        ((number : ℕ) (rest : List ℕ) → number < 2 ^ 64 → line.now ≢ decimal number ++ 32 ∷ rest)
        (λ found. line.now ≡ decimal found.0 ++ 32 ∷ found.1.now) }
{
    let end = memchr(b' ', line)?;
    let number = number_of(&line[..end])?;
    Some((number, &line[end + 1..]))
}

/// The number that a word says in decimal digits, without a sign or a leading zero.
fn number_of(word: &[u8]) -> Option<u64>
    ensures { MatchOption result ((number : ℕ) → number < 2 ^ 64 → word.now ≢ decimal number)
        (λ number. word.now ≡ decimal number) }
{
    if word.is_empty() {
        return None;
    }
    if has_leading_zero(word) {
        return None;
    }
    let mut number = 0;
    for byte in word {
        match with_digit(number, *byte) {
            Some(more) => number = more,
            None => return None,
        }
    }
    Some(number)
}

/// Whether a word begins with a zero, and has more bytes.
fn has_leading_zero(word: &[u8]) -> bool
    requires { 0 < length word.now }
    ensures { IsTrue result ↔ ((slice_index word.now 0 ≡ 48) × (1 < length word.now)) }
{
    word[0] == b'0' && word.len() > 1
}

/// The number that has one more digit; `None` if the byte is no decimal digit, or the number is too large.
fn with_digit(number: u64, byte: u8) -> Option<u64>
    ensures { MatchOption result (digit_value byte < 10 → 2 ^ 64 ≤ number * 10 + digit_value byte)
        (λ more. (digit_value byte < 10) × (more ≡ number * 10 + digit_value byte)) }
{
    if !byte.is_ascii_digit() {
        return None;
    }
    let tens = number.checked_mul(10)?;
    tens.checked_add(u64::from(byte - b'0'))
}
