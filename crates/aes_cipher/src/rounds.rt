//! The state of AES as its columns, and the rounds on it.

ghost use Rattle.std.specs.Prelude.{◌≡◌, ◌+◌, ◌≤◌, length, map, take, drop};
ghost use Rattle.aes_cipher.specs.Cipher.{xor_bytes, sub_bytes, mix_column, round, last_round, ciphered};
ghost use Rattle.aes_cipher.specs.Columns.{word_bytes, diagonal, state_bytes};

use crate::tables::{COLUMNS, UNMIXED};

/// A state, or a round key, as its four columns. A column's byte in the first row is the highest byte of its word.
#[derive(Clone, Copy)]
pub(crate) struct Columns {
    pub(crate) first: u32,
    pub(crate) second: u32,
    pub(crate) third: u32,
    pub(crate) fourth: u32,
}

/// The four bytes at offset `at` as a word, big-endian.
#[inline(always)]
fn word_at(text: &[u8], at: usize) -> u32
    requires { at + 4 ≤ length text.now }
    ensures { word_bytes result ≡ take 4 (drop at text.now) }
{
    u32::from_be_bytes([text[at], text[at + 1], text[at + 2], text[at + 3]])
}

impl Columns {
    /// The state of the block of sixteen bytes at offset `at`.
    #[inline(always)]
    pub(crate) fn at(text: &[u8], at: usize) -> Columns
        requires { at + 16 ≤ length text.now }
        ensures { state_bytes result ≡ take 16 (drop at text.now) }
    {
        Columns {
            first: word_at(text, at),
            second: word_at(text, at + 4),
            third: word_at(text, at + 8),
            fourth: word_at(text, at + 12),
        }
    }

    /// The state of a block.
    #[inline]
    pub(crate) fn new(block: &[u8; 16]) -> Columns
        ensures { state_bytes result ≡ block.now }
    {
        Columns::at(block, 0)
    }

    /// The block of a state.
    #[inline]
    pub(crate) fn bytes(&self) -> [u8; 16]
        ensures { result ≡ state_bytes self.now }
    {
        let [a, b, c, d] = self.first.to_be_bytes();
        let [e, f, g, h] = self.second.to_be_bytes();
        let [i, j, k, l] = self.third.to_be_bytes();
        let [m, n, o, p] = self.fourth.to_be_bytes();
        [a, b, c, d, e, f, g, h, i, j, k, l, m, n, o, p]
    }

    /// The xor of the state and another.
    #[inline(always)]
    pub(crate) fn xor(&self, other: &Columns) -> Columns
        ensures { state_bytes result ≡ xor_bytes (state_bytes self.now) (state_bytes other.now) }
    {
        Columns {
            first: self.first ^ other.first,
            second: self.second ^ other.second,
            third: self.third ^ other.third,
            fourth: self.fourth ^ other.fourth,
        }
    }
}

/// The column of a mixed state whose bytes before the substitution are in these columns, one row in each.
///
/// The last row is looked up first: in this order the compiler needs the fewest registers.
#[inline(always)]
fn mixed_column(a: u32, b: u32, c: u32, d: u32) -> u32
    ensures { word_bytes result ≡ mix_column (sub_bytes (diagonal a b c d)) }
{
    COLUMNS[3][(d & 255) as usize]
        ^ COLUMNS[2][(c >> 8 & 255) as usize]
        ^ COLUMNS[1][(b >> 16 & 255) as usize]
        ^ COLUMNS[0][(a >> 24) as usize]
}

/// The column of a state whose rows were rotated, but not mixed.
#[inline(always)]
fn substituted_column(a: u32, b: u32, c: u32, d: u32) -> u32
    ensures { word_bytes result ≡ sub_bytes (diagonal a b c d) }
{
    UNMIXED[3][(d & 255) as usize]
        ^ UNMIXED[2][(c >> 8 & 255) as usize]
        ^ UNMIXED[1][(b >> 16 & 255) as usize]
        ^ UNMIXED[0][(a >> 24) as usize]
}

/// A round.
#[inline(always)]
fn round(state: &Columns, key: &Columns) -> Columns
    ensures { state_bytes result ≡ round (state_bytes state.now) (state_bytes key.now) }
{
    Columns {
        first: key.first ^ mixed_column(state.first, state.second, state.third, state.fourth),
        second: key.second ^ mixed_column(state.second, state.third, state.fourth, state.first),
        third: key.third ^ mixed_column(state.third, state.fourth, state.first, state.second),
        fourth: key.fourth ^ mixed_column(state.fourth, state.first, state.second, state.third),
    }
}

/// The last round, which does not mix the columns.
#[inline(always)]
fn last_round(state: &Columns, key: &Columns) -> Columns
    ensures { state_bytes result ≡ last_round (state_bytes state.now) (state_bytes key.now) }
{
    Columns {
        first: key.first ^ substituted_column(state.first, state.second, state.third, state.fourth),
        second: key.second
            ^ substituted_column(state.second, state.third, state.fourth, state.first),
        third: key.third ^ substituted_column(state.third, state.fourth, state.first, state.second),
        fourth: key.fourth
            ^ substituted_column(state.fourth, state.first, state.second, state.third),
    }
}

/// The state after the ten rounds.
pub(crate) fn enciphered(keys: &[Columns; 11], block: &Columns) -> Columns
    ensures { state_bytes result ≡ ciphered (map state_bytes keys.now) (state_bytes block.now) }
{
    let start = block.xor(&keys[0]);
    let first = round(&start, &keys[1]);
    let second = round(&first, &keys[2]);
    let third = round(&second, &keys[3]);
    let fourth = round(&third, &keys[4]);
    let fifth = round(&fourth, &keys[5]);
    let sixth = round(&fifth, &keys[6]);
    let seventh = round(&sixth, &keys[7]);
    let eighth = round(&seventh, &keys[8]);
    let ninth = round(&eighth, &keys[9]);
    last_round(&ninth, &keys[10])
}
