//! 128 words turned into lanes, and back.

ghost use Rattle.std.specs.Prelude.{◌≡◌, ℕ, ◌+◌, ◌-◌, ◌%◌, ◌*◌, ◌/◌, ◌^◌, ◌<◌, ◌≤◌, ◌∷◌, [], slice_index, slice_index_or, if◌then◌else◌};
ghost use Rattle.des_lanes.specs.Lanes.{lane_bit, lane_word, digit, with_digit};

use std::simd::prelude::*;

/// The columns whose digit k is 0, the first at the highest bit.
const LOW_COLUMNS: [u64; 6] = [
    0xAAAAAAAAAAAAAAAA,
    0xCCCCCCCCCCCCCCCC,
    0xF0F0F0F0F0F0F0F0,
    0xFF00FF00FF00FF00,
    0xFFFF0000FFFF0000,
    0xFFFFFFFF00000000,
];

/// Of each bit the one of `a` where the mask has a 1, and that of `b` elsewhere.
#[inline]
fn chosen(mask: u64x2, a: u64x2, b: u64x2) -> u64x2
    ensures { (lane : ℕ) → lane_bit lane result ≡ (if lane_bit lane mask then lane_bit lane a else lane_bit lane b) }
{
    (a & mask) | (b & !mask)
}

/// Each column moved by `n` to the right.
#[inline]
fn moved_right(a: u64x2, n: u64) -> u64x2
    requires { n < 64 }
    ensures { (lane : ℕ) → n ≤ lane % 64 → lane_bit lane result ≡ lane_bit (lane - n) a }
{
    a >> u64x2::splat(n)
}

/// Each column moved by `n` to the left.
#[inline]
fn moved_left(a: u64x2, n: u64) -> u64x2
    requires { n < 64 }
    ensures { (lane : ℕ) → lane % 64 + n < 64 → lane_bit lane result ≡ lane_bit (lane + n) a }
{
    a << u64x2::splat(n)
}

/// The first row of a pair of rows that differ in digit k alone. There are 32 pairs.
#[inline(always)]
fn low_row(pair: usize, k: usize) -> usize
    requires pair { pair < 32 }
    requires step { k < 6 }
    ensures row { result ≡ pair + pair / 2 ^ k * 2 ^ k }
    ensures within { result + 2 ^ k < 64 }
{
    pair + ((pair >> k) << k)
}

/// Exchanges the digits k of rows and columns.
#[inline(always)]
fn exchange(rows: &mut [u64x2; 64], k: usize)
    requires { k < 6 }
    ensures { (lane row : ℕ) → row < 64 → lane_bit lane (slice_index_or rows.new row [])
        ≡ lane_bit (with_digit k lane (digit k row)) (slice_index_or rows.old (with_digit k row (digit k lane)) []) }
{
    let width = 1 << k;
    let mask = u64x2::splat(LOW_COLUMNS[k]);
    for pair in 0..32 {
        let i = low_row(pair, k);
        let low = rows[i];
        let high = rows[i + width];
        rows[i] = chosen(mask, low, moved_right(high, width as u64));
        rows[i + width] = chosen(mask, moved_left(low, width as u64), high);
    }
}

/// Turns both squares of 64 rows and 64 columns: row i is column i.
fn turn(rows: &mut [u64x2; 64])
    ensures { (lane row : ℕ) → row < 64 → lane_bit lane (slice_index_or rows.new row [])
        ≡ lane_bit (lane - lane % 64 + row) (slice_index_or rows.old (lane % 64) []) }
{
    for k in 0..6 {
        exchange(rows, k);
    }
}

/// The bits of 128 words, each word in its lane.
pub(crate) fn into_lanes(words: &[u64; 128]) -> [u64x2; 64]
    ensures { (lane : ℕ) → lane < 128 → lane_word lane result ≡ slice_index words.now lane }
{
    let mut rows = [u64x2::splat(0); 64];
    for i in 0..64 {
        rows[i] = u64x2::from_array([words[i], words[64 + i]]);
    }
    turn(&mut rows);
    rows
}

/// Word `i` of a pair.
#[inline]
fn word_of(pair: u64x2, i: usize) -> u64
    requires { i < 2 }
    ensures { result ≡ slice_index pair i }
{
    pair.to_array()[i]
}

/// The words of the lanes.
pub(crate) fn from_lanes(pairs: &[u64x2; 64]) -> [u64; 128]
    ensures { (lane : ℕ) → lane < 128 → slice_index result lane ≡ lane_word lane pairs.now }
{
    let mut rows = *pairs;
    turn(&mut rows);
    let mut words = [0; 128];
    for i in 0..64 {
        words[i] = word_of(rows[i], 0);
        words[64 + i] = word_of(rows[i], 1);
    }
    words
}
