//! The round keys of a key.

ghost use Rattle.std.specs.Prelude.{◌≡◌, ◌++◌, take, drop, map};
ghost use Rattle.aes_cipher.specs.Cipher.{xor_bytes, sub_bytes, round_keys};
ghost use Rattle.aes_cipher.specs.Columns.{word_bytes, state_bytes};

use crate::rounds::Columns;
use crate::tables::{BOX, ROUND_CONSTANTS};

/// A word whose bytes are rotated left by one byte and substituted.
#[inline]
fn rotated_and_substituted(word: u32) -> u32
    ensures { word_bytes result ≡ sub_bytes (drop 1 (word_bytes word) ++ take 1 (word_bytes word)) }
{
    let [a, b, c, d] = word.to_be_bytes();
    u32::from_be_bytes([
        BOX[b as usize],
        BOX[c as usize],
        BOX[d as usize],
        BOX[a as usize],
    ])
}

/// The round key after this one.
#[inline]
fn next_key(key: &Columns, constant: u32) -> Columns
    ensures first { word_bytes result.first ≡ xor_bytes (word_bytes key.now.first)
        (xor_bytes (sub_bytes (drop 1 (word_bytes key.now.fourth) ++ take 1 (word_bytes key.now.fourth)))
        (word_bytes constant)) }
    ensures second { word_bytes result.second ≡ xor_bytes (word_bytes key.now.second) (word_bytes result.first) }
    ensures third { word_bytes result.third ≡ xor_bytes (word_bytes key.now.third) (word_bytes result.second) }
    ensures fourth { word_bytes result.fourth ≡ xor_bytes (word_bytes key.now.fourth) (word_bytes result.third) }
{
    let first = key.first ^ (rotated_and_substituted(key.fourth) ^ constant);
    let second = key.second ^ first;
    let third = key.third ^ second;
    let fourth = key.fourth ^ third;
    Columns {
        first,
        second,
        third,
        fourth,
    }
}

/// The eleven round keys of a key, the first of which is the key.
pub(crate) fn round_keys(key: &Columns) -> [Columns; 11]
    ensures { map state_bytes result ≡ round_keys (state_bytes key.now) }
{
    let mut keys = [*key; 11];
    let mut last = *key;
    for i in 0..10 {
        last = next_key(&last, ROUND_CONSTANTS[i]);
        keys[i + 1] = last;
    }
    keys
}
