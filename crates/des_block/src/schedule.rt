//! The round keys on words: the xor of one row for each group of a key's bits.

ghost use Rattle.std.specs.Prelude.{◌≡◌, ℕ, ◌<◌, map};
ghost use Rattle.des_block.specs.Bits.{bits, number, picked};
ghost use Rattle.des_block.specs.Cipher.{round_keys};
ghost use Rattle.des_block.specs.Keyed.{key_bits};
ghost use Rattle.des_block.specs.Schedule.{key_choice};

use crate::key_rows::{HIGH_ROWS, LOW_ROWS};

/// A round key, as the rounds use it: six bits in each byte, for S1, S3, S5, S7 and for S2, S4, S6, S8.
#[derive(Clone, Copy)]
pub(crate) struct RoundKey {
    pub(crate) odd: u32,
    pub(crate) even: u32,
}

/// Word `i` of the round keys of a key: two words for each, in the order of encipherment.
#[inline]
fn key_word(key: u64, i: usize) -> u32
    requires { i < 32 }
    ensures { result ≡ number (picked (key_choice i) (bits 64 key)) }
{
    let mut word = 0;
    for j in 0..8 {
        let byte = key >> (56 - 8 * j) & 255;
        word ^= HIGH_ROWS[j][(byte >> 4) as usize][i] ^ LOW_ROWS[j][(byte >> 1 & 7) as usize][i];
    }
    word
}

/// The sixteen round keys of a key, in the order of encipherment.
pub(crate) fn round_keys(key: u64) -> [RoundKey; 16]
    ensures { map key_bits result ≡ round_keys (bits 64 key) }
{
    let mut keys = [RoundKey { odd: 0, even: 0 }; 16];
    for i in 0..16 {
        keys[i] = RoundKey {
            odd: key_word(key, 2 * i),
            even: key_word(key, 2 * i + 1),
        };
    }
    keys
}
