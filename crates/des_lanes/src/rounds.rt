//! The rounds of DES (FIPS 46-3) in lanes, under a key for each lane.

ghost use Rattle.std.specs.Prelude.{◌≡◌, ℕ, ◌+◌, ◌*◌, ◌<◌, [], ◌∷◌, map, take, drop, ◌++◌, slice_index_or, bit_and, bit_xor, All};
ghost use Rattle.des_block.specs.Bits.{picked, xor_bits};
ghost use Rattle.des_block.specs.Tables.{expansion, inverse_permutation};
ghost use Rattle.des_block.specs.Cipher.{substituted, cipher_function, ciphered, word_bytes, des_encipher, des_decipher};
ghost use Rattle.des_lanes.specs.Lanes.{lane_bit, lane_bits, lane_word, bits_at, with_outputs};
ghost use mathlib.Core.Bool.{xor};

use crate::boxes::{box_1, box_2, box_3, box_4, box_5, box_6, box_7, box_8};
use std::simd::prelude::*;

/// The bits of a block that IP puts into the left half. This table and those below number bits from 0.
const LEFT_PLACES: [u8; 32] = [
    57, 49, 41, 33, 25, 17, 9, 1, 59, 51, 43, 35, 27, 19, 11, 3, 61, 53, 45, 37, 29, 21, 13, 5, 63,
    55, 47, 39, 31, 23, 15, 7,
];

/// The bits of a block that IP puts into the right half.
const RIGHT_PLACES: [u8; 32] = [
    56, 48, 40, 32, 24, 16, 8, 0, 58, 50, 42, 34, 26, 18, 10, 2, 60, 52, 44, 36, 28, 20, 12, 4, 62,
    54, 46, 38, 30, 22, 14, 6,
];

/// The inverse of IP: its bits are of the second half and of the first by turns, at these places.
const HALF_PLACES: [u8; 32] = [
    7, 15, 23, 31, 6, 14, 22, 30, 5, 13, 21, 29, 4, 12, 20, 28, 3, 11, 19, 27, 2, 10, 18, 26, 1, 9,
    17, 25, 0, 8, 16, 24,
];

/// Where P puts the outputs of the boxes.
const OUTPUT_PLACES: [u8; 32] = [
    8, 16, 22, 30, 12, 27, 1, 17, 23, 15, 29, 5, 25, 19, 9, 0, 7, 13, 24, 2, 3, 28, 10, 18, 31, 11,
    21, 6, 4, 26, 14, 20,
];

/// The bits of a key in each round key: by PC-1, the rotations and PC-2.
const KEY_PLACES: [[u8; 48]; 16] = [
    [
        9, 50, 33, 59, 48, 16, 32, 56, 1, 8, 18, 41, 2, 34, 25, 24, 43, 57, 58, 0, 35, 26, 17, 40,
        21, 27, 38, 53, 36, 3, 46, 29, 4, 52, 22, 28, 60, 20, 37, 62, 14, 19, 44, 13, 12, 61, 54,
        30,
    ],
    [
        1, 42, 25, 51, 40, 8, 24, 48, 58, 0, 10, 33, 59, 26, 17, 16, 35, 49, 50, 57, 56, 18, 9, 32,
        13, 19, 30, 45, 28, 62, 38, 21, 27, 44, 14, 20, 52, 12, 29, 54, 6, 11, 36, 5, 4, 53, 46,
        22,
    ],
    [
        50, 26, 9, 35, 24, 57, 8, 32, 42, 49, 59, 17, 43, 10, 1, 0, 48, 33, 34, 41, 40, 2, 58, 16,
        60, 3, 14, 29, 12, 46, 22, 5, 11, 28, 61, 4, 36, 27, 13, 38, 53, 62, 20, 52, 19, 37, 30, 6,
    ],
    [
        34, 10, 58, 48, 8, 41, 57, 16, 26, 33, 43, 1, 56, 59, 50, 49, 32, 17, 18, 25, 24, 51, 42,
        0, 44, 54, 61, 13, 27, 30, 6, 52, 62, 12, 45, 19, 20, 11, 60, 22, 37, 46, 4, 36, 3, 21, 14,
        53,
    ],
    [
        18, 59, 42, 32, 57, 25, 41, 0, 10, 17, 56, 50, 40, 43, 34, 33, 16, 1, 2, 9, 8, 35, 26, 49,
        28, 38, 45, 60, 11, 14, 53, 36, 46, 27, 29, 3, 4, 62, 44, 6, 21, 30, 19, 20, 54, 5, 61, 37,
    ],
    [
        2, 43, 26, 16, 41, 9, 25, 49, 59, 1, 40, 34, 24, 56, 18, 17, 0, 50, 51, 58, 57, 48, 10, 33,
        12, 22, 29, 44, 62, 61, 37, 20, 30, 11, 13, 54, 19, 46, 28, 53, 5, 14, 3, 4, 38, 52, 45,
        21,
    ],
    [
        51, 56, 10, 0, 25, 58, 9, 33, 43, 50, 24, 18, 8, 40, 2, 1, 49, 34, 35, 42, 41, 32, 59, 17,
        27, 6, 13, 28, 46, 45, 21, 4, 14, 62, 60, 38, 3, 30, 12, 37, 52, 61, 54, 19, 22, 36, 29, 5,
    ],
    [
        35, 40, 59, 49, 9, 42, 58, 17, 56, 34, 8, 2, 57, 24, 51, 50, 33, 18, 48, 26, 25, 16, 43, 1,
        11, 53, 60, 12, 30, 29, 5, 19, 61, 46, 44, 22, 54, 14, 27, 21, 36, 45, 38, 3, 6, 20, 13,
        52,
    ],
    [
        56, 32, 51, 41, 1, 34, 50, 9, 48, 26, 0, 59, 49, 16, 43, 42, 25, 10, 40, 18, 17, 8, 35, 58,
        3, 45, 52, 4, 22, 21, 60, 11, 53, 38, 36, 14, 46, 6, 19, 13, 28, 37, 30, 62, 61, 12, 5, 44,
    ],
    [
        40, 16, 35, 25, 50, 18, 34, 58, 32, 10, 49, 43, 33, 0, 56, 26, 9, 59, 24, 2, 1, 57, 48, 42,
        54, 29, 36, 19, 6, 5, 44, 62, 37, 22, 20, 61, 30, 53, 3, 60, 12, 21, 14, 46, 45, 27, 52,
        28,
    ],
    [
        24, 0, 48, 9, 34, 2, 18, 42, 16, 59, 33, 56, 17, 49, 40, 10, 58, 43, 8, 51, 50, 41, 32, 26,
        38, 13, 20, 3, 53, 52, 28, 46, 21, 6, 4, 45, 14, 37, 54, 44, 27, 5, 61, 30, 29, 11, 36, 12,
    ],
    [
        8, 49, 32, 58, 18, 51, 2, 26, 0, 43, 17, 40, 1, 33, 24, 59, 42, 56, 57, 35, 34, 25, 16, 10,
        22, 60, 4, 54, 37, 36, 12, 30, 5, 53, 19, 29, 61, 21, 38, 28, 11, 52, 45, 14, 13, 62, 20,
        27,
    ],
    [
        57, 33, 16, 42, 2, 35, 51, 10, 49, 56, 1, 24, 50, 17, 8, 43, 26, 40, 41, 48, 18, 9, 0, 59,
        6, 44, 19, 38, 21, 20, 27, 14, 52, 37, 3, 13, 45, 5, 22, 12, 62, 36, 29, 61, 60, 46, 4, 11,
    ],
    [
        41, 17, 0, 26, 51, 48, 35, 59, 33, 40, 50, 8, 34, 1, 57, 56, 10, 24, 25, 32, 2, 58, 49, 43,
        53, 28, 3, 22, 5, 4, 11, 61, 36, 21, 54, 60, 29, 52, 6, 27, 46, 20, 13, 45, 44, 30, 19, 62,
    ],
    [
        25, 1, 49, 10, 35, 32, 48, 43, 17, 24, 34, 57, 18, 50, 41, 40, 59, 8, 9, 16, 51, 42, 33,
        56, 37, 12, 54, 6, 52, 19, 62, 45, 20, 5, 38, 44, 13, 36, 53, 11, 30, 4, 60, 29, 28, 14, 3,
        46,
    ],
    [
        17, 58, 41, 2, 56, 24, 40, 35, 9, 16, 26, 49, 10, 42, 33, 32, 51, 0, 1, 8, 43, 34, 25, 48,
        29, 4, 46, 61, 44, 11, 54, 37, 12, 60, 30, 36, 5, 28, 45, 3, 22, 27, 52, 21, 20, 6, 62, 38,
    ],
];

/// The pairs at these places.
#[inline(always)]
fn half(places: &[u8; 32], block: &[u64x2; 64]) -> [u64x2; 32]
    ensures { (lane : ℕ) → lane_bits lane result ≡ bits_at places.now (lane_bits lane block.now) }
{
    let mut out = [u64x2::splat(0); 32];
    for (i, place) in places.iter().enumerate() {
        out[i] = block[(place & 63) as usize];
    }
    out
}

/// Makes a block of two halves by the inverse of IP.
fn put_back(block: &mut [u64x2; 64], first: &[u64x2; 32], second: &[u64x2; 32])
    ensures { (lane : ℕ) → lane_bits lane block.new
        ≡ picked inverse_permutation (lane_bits lane first.now ++ lane_bits lane second.now) }
{
    for i in 0..32 {
        let place = (HALF_PLACES[i] & 31) as usize;
        block[2 * i] = second[place];
        block[2 * i + 1] = first[place];
    }
}

/// The xor of two pairs.
#[inline]
fn xored(a: u64x2, b: u64x2) -> u64x2
    ensures { (lane : ℕ) → lane_bit lane result ≡ xor (lane_bit lane a) (lane_bit lane b) }
{
    a ^ b
}

/// Xors a block into that of each lane.
pub(crate) fn xor_into(block: &mut [u64x2; 64], other: &[u64x2; 64])
    ensures { (lane : ℕ) → lane_word lane block.new ≡ bit_xor (lane_word lane block.old) (lane_word lane other.now) }
{
    for i in 0..64 {
        block[i] = xored(block[i], other[i]);
    }
}

/// A pair xored with that of the key at a place.
#[inline(always)]
fn keyed(pair: u64x2, keys: &[u64x2; 64], place: u8) -> u64x2
    requires { place < 64 }
    ensures { (lane : ℕ) → lane_bit lane result
        ≡ xor (lane_bit lane pair) (lane_bit lane (slice_index_or keys.now (bit_and place 63) [])) }
{
    xored(pair, keys[place as usize])
}

/// The inputs of box `i`: six pairs of E of the right half, xored with the round key at these places.
#[inline(always)]
fn inputs(
    right: &[u64x2; 32],
    keys: &[u64x2; 64],
    places: &[u8; 48],
    i: usize,
) -> (u64x2, u64x2, u64x2, u64x2, u64x2, u64x2)
    requires within { i < 8 }
    requires places { All (λ place. place < 64) places.now }
    ensures { (lane : ℕ) → lane_bits lane (result.0 ∷ result.1 ∷ result.2 ∷ result.3 ∷ result.4 ∷ result.5 ∷ [])
        ≡ take 6 (drop (6 * i) (xor_bits (picked expansion (lane_bits lane right.now))
        (bits_at places.now (lane_bits lane keys.now)))) }
{
    let first = 4 * i;
    let place = 6 * i;
    (
        keyed(right[(first + 31) % 32], keys, places[place]),
        keyed(right[first], keys, places[place + 1]),
        keyed(right[first + 1], keys, places[place + 2]),
        keyed(right[first + 2], keys, places[place + 3]),
        keyed(right[first + 3], keys, places[place + 4]),
        keyed(right[(first + 4) % 32], keys, places[place + 5]),
    )
}

/// Xors the outputs of box `i` into a half, each where P puts it.
#[inline(always)]
fn add(half: &mut [u64x2; 32], i: usize, outputs: (u64x2, u64x2, u64x2, u64x2))
    requires { i < 8 }
    ensures { (lane : ℕ) → lane_bits lane half.new ≡ with_outputs i
        (lane_bits lane (outputs.0 ∷ outputs.1 ∷ outputs.2 ∷ outputs.3 ∷ [])) (lane_bits lane half.old) }
{
    let first = (OUTPUT_PLACES[4 * i] & 31) as usize;
    let second = (OUTPUT_PLACES[4 * i + 1] & 31) as usize;
    let third = (OUTPUT_PLACES[4 * i + 2] & 31) as usize;
    let fourth = (OUTPUT_PLACES[4 * i + 3] & 31) as usize;
    let a = xored(half[first], outputs.0);
    let b = xored(half[second], outputs.1);
    let c = xored(half[third], outputs.2);
    let d = xored(half[fourth], outputs.3);
    half[first] = a;
    half[second] = b;
    half[third] = c;
    half[fourth] = d;
}

/// A round: xors the cipher function of the right half and the round key at these places into the left half.
#[inline(never)]
fn mix(left: &mut [u64x2; 32], right: &[u64x2; 32], keys: &[u64x2; 64], places: &[u8; 48])
    requires { All (λ place. place < 64) places.now }
    ensures { (lane : ℕ) → lane_bits lane left.new
        ≡ xor_bits (lane_bits lane left.old) (cipher_function (lane_bits lane right.now)
        (bits_at places.now (lane_bits lane keys.now))) }
{
    let six = inputs(right, keys, places, 0);
    add(left, 0, box_1(six.0, six.1, six.2, six.3, six.4, six.5));
    let six = inputs(right, keys, places, 1);
    add(left, 1, box_2(six.0, six.1, six.2, six.3, six.4, six.5));
    let six = inputs(right, keys, places, 2);
    add(left, 2, box_3(six.0, six.1, six.2, six.3, six.4, six.5));
    let six = inputs(right, keys, places, 3);
    add(left, 3, box_4(six.0, six.1, six.2, six.3, six.4, six.5));
    let six = inputs(right, keys, places, 4);
    add(left, 4, box_5(six.0, six.1, six.2, six.3, six.4, six.5));
    let six = inputs(right, keys, places, 5);
    add(left, 5, box_6(six.0, six.1, six.2, six.3, six.4, six.5));
    let six = inputs(right, keys, places, 6);
    add(left, 6, box_7(six.0, six.1, six.2, six.3, six.4, six.5));
    let six = inputs(right, keys, places, 7);
    add(left, 7, box_8(six.0, six.1, six.2, six.3, six.4, six.5));
}

/// Puts the block of each lane through the sixteen rounds, under the round keys at these places of the keys.
fn cipher(order: &[[u8; 48]; 16], keys: &[u64x2; 64], block: &mut [u64x2; 64])
    requires { All (λ places. All (λ place. place < 64) places) order.now }
    ensures { (lane : ℕ) → lane_bits lane block.new
        ≡ ciphered (map (λ places. bits_at places (lane_bits lane keys.now)) order.now) (lane_bits lane block.old) }
{
    let mut left = half(&LEFT_PLACES, block);
    let mut right = half(&RIGHT_PLACES, block);
    for i in 0..8 {
        mix(&mut left, &right, keys, &order[2 * i]);
        mix(&mut right, &left, keys, &order[2 * i + 1]);
    }
    put_back(block, &right, &left);
}

/// Enciphers the block of each lane under the key of the lane.
pub(crate) fn encipher(keys: &[u64x2; 64], block: &mut [u64x2; 64])
    ensures { (lane : ℕ) → word_bytes (lane_word lane block.new)
        ≡ des_encipher (word_bytes (lane_word lane keys.now)) (word_bytes (lane_word lane block.old)) }
{
    cipher(&KEY_PLACES, keys, block);
}

/// Deciphers the block of each lane under the key of the lane.
pub(crate) fn decipher(keys: &[u64x2; 64], block: &mut [u64x2; 64])
    ensures { (lane : ℕ) → word_bytes (lane_word lane block.new)
        ≡ des_decipher (word_bytes (lane_word lane keys.now)) (word_bytes (lane_word lane block.old)) }
{
    let mut order = KEY_PLACES;
    order.reverse();
    cipher(&order, keys, block);
}
