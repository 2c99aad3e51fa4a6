//! The sixteen rounds on words, four at a time, with both halves rotated left by one bit.

ghost use Rattle.std.specs.Prelude.{◌≡◌, ℕ, ◌*◌, ◌/◌, ◌%◌, ◌^◌, ◌<◌, ◌++◌, bit_and, bit_xor, map, fold, reverse};
ghost use Rattle.des_block.specs.Bits.{bits, number};
ghost use Rattle.des_block.specs.Cipher.{cipher_function, round, turned};
ghost use Rattle.des_block.specs.Keyed.{key_bits, turned_halves};
ghost use Rattle.des_block.specs.Permuted.{permuted_word};

use crate::boxes::BOXES;
use crate::schedule::RoundKey;

/// P(S(E(R) xor K)), rotated left by one bit, of a half R that is rotated left by one bit.
///
/// So rotated, the inputs of the even boxes are the low six bits of each byte; those of the odd boxes are, after a
/// rotation by four more bits.
#[inline(always)]
fn mixed(half: u32, key: &RoundKey) -> u32
    ensures { result ≡ number (turned 1 (cipher_function (turned 31 (bits 32 half)) (key_bits key.now))) }
{
    let odd = half.rotate_right(4) ^ key.odd;
    let even = half ^ key.even;
    BOXES[0][(odd >> 24) as usize]
        ^ BOXES[1][(even >> 24) as usize]
        ^ BOXES[2][(odd >> 16 & 255) as usize]
        ^ BOXES[3][(even >> 16 & 255) as usize]
        ^ BOXES[4][(odd >> 8 & 255) as usize]
        ^ BOXES[5][(even >> 8 & 255) as usize]
        ^ BOXES[6][(odd & 255) as usize]
        ^ BOXES[7][(even & 255) as usize]
}

/// Exchanges the bits of `b` under `mask` with those of `a` that are `shift` bits higher.
#[inline]
fn exchange(a: u32, b: u32, shift: u32, mask: u32) -> (u32, u32)
    requires { shift < 32 }
    ensures high { result.0 ≡ bit_xor a (bit_and (bit_xor (a / 2 ^ shift) b) mask * 2 ^ shift % 2 ^ 32) }
    ensures low { result.1 ≡ bit_xor b (bit_and (bit_xor (a / 2 ^ shift) b) mask) }
{
    let different = ((a >> shift) ^ b) & mask;
    (a ^ (different << shift), b ^ different)
}

/// The halves of a block after IP.
#[inline]
pub(crate) fn split(block: u64) -> (u32, u32)
    ensures { permuted_word result.0 result.1 ≡ block }
{
    let (a1, b1) = exchange(
        (block >> 32) as u32,
        (block & 0xFFFF_FFFF) as u32,
        4,
        0x0F0F_0F0F,
    );
    let (a2, b2) = exchange(a1, b1, 16, 0x0000_FFFF);
    let (b3, a3) = exchange(b2, a2, 2, 0x3333_3333);
    let (b4, a4) = exchange(b3, a3, 8, 0x00FF_00FF);
    let (a5, b5) = exchange(a4, b4, 1, 0x5555_5555);
    (a5.rotate_left(1), b5.rotate_left(1))
}

/// The block of two halves after IP.
#[inline]
pub(crate) fn joined(left: u32, right: u32) -> u64
    ensures { result ≡ permuted_word left right }
{
    let (a1, b1) = exchange(left.rotate_right(1), right.rotate_right(1), 1, 0x5555_5555);
    let (b2, a2) = exchange(b1, a1, 8, 0x00FF_00FF);
    let (b3, a3) = exchange(b2, a2, 2, 0x3333_3333);
    let (a4, b4) = exchange(a3, b3, 16, 0x0000_FFFF);
    let (a5, b5) = exchange(a4, b4, 4, 0x0F0F_0F0F);
    (a5 as u64) << 32 | b5 as u64
}

/// Two rounds, the second of which exchanges the halves back.
#[inline(always)]
fn two_rounds(first: &RoundKey, second: &RoundKey, halves: (u32, u32)) -> (u32, u32)
    ensures { turned_halves result.0 result.1 ≡ round (round (turned_halves halves.0 halves.1) (key_bits first.now))
        (key_bits second.now) }
{
    let left = halves.0 ^ mixed(halves.1, first);
    let right = halves.1 ^ mixed(left, second);
    (left, right)
}

/// The same two rounds of two blocks side by side, so that their table lookups overlap.
#[inline(always)]
fn two_rounds_of_both(
    first: &RoundKey,
    second: &RoundKey,
    halves: (u32, u32),
    beside: (u32, u32),
) -> ((u32, u32), (u32, u32))
    ensures first { turned_halves result.0.0 result.0.1 ≡ round
        (round (turned_halves halves.0 halves.1) (key_bits first.now)) (key_bits second.now) }
    ensures second { turned_halves result.1.0 result.1.1 ≡ round
        (round (turned_halves beside.0 beside.1) (key_bits first.now)) (key_bits second.now) }
{
    let left = halves.0 ^ mixed(halves.1, first);
    let left_beside = beside.0 ^ mixed(beside.1, first);
    let right = halves.1 ^ mixed(left, second);
    let right_beside = beside.1 ^ mixed(left_beside, second);
    ((left, right), (left_beside, right_beside))
}

/// The sixteen rounds.
#[inline]
pub(crate) fn rounds(keys: &[RoundKey; 16], halves: (u32, u32)) -> (u32, u32)
    ensures { turned_halves result.0 result.1 ≡ fold round (turned_halves halves.0 halves.1) (map key_bits keys.now) }
{
    let mut ready = halves;
    for i in 0..4 {
        let middle = two_rounds(&keys[4 * i], &keys[4 * i + 1], ready);
        ready = two_rounds(&keys[4 * i + 2], &keys[4 * i + 3], middle);
    }
    ready
}

/// The sixteen rounds with the keys in reverse order.
#[inline]
pub(crate) fn rounds_back(keys: &[RoundKey; 16], halves: (u32, u32)) -> (u32, u32)
    ensures { turned_halves result.0 result.1 ≡ fold round (turned_halves halves.0 halves.1)
        (reverse (map key_bits keys.now)) }
{
    let mut ready = halves;
    for i in 0..4 {
        let middle = two_rounds(&keys[15 - 4 * i], &keys[14 - 4 * i], ready);
        ready = two_rounds(&keys[13 - 4 * i], &keys[12 - 4 * i], middle);
    }
    ready
}

/// The sixteen rounds of two blocks side by side.
#[inline]
pub(crate) fn rounds_of_both(
    keys: &[RoundKey; 16],
    first: (u32, u32),
    second: (u32, u32),
) -> ((u32, u32), (u32, u32))
    ensures first { turned_halves result.0.0 result.0.1 ≡ fold round (turned_halves first.0 first.1)
        (map key_bits keys.now) }
    ensures second { turned_halves result.1.0 result.1.1 ≡ fold round (turned_halves second.0 second.1)
        (map key_bits keys.now) }
{
    let mut ready = (first, second);
    for i in 0..4 {
        let middle = two_rounds_of_both(&keys[4 * i], &keys[4 * i + 1], ready.0, ready.1);
        ready = two_rounds_of_both(&keys[4 * i + 2], &keys[4 * i + 3], middle.0, middle.1);
    }
    ready
}

/// The same with the keys in reverse order.
#[inline]
pub(crate) fn rounds_of_both_back(
    keys: &[RoundKey; 16],
    first: (u32, u32),
    second: (u32, u32),
) -> ((u32, u32), (u32, u32))
    ensures first { turned_halves result.0.0 result.0.1 ≡ fold round (turned_halves first.0 first.1)
        (reverse (map key_bits keys.now)) }
    ensures second { turned_halves result.1.0 result.1.1 ≡ fold round (turned_halves second.0 second.1)
        (reverse (map key_bits keys.now)) }
{
    let mut ready = (first, second);
    for i in 0..4 {
        let middle = two_rounds_of_both(&keys[15 - 4 * i], &keys[14 - 4 * i], ready.0, ready.1);
        ready = two_rounds_of_both(&keys[13 - 4 * i], &keys[12 - 4 * i], middle.0, middle.1);
    }
    ready
}
