//! A block in each lane.

ghost use Rattle.std.specs.Prelude.{◌≡◌, ℕ, ◌<◌, ◌≤◌, [], length, map, slice_index, slice_index_or, bit_xor};
ghost use Rattle.std.specs.List.{range_with_len};
ghost use Rattle.des_block.specs.Cipher.{des_encipher, des_decipher};
ghost use Rattle.des_lanes.specs.Lanes.{lane_word, block_in};

use crate::rounds::{self, xor_into};
use crate::turning::{from_lanes, into_lanes};
use crate::words::{bytes_of, words_of};
use arrayvec::ArrayVec;
use std::simd::prelude::*;

/// A value. The checker covers a literal of this struct, and none of a struct with an array of vectors.
#[derive(Clone, Copy)]
struct Held<T>(T);

/// Holds a value.
#[inline(always)]
fn hold<T>(value: T) -> Held<T>
    ensures { result.0 ≡ value }
{
    Held(value)
}

/// A block of eight bytes in each of 128 lanes.
///
/// A contract sees the block of a lane by `block_in`.
#[derive(Clone, Copy)]
pub struct LaneBlocks {
    pairs: Held<[u64x2; 64]>,
}

impl LaneBlocks {
    /// The blocks whose bits are in these pairs.
    #[inline(always)]
    pub(crate) fn of(pairs: [u64x2; 64]) -> LaneBlocks
        ensures { result.pairs.0 ≡ pairs }
    {
        LaneBlocks { pairs: hold(pairs) }
    }

    /// A block of zeros in each lane.
    pub(crate) fn zero() -> LaneBlocks
        ensures { (lane : ℕ) → lane_word lane result.pairs.0 ≡ 0 }
    {
        LaneBlocks::of([u64x2::splat(0); 64])
    }

    /// Xors a word into the block of each lane.
    pub(crate) fn xor(&mut self, words: &[u64; 128])
        ensures { (lane : ℕ) → lane < 128
            → lane_word lane self.new.pairs.0 ≡ bit_xor (lane_word lane self.old.pairs.0) (slice_index words.now lane) }
    {
        xor_into(&mut self.pairs.0, &into_lanes(words));
    }

    /// Each block in the lane of its index. The other lanes are padding.
    pub fn new(blocks: &[[u8; 8]]) -> LaneBlocks
        requires { length blocks.now ≤ 128 }
        ensures { (lane : ℕ) → lane < length blocks.now → block_in lane result ≡ slice_index_or blocks.now lane [] }
    {
        LaneBlocks::of(into_lanes(&words_of(blocks)))
    }

    /// The blocks of the first `count` lanes.
    pub fn first(&self, count: usize) -> ArrayVec<[u8; 8], 128>
        requires { count ≤ 128 }
        ensures { result.items ≡ map (λ lane. block_in lane self.now) (range_with_len 0 count) }
    {
        bytes_of(&from_lanes(&self.pairs.0), count)
    }

    /// Enciphers the block of each lane by DES under the key of eight bytes in its lane.
    pub fn encipher(&mut self, keys: &LaneBlocks)
        ensures { (lane : ℕ) → block_in lane self.new ≡ des_encipher (block_in lane keys.now) (block_in lane self.old) }
    {
        rounds::encipher(&keys.pairs.0, &mut self.pairs.0);
    }

    /// Deciphers the block of each lane by DES under the key of eight bytes in its lane.
    pub fn decipher(&mut self, keys: &LaneBlocks)
        ensures { (lane : ℕ) → block_in lane self.new ≡ des_decipher (block_in lane keys.now) (block_in lane self.old) }
    {
        rounds::decipher(&keys.pairs.0, &mut self.pairs.0);
    }
}
