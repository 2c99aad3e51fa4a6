//! A block as its halves after IP, which are the input of the rounds.

ghost use Rattle.std.specs.Prelude.{◌≡◌, bit_xor};
ghost use Rattle.des_block.specs.Permuted.{permuted_word};

use crate::rounds::{joined, split};
use std::marker::Model;

/// A block as its halves after IP, which are the input of the rounds. A chain of ciphers needs neither IP nor its
/// inverse between two of them.
///
/// A contract sees the block as a big-endian number.
#[derive(Drop)]
pub struct PermutedBlock {
    pub(crate) left: u32,
    pub(crate) right: u32,
}

impl Model for PermutedBlock {
    ghost use Rattle.std.specs.Prelude.{ℕ};
    ghost use Rattle.des_block.specs.Permuted.{permuted_word};

    ghost Value = { ℕ };

    ghost view = { λ block. permuted_word block.left block.right };
}

impl PermutedBlock {
    /// The block that is this big-endian number.
    pub fn new(word: u64) -> PermutedBlock
        ensures { result ≡ word }
    {
        let (left, right) = split(word);
        PermutedBlock { left, right }
    }

    /// The block as a big-endian number.
    pub fn word(&self) -> u64
        ensures { result ≡ self.now }
    {
        joined(self.left, self.right)
    }

    /// The xor of the block and another.
    pub fn xor(&self, other: &PermutedBlock) -> PermutedBlock
        ensures { result ≡ bit_xor self.now other.now }
    {
        PermutedBlock {
            left: self.left ^ other.left,
            right: self.right ^ other.right,
        }
    }

    /// The block whose halves these are after the last round, which does not exchange them.
    #[inline]
    pub(crate) fn after_rounds(left: u32, right: u32) -> PermutedBlock
        ensures { result ≡ permuted_word right left }
    {
        PermutedBlock {
            left: right,
            right: left,
        }
    }
}
