//! DES, two-key triple DES (FIPS 46-3) and the retail MAC (ISO/IEC 9797-1, algorithm 3 with padding method 2) of up to
//! 128 blocks or texts at once, each under a key of its own, in constant time.
//!
//! Bit i of all blocks is in one pair of words, and the S boxes are circuits. There is no lookup by a secret and no
//! branch on one. Fewer than 128 lanes cost as much as 128; the rest are padding, and nothing of them is returned.
#![tactic(auto)]

mod blocks;
mod boxes;
mod keys;
mod rounds;
mod turning;
mod words;

ghost use Rattle.std.specs.Prelude.{◌≡◌, ◌≤◌, length};
ghost use lib.Lanes.{zip2};
ghost use Rattle.des_block.specs.Cipher.{des_encipher, tdes_encipher};
ghost use Rattle.retail_mac.specs.Mac.{retail_mac};

use arrayvec::ArrayVec;
pub use blocks::LaneBlocks;
use des_block::Key16;
pub use keys::LaneKeys;

/// Enciphers each block by DES under its key of eight bytes.
pub fn des_encipher(keys: &[[u8; 8]], blocks: &[[u8; 8]]) -> ArrayVec<[u8; 8], 128>
    requires few { length keys.now ≤ 128 }
    requires paired { length blocks.now ≡ length keys.now }
    ensures { result.items ≡ zip2 des_encipher keys.now blocks.now }
{
    let mut lanes = LaneBlocks::new(blocks);
    lanes.encipher(&LaneBlocks::new(keys));
    lanes.first(keys.len())
}

/// Enciphers each block by triple DES under its key.
pub fn tdes_encipher(keys: &[Key16], blocks: &[[u8; 8]]) -> ArrayVec<[u8; 8], 128>
    requires few { length keys.now ≤ 128 }
    requires paired { length blocks.now ≡ length keys.now }
    ensures { result.items ≡ zip2 (λ key block. tdes_encipher key.0 block) keys.now blocks.now }
{
    let mut lanes = LaneBlocks::new(blocks);
    LaneKeys::new(keys).encipher(&mut lanes);
    lanes.first(keys.len())
}

/// The MAC of each text under its key. The texts have one length.
pub fn macs<const N: usize>(keys: &[Key16], texts: &[[u8; N]]) -> ArrayVec<[u8; 8], 128>
    requires few { length keys.now ≤ 128 }
    requires paired { length texts.now ≡ length keys.now }
    ensures { result.items ≡ zip2 (λ key text. retail_mac key.0 text) keys.now texts.now }
{
    LaneKeys::new(keys).macs(texts).first(keys.len())
}
