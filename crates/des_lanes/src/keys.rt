//! A key of triple DES in each lane, and what it does with the block or the text of its lane.

ghost use Rattle.std.specs.Prelude.{◌≡◌, ℕ, ◌<◌, ◌≤◌, [], length, slice_index_or};
ghost use Rattle.des_block.specs.Cipher.{tdes_encipher};
ghost use Rattle.des_lanes.specs.Lanes.{block_in, key_in, key_at};
ghost use Rattle.retail_mac.specs.Mac.{retail_mac};

use crate::blocks::LaneBlocks;
use crate::turning::into_lanes;
use crate::words::{block_words, half_words};
use des_block::Key16;

/// A key of sixteen bytes in each of 128 lanes.
///
/// A contract sees the key of a lane by `key_in`: its two halves.
#[derive(Clone, Copy)]
pub struct LaneKeys {
    /// The first eight bytes of each key.
    pub left: LaneBlocks,

    /// The last eight bytes of each key.
    pub right: LaneBlocks,
}

impl LaneKeys {
    /// Each key in the lane of its index. The other lanes are padding.
    pub fn new(keys: &[Key16]) -> LaneKeys
        requires { length keys.now ≤ 128 }
        ensures { (lane : ℕ) → lane < length keys.now → key_in lane result ≡ key_at keys.now lane }
    {
        let (left, right) = half_words(keys);
        LaneKeys {
            left: LaneBlocks::of(into_lanes(&left)),
            right: LaneBlocks::of(into_lanes(&right)),
        }
    }

    /// Enciphers the block of each lane by triple DES under the key of its lane.
    pub fn encipher(&self, blocks: &mut LaneBlocks)
        ensures { (lane : ℕ) → block_in lane blocks.new
            ≡ tdes_encipher (key_in lane self.now) (block_in lane blocks.old) }
    {
        blocks.encipher(&self.left);
        blocks.decipher(&self.right);
        blocks.encipher(&self.left);
    }

    /// The MAC of each text under the key of its lane. The texts have one length.
    pub fn macs<const N: usize>(&self, texts: &[[u8; N]]) -> LaneBlocks
        requires { length texts.now ≤ 128 }
        ensures { (lane : ℕ) → lane < length texts.now
            → block_in lane result ≡ retail_mac (key_in lane self.now) (slice_index_or texts.now lane []) }
    {
        let mut chain = LaneBlocks::zero();
        for i in 0..N / 8 {
            chain.xor(&block_words(texts, i));
            chain.encipher(&self.left);
        }
        // The last step of the chain and the two ciphers after it are triple DES.
        chain.xor(&block_words(texts, N / 8));
        self.encipher(&mut chain);
        chain
    }
}
