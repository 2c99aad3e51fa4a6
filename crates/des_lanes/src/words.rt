//! Blocks, halves of keys and padded texts as one word for each lane.

ghost use Rattle.std.specs.Prelude.{◌≡◌, ℕ, ◌+◌, ◌*◌, ◌/◌, ◌<◌, ◌≤◌, [], length, map, take, drop, slice_index, slice_index_or};
ghost use Rattle.des_block.specs.Cipher.{word_bytes};
ghost use Rattle.des_lanes.specs.Lanes.{key_at};
ghost use Rattle.retail_mac.specs.Mac.{padded};

use arrayvec::ArrayVec;
use des_block::Key16;

/// A block as a big-endian number.
fn word_from(block: [u8; 8]) -> u64
    ensures { word_bytes result ≡ block }
{
    u64::from_be_bytes(block)
}

/// The word of each block.
pub(crate) fn words_of(blocks: &[[u8; 8]]) -> [u64; 128]
    requires { length blocks.now ≤ 128 }
    ensures { (lane : ℕ) → lane < length blocks.now
        → word_bytes (slice_index result lane) ≡ slice_index_or blocks.now lane [] }
{
    let mut words = [0; 128];
    for (lane, block) in blocks.iter().enumerate() {
        words[lane] = word_from(*block);
    }
    words
}

/// The words of the left and the right half of each key.
pub(crate) fn half_words(keys: &[Key16]) -> ([u64; 128], [u64; 128])
    requires { length keys.now ≤ 128 }
    ensures left { (lane : ℕ) → lane < length keys.now
        → word_bytes (slice_index result.0 lane) ≡ take 8 (key_at keys.now lane) }
    ensures right { (lane : ℕ) → lane < length keys.now
        → word_bytes (slice_index result.1 lane) ≡ drop 8 (key_at keys.now lane) }
{
    let mut left = [0; 128];
    let mut right = [0; 128];
    for (lane, key) in keys.iter().enumerate() {
        left[lane] = word_from(key.left_half());
        right[lane] = word_from(key.right_half());
    }
    (left, right)
}

/// The word of block `i` of a padded text.
fn padded_word(text: &[u8], i: usize) -> u64
    requires { i ≤ length text.now / 8 }
    ensures { word_bytes result ≡ take 8 (drop (8 * i) (padded text.now)) }
{
    let rest = &text[8 * i..];
    let mut block = [0; 8];
    if rest.len() < 8 {
        block[..rest.len()].copy_from_slice(rest);
        block[rest.len()] = 0x80;
        return u64::from_be_bytes(block);
    }
    block.copy_from_slice(&rest[..8]);
    u64::from_be_bytes(block)
}

/// The same of a text of `N` bytes.
fn block_word<const N: usize>(text: &[u8; N], i: usize) -> u64
    requires { i ≤ N / 8 }
    ensures block { word_bytes result ≡ take 8 (drop (8 * i) (padded text.now)) }
    ensures sized { length text.now ≡ N }
{
    padded_word(text, i)
}

/// The word of block `i` of each padded text.
pub(crate) fn block_words<const N: usize>(texts: &[[u8; N]], i: usize) -> [u64; 128]
    requires few { length texts.now ≤ 128 }
    requires within { i ≤ N / 8 }
    ensures block { (lane : ℕ) → lane < length texts.now
        → word_bytes (slice_index result lane) ≡ take 8 (drop (8 * i) (padded (slice_index_or texts.now lane []))) }
    ensures sized { (lane : ℕ) → lane < length texts.now → length (slice_index_or texts.now lane []) ≡ N }
{
    let mut words = [0; 128];
    for (lane, text) in texts.iter().enumerate() {
        words[lane] = block_word(text, i);
    }
    words
}

/// The bytes of the first `count` words.
pub(crate) fn bytes_of(words: &[u64; 128], count: usize) -> ArrayVec<[u8; 8], 128>
    requires { count ≤ 128 }
    ensures { result.items ≡ map word_bytes (take count words.now) }
{
    let mut out = ArrayVec::new();
    for word in &words[..count] {
        out.push(word.to_be_bytes());
    }
    out
}
