//! The blocks of a text as words, and the MAC's chain over them.

ghost use Rattle.std.specs.Prelude.{◌≡◌, ℕ, ◌+◌, ◌-◌, ◌/◌, ◌*◌, ◌<◌, ◌≤◌, List, ◌∷◌, ◌++◌, length, take, drop, replicate, fold};
ghost use Rattle.des_block.specs.Cipher.{word_bytes, tdes_encipher};
ghost use Rattle.des_block.specs.Keyed.{HasKey, HasKeyPair};
ghost use Rattle.retail_mac.specs.Mac.{blocks, xor_bytes, chained};

use des_block::{Des, PermutedBlock, Tdes};

/// The block of eight bytes at offset `at`, as a big-endian number.
#[inline]
pub(crate) fn word_at(text: &[u8], at: usize) -> u64
    requires { at + 8 ≤ length text.now }
    ensures { word_bytes result ≡ take 8 (drop at text.now) }
{
    u64::from_be_bytes([
        text[at],
        text[at + 1],
        text[at + 2],
        text[at + 3],
        text[at + 4],
        text[at + 5],
        text[at + 6],
        text[at + 7],
    ])
}

/// The last block of the padded text, from the bytes that remain after the whole blocks.
#[inline]
pub(crate) fn last_word(rest: &[u8]) -> u64
    requires { length rest.now < 8 }
    ensures { word_bytes result ≡ rest.now ++ 0x80 ∷ replicate (7 - length rest.now) 0 }
{
    let mut block = [0; 8];
    block[..rest.len()].copy_from_slice(rest);
    block[rest.len()] = 0x80;
    u64::from_be_bytes(block)
}

/// Extends the chain over the whole blocks of a text.
#[inline]
pub(crate) fn chained(cipher: &Des, chain: &mut PermutedBlock, text: &[u8])
    ensures { (key : List ℕ) → HasKey cipher.now key
        → word_bytes chain.new ≡ fold (chained key) (word_bytes chain.old) (blocks (length text.now / 8) text.now) }
{
    for i in 0..text.len() / 8 {
        let block = PermutedBlock::new(word_at(text, 8 * i));
        *chain = cipher.encipher_permuted(&chain.xor(&block));
    }
}

/// The MAC that ends a chain, from the bytes that remain after the text's whole blocks.
#[inline]
pub(crate) fn ended(cipher: &Tdes, chain: &PermutedBlock, rest: &[u8]) -> [u8; 8]
    requires { length rest.now < 8 }
    ensures { (key : List ℕ) → HasKeyPair cipher.now key
        → result ≡ tdes_encipher key (xor_bytes (word_bytes chain.now)
        (rest.now ++ 0x80 ∷ replicate (7 - length rest.now) 0)) }
{
    // The last step of the chain and the two ciphers after it are triple DES.
    let last = PermutedBlock::new(last_word(rest));
    let mac = cipher.encipher_permuted(&chain.xor(&last));
    mac.word().to_be_bytes()
}
