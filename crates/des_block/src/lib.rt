//! DES and two-key triple DES (FIPS 46-3).
#![tactic(auto)]

mod boxes;
mod key_rows;
mod permuted;
mod rounds;
mod schedule;

ghost use Rattle.std.specs.Prelude.{◌≡◌, ℕ, List, take, drop};
ghost use Rattle.des_block.specs.Cipher.{word_bytes, des_encipher, des_decipher, tdes_encipher, tdes_decipher};
ghost use Rattle.des_block.specs.Keyed.{HasKey, HasKeyPair};

pub use permuted::PermutedBlock;
use rounds::{rounds, rounds_back, rounds_of_both, rounds_of_both_back};
use schedule::{RoundKey, round_keys};

/// A key of sixteen bytes: a left and a right half of eight bytes each.
#[derive(Clone, Copy, PartialEq, Eq, Debug)]
pub struct Key16(pub [u8; 16]);

impl Key16 {
    /// The first eight bytes.
    pub fn left_half(&self) -> [u8; 8]
        ensures { result ≡ take 8 self.now.0 }
    {
        let [a, b, c, d, e, f, g, h, ..] = self.0;
        [a, b, c, d, e, f, g, h]
    }

    /// The last eight bytes.
    pub fn right_half(&self) -> [u8; 8]
        ensures { result ≡ drop 8 self.now.0 }
    {
        let [.., a, b, c, d, e, f, g, h] = self.0;
        [a, b, c, d, e, f, g, h]
    }
}

/// DES under a key of eight bytes, whose parity bits are ignored.
#[derive(Clone, Copy)]
pub struct Des {
    keys: [RoundKey; 16],
}

impl Des {
    /// Computes the round keys of a key.
    pub fn new(key: [u8; 8]) -> Des
        ensures { HasKey result key }
    {
        Des {
            keys: round_keys(u64::from_be_bytes(key)),
        }
    }

    /// Enciphers a block.
    pub fn encipher(&self, block: [u8; 8]) -> [u8; 8]
        ensures enciphered { (key : List ℕ) → HasKey self.now key → result ≡ des_encipher key block }
        ensures undone { (key : List ℕ) → HasKey self.now key → des_decipher key result ≡ block }
    {
        self.encipher_word(u64::from_be_bytes(block)).to_be_bytes()
    }

    /// Deciphers a block.
    pub fn decipher(&self, block: [u8; 8]) -> [u8; 8]
        ensures deciphered { (key : List ℕ) → HasKey self.now key → result ≡ des_decipher key block }
        ensures undone { (key : List ℕ) → HasKey self.now key → des_encipher key result ≡ block }
    {
        self.decipher_word(u64::from_be_bytes(block)).to_be_bytes()
    }

    /// Enciphers a block given as a big-endian number.
    pub fn encipher_word(&self, block: u64) -> u64
        ensures enciphered { (key : List ℕ) → HasKey self.now key
            → word_bytes result ≡ des_encipher key (word_bytes block) }
        ensures undone { (key : List ℕ) → HasKey self.now key
            → des_decipher key (word_bytes result) ≡ word_bytes block }
    {
        self.encipher_permuted(&PermutedBlock::new(block)).word()
    }

    /// Deciphers a block given as a big-endian number.
    pub fn decipher_word(&self, block: u64) -> u64
        ensures deciphered { (key : List ℕ) → HasKey self.now key
            → word_bytes result ≡ des_decipher key (word_bytes block) }
        ensures undone { (key : List ℕ) → HasKey self.now key
            → des_encipher key (word_bytes result) ≡ word_bytes block }
    {
        self.decipher_permuted(&PermutedBlock::new(block)).word()
    }

    /// Enciphers a block given by its halves after IP.
    pub fn encipher_permuted(&self, block: &PermutedBlock) -> PermutedBlock
        ensures { (key : List ℕ) → HasKey self.now key → word_bytes result ≡ des_encipher key (word_bytes block.now) }
    {
        let (left, right) = rounds(&self.keys, (block.left, block.right));
        PermutedBlock::after_rounds(left, right)
    }

    /// Deciphers a block given by its halves after IP.
    pub fn decipher_permuted(&self, block: &PermutedBlock) -> PermutedBlock
        ensures { (key : List ℕ) → HasKey self.now key → word_bytes result ≡ des_decipher key (word_bytes block.now) }
    {
        let (left, right) = rounds_back(&self.keys, (block.left, block.right));
        PermutedBlock::after_rounds(left, right)
    }

    /// Enciphers two blocks side by side.
    fn encipher_both(
        &self,
        first: &PermutedBlock,
        second: &PermutedBlock,
    ) -> (PermutedBlock, PermutedBlock)
        ensures first { (key : List ℕ) → HasKey self.now key
            → word_bytes result.0 ≡ des_encipher key (word_bytes first.now) }
        ensures second { (key : List ℕ) → HasKey self.now key
            → word_bytes result.1 ≡ des_encipher key (word_bytes second.now) }
    {
        let (one, other) = rounds_of_both(
            &self.keys,
            (first.left, first.right),
            (second.left, second.right),
        );
        (
            PermutedBlock::after_rounds(one.0, one.1),
            PermutedBlock::after_rounds(other.0, other.1),
        )
    }

    /// Deciphers two blocks side by side.
    fn decipher_both(
        &self,
        first: &PermutedBlock,
        second: &PermutedBlock,
    ) -> (PermutedBlock, PermutedBlock)
        ensures first { (key : List ℕ) → HasKey self.now key
            → word_bytes result.0 ≡ des_decipher key (word_bytes first.now) }
        ensures second { (key : List ℕ) → HasKey self.now key
            → word_bytes result.1 ≡ des_decipher key (word_bytes second.now) }
    {
        let (one, other) = rounds_of_both_back(
            &self.keys,
            (first.left, first.right),
            (second.left, second.right),
        );
        (
            PermutedBlock::after_rounds(one.0, one.1),
            PermutedBlock::after_rounds(other.0, other.1),
        )
    }
}

/// Triple DES with two keys: encipher with the left half, decipher with the right, encipher with the left.
#[derive(Clone, Copy)]
pub struct Tdes {
    left: Des,
    right: Des,
}

impl Tdes {
    /// Computes the round keys of both halves of a key.
    pub fn new(key: &Key16) -> Tdes
        ensures { HasKeyPair result key.now.0 }
    {
        Tdes {
            left: Des::new(key.left_half()),
            right: Des::new(key.right_half()),
        }
    }

    /// DES under the left half alone.
    pub fn left(&self) -> &Des
        ensures { (key : List ℕ) → HasKeyPair self.now key → HasKey result.now (take 8 key) }
    {
        &self.left
    }

    /// Enciphers a block.
    pub fn encipher(&self, block: [u8; 8]) -> [u8; 8]
        ensures enciphered { (key : List ℕ) → HasKeyPair self.now key → result ≡ tdes_encipher key block }
        ensures undone { (key : List ℕ) → HasKeyPair self.now key → tdes_decipher key result ≡ block }
    {
        self.encipher_word(u64::from_be_bytes(block)).to_be_bytes()
    }

    /// Deciphers a block.
    pub fn decipher(&self, block: [u8; 8]) -> [u8; 8]
        ensures deciphered { (key : List ℕ) → HasKeyPair self.now key → result ≡ tdes_decipher key block }
        ensures undone { (key : List ℕ) → HasKeyPair self.now key → tdes_encipher key result ≡ block }
    {
        self.decipher_word(u64::from_be_bytes(block)).to_be_bytes()
    }

    /// Enciphers a block given as a big-endian number.
    pub fn encipher_word(&self, block: u64) -> u64
        ensures enciphered { (key : List ℕ) → HasKeyPair self.now key
            → word_bytes result ≡ tdes_encipher key (word_bytes block) }
        ensures undone { (key : List ℕ) → HasKeyPair self.now key
            → tdes_decipher key (word_bytes result) ≡ word_bytes block }
    {
        self.encipher_permuted(&PermutedBlock::new(block)).word()
    }

    /// Deciphers a block given as a big-endian number.
    pub fn decipher_word(&self, block: u64) -> u64
        ensures deciphered { (key : List ℕ) → HasKeyPair self.now key
            → word_bytes result ≡ tdes_decipher key (word_bytes block) }
        ensures undone { (key : List ℕ) → HasKeyPair self.now key
            → tdes_encipher key (word_bytes result) ≡ word_bytes block }
    {
        self.decipher_permuted(&PermutedBlock::new(block)).word()
    }

    /// Enciphers a block given by its halves after IP.
    pub fn encipher_permuted(&self, block: &PermutedBlock) -> PermutedBlock
        ensures { (key : List ℕ) → HasKeyPair self.now key
            → word_bytes result ≡ tdes_encipher key (word_bytes block.now) }
    {
        let first = self.left.encipher_permuted(block);
        let second = self.right.decipher_permuted(&first);
        self.left.encipher_permuted(&second)
    }

    /// Deciphers a block given by its halves after IP.
    pub fn decipher_permuted(&self, block: &PermutedBlock) -> PermutedBlock
        ensures { (key : List ℕ) → HasKeyPair self.now key
            → word_bytes result ≡ tdes_decipher key (word_bytes block.now) }
    {
        let first = self.left.decipher_permuted(block);
        let second = self.right.encipher_permuted(&first);
        self.left.decipher_permuted(&second)
    }

    /// Enciphers two blocks side by side, faster than one after the other.
    pub fn encipher_both(&self, first: [u8; 8], second: [u8; 8]) -> ([u8; 8], [u8; 8])
        ensures first { (key : List ℕ) → HasKeyPair self.now key → result.0 ≡ tdes_encipher key first }
        ensures second { (key : List ℕ) → HasKeyPair self.now key → result.1 ≡ tdes_encipher key second }
    {
        let first = PermutedBlock::new(u64::from_be_bytes(first));
        let second = PermutedBlock::new(u64::from_be_bytes(second));
        let (first, second) = self.left.encipher_both(&first, &second);
        let (first, second) = self.right.decipher_both(&first, &second);
        let (first, second) = self.left.encipher_both(&first, &second);
        (first.word().to_be_bytes(), second.word().to_be_bytes())
    }
}
