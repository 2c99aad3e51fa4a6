//! AES-128 (FIPS 197) and CMAC over it (NIST SP 800-38B).
#![tactic(auto)]

mod mac;
mod rounds;
mod run;
mod schedule;
mod tables;

ghost use Rattle.std.specs.Prelude.{◌≡◌, ℕ, ◌*◌, ◌≤◌, List, length, fold};
ghost use Rattle.aes_cipher.specs.Cipher.{aes_encipher};
ghost use Rattle.aes_cipher.specs.Columns.{state_bytes, HasKey};
ghost use Rattle.aes_cipher.specs.Mac.{blocks, chained};

pub use mac::{CmacKey, cmac};
use rounds::{Columns, enciphered};
pub use run::CmacRun;
use schedule::round_keys;

/// AES under a key of sixteen bytes.
#[derive(Clone, Copy)]
pub struct Aes {
    keys: [Columns; 11],
}

impl Aes {
    /// Computes the round keys of a key.
    pub fn new(key: [u8; 16]) -> Aes
        ensures { HasKey result key }
    {
        Aes {
            keys: round_keys(&Columns::new(&key)),
        }
    }

    /// Enciphers a block.
    pub fn encipher(&self, block: [u8; 16]) -> [u8; 16]
        ensures { (key : List ℕ) → HasKey self.now key → result ≡ aes_encipher key block }
    {
        self.chained(&Columns::new(&[0; 16]), &block, 1).bytes()
    }

    /// The chain of CBC over the first `count` blocks of a text.
    pub(crate) fn chained(&self, start: &Columns, text: &[u8], count: usize) -> Columns
        requires { 16 * count ≤ length text.now }
        ensures { (key : List ℕ) → HasKey self.now key
            → state_bytes result ≡ fold (chained key) (state_bytes start.now) (blocks count text.now) }
    {
        let mut chain = *start;
        for i in 0..count {
            chain = enciphered(&self.keys, &chain.xor(&Columns::at(text, 16 * i)));
        }
        chain
    }
}
