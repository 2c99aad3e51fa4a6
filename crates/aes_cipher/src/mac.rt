//! CMAC of a text.

ghost use Rattle.std.specs.Prelude.{◌≡◌, ℕ, ◌-◌, ◌<◌, ◌≤◌, List, ◌∷◌, ◌++◌, length, replicate};
ghost use Rattle.aes_cipher.specs.Columns.{state_bytes, HasKey};
ghost use Rattle.aes_cipher.specs.Mac.{twice, masked_last, chained, cmac, HasCmacKey};

use crate::Aes;
use crate::rounds::Columns;

/// The CMAC of a text under a key (NIST SP 800-38B).
pub fn cmac(key: &[u8; 16], text: &[u8]) -> [u8; 16]
    ensures { result ≡ cmac key.now text.now }
{
    CmacKey::new(key).cmac(text)
}

/// A key for CMAC: its round keys and both subkeys, computed once.
#[derive(Clone, Copy)]
pub struct CmacKey {
    pub(crate) cipher: Aes,
    /// K1, for a last block that is whole.
    whole: Columns,
    /// K2, for a last block that is padded.
    padded: Columns,
}

impl CmacKey {
    /// Computes the round keys and the subkeys of a key.
    pub fn new(key: &[u8; 16]) -> CmacKey
        ensures { HasCmacKey result key.now }
    {
        let cipher = Aes::new(*key);
        let whole = twice(cipher.encipher([0; 16]));
        let padded = twice(whole);
        CmacKey {
            cipher,
            whole: Columns::new(&whole),
            padded: Columns::new(&padded),
        }
    }

    /// AES under the key.
    pub fn cipher(&self) -> &Aes
        ensures { (key : List ℕ) → HasCmacKey self.now key → HasKey result.now key }
    {
        &self.cipher
    }

    /// The CMAC of a text.
    pub fn cmac(&self, text: &[u8]) -> [u8; 16]
        ensures { (key : List ℕ) → HasCmacKey self.now key → result ≡ cmac key text.now }
    {
        let count = text.len().saturating_sub(1) / 16;
        let start = Columns::new(&[0; 16]);
        let chain = self.cipher.chained(&start, text, count);
        self.ended(&chain, &text[16 * count..])
    }

    /// The CMAC of a text whose last block is this one, and the chain over the blocks before it.
    pub(crate) fn ended(&self, chain: &Columns, last: &[u8]) -> [u8; 16]
        requires { length last.now ≤ 16 }
        ensures { (key : List ℕ) → HasCmacKey self.now key
            → result ≡ chained key (state_bytes chain.now) (masked_last key last.now) }
    {
        let block = self.masked(last).bytes();
        self.cipher.chained(chain, &block, 1).bytes()
    }

    /// The last block, padded if it is not whole, xor a subkey.
    fn masked(&self, last: &[u8]) -> Columns
        requires { length last.now ≤ 16 }
        ensures { (key : List ℕ) → HasCmacKey self.now key → state_bytes result ≡ masked_last key last.now }
    {
        if last.len() == 16 {
            return Columns::at(last, 0).xor(&self.whole);
        }
        filled(last).xor(&self.padded)
    }
}

/// A block shifted left by one bit and, if the lost bit is 1, xor 87.
fn twice(block: [u8; 16]) -> [u8; 16]
    ensures { result ≡ twice block }
{
    let number = u128::from_be_bytes(block);
    (number << 1 ^ (number >> 127) * 0x87).to_be_bytes()
}

/// A last block that is not whole, padded with a byte 80 and bytes 00.
fn filled(last: &[u8]) -> Columns
    requires { length last.now < 16 }
    ensures { state_bytes result ≡ last.now ++ 0x80 ∷ replicate (15 - length last.now) 0 }
{
    let mut block = [0; 16];
    block[..last.len()].copy_from_slice(last);
    block[last.len()] = 0x80;
    Columns::new(&block)
}
