//! CMAC of a text, computed incrementally.

ghost use Rattle.std.specs.Prelude.{◌≡◌, ℕ, ◌+◌, List, [], ◌++◌, length};
ghost use Rattle.aes_cipher.specs.Mac.{cmac, HasCmacKey};
ghost use Rattle.aes_cipher.specs.Run.{IsRun};

use crate::mac::CmacKey;
use crate::rounds::Columns;
use arrayvec::ArrayVec;

/// A CMAC over a text that comes in pieces of any lengths. Of the text only the last block is buffered.
#[derive(Drop)]
pub struct CmacRun {
    key: CmacKey,
    chain: Columns,
    /// The last block so far, whole or not.
    last: ArrayVec<u8, 16>,
}

impl CmacRun {
    /// A run over no bytes yet.
    pub fn new(key: &CmacKey) -> CmacRun
        ensures { (bytes : List ℕ) → HasCmacKey key.now bytes → IsRun result bytes [] }
    {
        CmacRun {
            key: *key,
            chain: Columns::new(&[0; 16]),
            last: ArrayVec::new(),
        }
    }

    /// Appends a piece to the text.
    pub fn update(&mut self, piece: &[u8])
        ensures { (key text : List ℕ) → IsRun self.old key text → IsRun self.new key (text ++ piece.now) }
    {
        if self.last.len() + piece.len() <= 16 {
            self.last.try_extend_from_slice(piece).unwrap();
            return;
        }
        let (front, rest) = piece.split_at(16 - self.last.len());
        let block = joined(self.last.as_slice(), front);
        let chain = self.key.cipher.chained(&self.chain, &block, 1);
        let count = (rest.len() - 1) / 16;
        self.chain = self.key.cipher.chained(&chain, rest, count);
        self.last.clear();
        self.last
            .try_extend_from_slice(&rest[16 * count..])
            .unwrap();
    }

    /// The CMAC of the text.
    pub fn finish(self) -> [u8; 16]
        ensures { (key text : List ℕ) → IsRun self key text → result ≡ cmac key text }
    {
        self.key.ended(&self.chain, self.last.as_slice())
    }

    /// The CMAC of the text. Afterwards the run is over no bytes, under the same key.
    pub fn take(&mut self) -> [u8; 16]
        ensures mac { (key text : List ℕ) → IsRun self.old key text → result ≡ cmac key text }
        ensures again { (key text : List ℕ) → IsRun self.old key text → IsRun self.new key [] }
    {
        let mac = self.key.ended(&self.chain, self.last.as_slice());
        self.chain = Columns::new(&[0; 16]);
        self.last.clear();
        mac
    }
}

/// The block of a partial one and the bytes that complete it.
fn joined(part: &[u8], front: &[u8]) -> [u8; 16]
    requires { length part.now + length front.now ≡ 16 }
    ensures { result ≡ part.now ++ front.now }
{
    let mut block = [0; 16];
    block[..part.len()].copy_from_slice(part);
    block[part.len()..].copy_from_slice(front);
    block
}
