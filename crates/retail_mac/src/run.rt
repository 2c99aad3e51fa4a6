//! The MAC of a text, computed incrementally.

ghost use Rattle.std.specs.Prelude.{◌≡◌, ℕ, ◌+◌, ◌-◌, ◌<◌, ◌≤◌, List, [], ◌++◌, length, take, drop};
ghost use Rattle.arrayvec.specs.ArrayVec.{array_vec_len};
ghost use Rattle.retail_mac.specs.Mac.{retail_mac};
ghost use Rattle.retail_mac.specs.Run.{IsRun};

use crate::chain::{chained, ended};
use arrayvec::ArrayVec;
use des_block::{Key16, PermutedBlock, Tdes};

/// A MAC over a text that comes in pieces of any lengths. Of the text only a partial block is buffered.
#[derive(Drop)]
pub struct MacRun {
    cipher: Tdes,
    chain: PermutedBlock,
    /// The bytes after the whole blocks.
    part: ArrayVec<u8, 7>,
}

impl MacRun {
    /// A run over no bytes yet. Computes the key schedules.
    pub fn new(key: &Key16) -> MacRun
        ensures { IsRun result key.now.0 [] }
    {
        MacRun {
            cipher: Tdes::new(key),
            chain: PermutedBlock::new(0),
            part: ArrayVec::new(),
        }
    }

    /// Appends a piece to the text.
    pub fn update(&mut self, piece: &[u8])
        ensures { (key text : List ℕ) → IsRun self.old key text → IsRun self.new key (text ++ piece.now) }
    {
        let rest = self.complete(piece);
        let whole = rest.len() / 8;
        chained(self.cipher.left(), &mut self.chain, rest);
        self.part.try_extend_from_slice(&rest[8 * whole..]).unwrap();
    }

    /// The MAC of the text.
    pub fn finish(self) -> [u8; 8]
        ensures { (key text : List ℕ) → IsRun self key text → result ≡ retail_mac key text }
    {
        ended(&self.cipher, &self.chain, self.part.as_slice())
    }

    /// The MAC of the text. Afterwards the run is over no bytes, under the same key.
    pub fn take(&mut self) -> [u8; 8]
        ensures mac { (key text : List ℕ) → IsRun self.old key text → result ≡ retail_mac key text }
        ensures again { (key text : List ℕ) → IsRun self.old key text → IsRun self.new key [] }
    {
        let mac = ended(&self.cipher, &self.chain, self.part.as_slice());
        self.chain = PermutedBlock::new(0);
        self.part.clear();
        mac
    }

    /// Completes a partial block, if there is one, from the piece, and returns the remainder of the piece.
    fn complete<'a>(&mut self, piece: &'a [u8]) -> &'a [u8]
        ensures taken { (key text : List ℕ) → IsRun self.old key text
            → IsRun self.new key (text ++ take (length piece.now - length result.now) piece.now) }
        ensures left { result.now ≡ drop (length piece.now - length result.now) piece.now }
        ensures shorter { length result.now ≤ length piece.now }
        ensures begun { 0 < length result.now → self.new.part.items ≡ [] }
        ensures short { array_vec_len self.new.part < 8 }
    {
        let begun = self.part.len();
        if begun == 0 {
            return piece;
        }
        if begun + piece.len() < 8 {
            self.part.try_extend_from_slice(piece).unwrap();
            return &[];
        }
        let (front, rest) = piece.split_at(8 - begun);
        let block = joined(self.part.as_slice(), front);
        chained(self.cipher.left(), &mut self.chain, &block);
        self.part.clear();
        rest
    }
}

/// The block of a partial one and the bytes that complete it.
fn joined(part: &[u8], front: &[u8]) -> [u8; 8]
    requires { length part.now + length front.now ≡ 8 }
    ensures { result ≡ part.now ++ front.now }
{
    let mut block = [0; 8];
    block[..part.len()].copy_from_slice(part);
    block[part.len()..].copy_from_slice(front);
    block
}
