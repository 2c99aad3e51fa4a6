//! Issuer authentication data under triple DES that are made ahead of their use, side by side, in lanes.
ghost use Rattle.std.specs.Prelude.{◌≡◌, ◌↔◌, ◌≤◌, ◌∷◌, ◌++◌, length, map, replicate, take, IfSome, IsSome, IsTrue};
ghost use Rattle.issuer_base.specs.declared.request.Suite.TheVariants.{TripleDes};
ghost use Rattle.retail_mac.specs.Mac.{xor_bytes};
ghost use Rattle.arpc_methods.specs.Ahead.{arpc_block, first_block, last_block};
ghost use Rattle.arpc_methods.specs.Arpc.{value91};

use crate::{joined, with_code};
use arrayvec::ArrayVec;
use des_block::Key16;
use des_lanes::{des_encipher, tdes_encipher};
use issuer_base::{Method, Suite};

/// What issuer authentication data under triple DES are made of.
#[derive(Clone, Copy)]
pub struct AnswerParts {
    pub method: Method,

    /// The session key for cryptograms.
    pub key: Key16,

    /// The application cryptogram.
    pub ac: [u8; 8],

    /// The response code.
    pub arc: [u8; 2],

    /// The card status update. By method 1 it doesn't count.
    pub csu: [u8; 4],
}

/// Issuer authentication data under triple DES that were made ahead of their use.
#[derive(Clone, Copy)]
pub struct MadeAhead {
    pub(crate) parts: AnswerParts,

    /// The ARPC: by method 2 its first four bytes.
    pub(crate) block: [u8; 8],
    ghost made: { block ≡ arpc_block parts },
}

impl MadeAhead {
    /// The value of tag 91, if it was made of these data and the suite is triple DES. Of other data it is `None`.
    pub fn value_for(&self, suite: Suite, parts: &AnswerParts) -> Option<ArrayVec<u8, 16>>
        ensures same { IsSome result ↔ (suite ≡ TripleDes) × (self.now.parts ≡ parts.now) }
        ensures value { IfSome result (λ value. value.items
            ≡ value91 suite parts.now.method parts.now.key.0 parts.now.ac parts.now.arc parts.now.csu) }
    {
        if !suite.goes_in_lanes() || !self.parts.is_same(parts) {
            return None;
        }
        match parts.method {
            Method::One => Some(joined(&self.block, &parts.arc)),
            Method::Two => Some(joined(&self.block[..4], &parts.csu)),
        }
    }
}

impl AnswerParts {
    /// Whether these are the same data.
    fn is_same(&self, other: &AnswerParts) -> bool
        ensures { IsTrue result ↔ (self.now ≡ other.now) }
    {
        is_same_method(self.method, other.method)
            && self.key == other.key
            && self.ac == other.ac
            && self.arc == other.arc
            && self.csu == other.csu
    }

    /// The block that is enciphered last, by triple DES. `first` is the application cryptogram, enciphered by DES under
    /// the left half of the key.
    fn last_block(&self, first: [u8; 8]) -> [u8; 8]
        requires { first ≡ first_block self.now }
        ensures { result ≡ last_block self.now }
    {
        match self.method {
            Method::One => with_code(&self.ac, self.arc),
            Method::Two => with_update(first, self.csu),
        }
    }
}

/// Whether two methods are the same.
fn is_same_method(left: Method, right: Method) -> bool
    ensures { IsTrue result ↔ (left ≡ right) }
{
    match (left, right) {
        (Method::One, Method::One) | (Method::Two, Method::Two) => true,
        _ => false,
    }
}

/// A block with the card status update, padded, xored into it.
fn with_update(block: [u8; 8], csu: [u8; 4]) -> [u8; 8]
    ensures { result ≡ xor_bytes block (csu ++ 0x80 ∷ replicate 3 0) }
{
    let mut mixed = block;
    mixed[0] ^= csu[0];
    mixed[1] ^= csu[1];
    mixed[2] ^= csu[2];
    mixed[3] ^= csu[3];
    mixed[4] ^= 0x80;
    mixed
}

/// The ARPC of each of up to 128 answers, in lanes: by method 2 its first four bytes. Fewer than 128 cost as much.
pub(crate) fn arpc_blocks(answers: &[AnswerParts]) -> ArrayVec<[u8; 8], 128>
    requires { length answers.now ≤ 128 }
    ensures { result.items ≡ map arpc_block answers.now }
{
    let firsts = first_blocks(answers);
    let blocks = last_blocks(answers, firsts.as_slice());
    tdes_encipher(&keys_of(answers)[..answers.len()], blocks.as_slice())
}

/// The application cryptogram of each answer, enciphered by DES under the left half of its key.
fn first_blocks(answers: &[AnswerParts]) -> ArrayVec<[u8; 8], 128>
    requires { length answers.now ≤ 128 }
    ensures { result.items ≡ map first_block answers.now }
{
    des_encipher(
        left_halves(answers).as_slice(),
        cryptograms(answers).as_slice(),
    )
}

/// The block of each answer that is enciphered last.
fn last_blocks(answers: &[AnswerParts], firsts: &[[u8; 8]]) -> ArrayVec<[u8; 8], 128>
    requires few { length answers.now ≤ 128 }
    requires firsts { firsts.now ≡ map first_block answers.now }
    ensures { result.items ≡ map last_block answers.now }
{
    let mut blocks = ArrayVec::new();
    for (i, parts) in answers.iter().enumerate() {
        blocks.push(parts.last_block(firsts[i]));
    }
    blocks
}

/// The key of each answer, and then zeros.
fn keys_of(answers: &[AnswerParts]) -> [Key16; 128]
    requires { length answers.now ≤ 128 }
    ensures { take (length answers.now) result ≡ map (λ parts. parts.key) answers.now }
{
    let mut keys = [Key16([0; 16]); 128];
    for (i, parts) in answers.iter().enumerate() {
        keys[i] = parts.key;
    }
    keys
}

/// The left half of the key of each answer.
fn left_halves(answers: &[AnswerParts]) -> ArrayVec<[u8; 8], 128>
    requires { length answers.now ≤ 128 }
    ensures { result.items ≡ map (λ parts. take 8 parts.key.0) answers.now }
{
    let mut halves = ArrayVec::new();
    for parts in answers {
        halves.push(parts.key.left_half());
    }
    halves
}

/// The application cryptogram of each answer.
fn cryptograms(answers: &[AnswerParts]) -> ArrayVec<[u8; 8], 128>
    requires { length answers.now ≤ 128 }
    ensures { result.items ≡ map (λ parts. parts.ac) answers.now }
{
    let mut cryptograms = ArrayVec::new();
    for parts in answers {
        cryptograms.push(parts.ac);
    }
    cryptograms
}
