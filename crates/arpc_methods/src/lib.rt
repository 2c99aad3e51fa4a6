//! The ARPC, and the issuer authentication data: EMV 4.3 Book 2, section 8.2, for triple DES. Those with AES are this
//! project's profile.
#![tactic(auto)]

mod ahead;
mod batch;

ghost use Rattle.std.specs.Prelude.{◌≡◌, ◌+◌, ◌≤◌, ◌++◌, length, replicate};
ghost use Rattle.retail_mac.specs.Mac.{xor_bytes};
ghost use Rattle.arpc_methods.specs.Arpc.{eight_of, method1, method2, value91};

use aes_cipher::Aes;
pub use ahead::{AnswerParts, MadeAhead};
use arrayvec::ArrayVec;
pub use batch::{AnswerBatch, FEWEST_IN_LANES};
use des_block::{Key16, Tdes};
use issuer_base::{Method, Suite};
use key_derive::{MacKey, first_half, with_zeros};

/// The ARPC by method 1: the application cryptogram, with the response code xored into its first two bytes, enciphered
/// under the session key for cryptograms. EMV 4.3 Book 2, section 8.2.1. With AES zeros fill the block, and the ARPC is
/// the first half of the result. Computes the key's schedules for its block cipher.
pub fn method1(suite: Suite, key: &Key16, ac: &[u8; 8], arc: [u8; 2]) -> [u8; 8]
    ensures { result ≡ method1 suite key.now.0 ac.now arc }
{
    enciphered(suite, key, with_code(ac, arc))
}

/// The application cryptogram with the response code xored into its first two bytes.
fn with_code(ac: &[u8; 8], arc: [u8; 2]) -> [u8; 8]
    ensures { result ≡ xor_bytes ac.now (arc ++ replicate 6 0) }
{
    let mut block = *ac;
    block[0] ^= arc[0];
    block[1] ^= arc[1];
    block
}

/// The first eight bytes of eight bytes enciphered, which for AES zeros fill up to a block.
fn enciphered(suite: Suite, key: &Key16, block: [u8; 8]) -> [u8; 8]
    ensures { result ≡ eight_of suite key.now.0 block }
{
    match suite {
        Suite::TripleDes => enciphered_by_des(key, block),
        Suite::Aes => enciphered_by_aes(key, block),
    }
}

/// The block enciphered by triple DES. In a function of its own, as the next one, it doesn't clear memory that the other
/// suite would use.
#[inline(never)]
fn enciphered_by_des(key: &Key16, block: [u8; 8]) -> [u8; 8]
    ensures { result ≡ eight_of Suite.TripleDes key.now.0 block }
{
    Tdes::new(key).encipher(block)
}

/// The first half of the block, filled up with zeros, enciphered by AES.
#[inline(never)]
fn enciphered_by_aes(key: &Key16, block: [u8; 8]) -> [u8; 8]
    ensures { result ≡ eight_of Suite.Aes key.now.0 block }
{
    first_half(Aes::new(key.0).encipher(with_zeros(block)))
}

/// The ARPC by method 2: the first four bytes of the MAC of the key's suite, under the session key for cryptograms, of
/// the application cryptogram and the card status update. EMV 4.3 Book 2, section 8.2.2, without proprietary
/// authentication data. Computes the key's schedules for MACs.
pub fn method2(suite: Suite, key: &Key16, ac: &[u8; 8], csu: [u8; 4]) -> [u8; 4]
    ensures { result ≡ method2 suite key.now.0 ac.now csu }
{
    let [a, b, c, d, ..] = MacKey::new(suite, key).mac(&text_of(ac, csu));
    [a, b, c, d]
}

fn text_of(ac: &[u8; 8], csu: [u8; 4]) -> [u8; 12]
    ensures { result ≡ ac.now ++ csu }
{
    let mut text = [0; 12];
    text[..8].copy_from_slice(ac);
    text[8..].copy_from_slice(&csu);
    text
}

/// The issuer authentication data, the value of tag 91: the ARPC and, by method 1, the response code or, by method 2,
/// the card status update. `key` is the session key for cryptograms, of this suite.
pub fn value91(
    suite: Suite,
    method: Method,
    key: &Key16,
    ac: &[u8; 8],
    arc: [u8; 2],
    csu: [u8; 4],
) -> ArrayVec<u8, 16>
    ensures { result.items ≡ value91 suite method key.now.0 ac.now arc csu }
{
    match method {
        Method::One => joined(&method1(suite, key, ac, arc), &arc),
        Method::Two => joined(&method2(suite, key, ac, csu), &csu),
    }
}

fn joined(first: &[u8], second: &[u8]) -> ArrayVec<u8, 16>
    requires { length first.now + length second.now ≤ 16 }
    ensures { result.items ≡ first.now ++ second.now }
{
    let mut bytes = ArrayVec::new();
    bytes.try_extend_from_slice(first).unwrap();
    bytes.try_extend_from_slice(second).unwrap();
    bytes
}
