//! Opening a text that was enciphered in CBC.

ghost use Rattle.std.specs.Prelude.{◌≡◌, ℕ, ◌+◌, ◌/◌, ◌%◌, ◌<◌, ◌≤◌, ◌↔◌, List, ◌++◌, length, take, Some, IfSome, IsTrue};
ghost use Rattle.std.specs.Bool.{OnFalse};
ghost use Rattle.arrayvec.specs.ArrayVec.{array_vec_len};
ghost use Rattle.des_block.specs.Keyed.{HasKeyPair};
ghost use Rattle.retail_mac.specs.Mac.{blocks, padded, zero_block};
ghost use Rattle.retail_mac.specs.Opening.{cbc_back, IsEnciphered};

use crate::append;
use crate::chain::word_at;
use arrayvec::ArrayVec;
use des_block::{Key16, Tdes};

/// The byte that ends a text before its zeros.
const MARK: u8 = 0x80;

/// Opens a text that [`cbc_encipher`](crate::cbc_encipher) made: appends the message that was enciphered. Returns
/// whether there is one; if there is none, the output stays as it was.
pub fn cbc_open(key: &Key16, text: &[u8], out: &mut ArrayVec<u8, 160>) -> bool
    requires { array_vec_len out.old + length text.now ≤ 160 }
    ensures exact { IsTrue result ↔ ((message : List ℕ) × IsEnciphered key.now.0 message text.now) }
    ensures appended { (message : List ℕ) → IsEnciphered key.now.0 message text.now
        → out.new.items ≡ out.old.items ++ message }
    ensures unchanged { OnFalse result (out.new ≡ out.old) }
{
    if text.len() % 8 != 0 {
        return false;
    }
    let plain = deciphered(&Tdes::new(key), text);
    let Some(len) = unpadded_len(plain.as_slice()) else {
        return false;
    };
    out.try_extend_from_slice(&plain.as_slice()[..len]).unwrap();
    true
}

/// The whole blocks of a text, deciphered in CBC with a zero IV.
fn deciphered(cipher: &Tdes, text: &[u8]) -> ArrayVec<u8, 160>
    requires { length text.now ≤ 160 }
    ensures { (key : List ℕ) → HasKeyPair cipher.now key
        → result.items ≡ cbc_back key zero_block (blocks (length text.now / 8) text.now) }
{
    let mut plain = ArrayVec::new();
    let mut previous = 0;
    for i in 0..text.len() / 8 {
        let block = word_at(text, 8 * i);
        append(&mut plain, cipher.decipher_word(block) ^ previous);
        previous = block;
    }
    plain
}

/// The length of the text that was padded to this one; `None` if none was.
fn unpadded_len(plain: &[u8]) -> Option<usize>
    requires { length plain.now % 8 ≡ 0 }
    ensures found { (message : List ℕ) → plain.now ≡ padded message → result ≡ Some (length message) }
    ensures within { IfSome result (λ len. len < length plain.now) }
    ensures padded { IfSome result (λ len. plain.now ≡ padded (take len plain.now)) }
{
    if plain.len() < 8 {
        return None;
    }
    for zeros in 0..8 {
        let last = plain.len() - 1 - zeros;
        if plain[last] == MARK {
            return Some(last);
        }
        if plain[last] != 0 {
            return None;
        }
    }
    None
}
