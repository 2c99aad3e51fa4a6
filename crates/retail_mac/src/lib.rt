//! The retail MAC and CBC encipherment under a key of sixteen bytes.
//!
//! Both pad the text with a byte 80 and the fewest bytes 00 to whole blocks of eight bytes. A text of n blocks so
//! padded costs two key schedules; its MAC costs n - 1 blocks of DES and one of triple DES, its encipherment n blocks
//! of triple DES. Neither allocates, nor copies the text; a MAC over pieces copies a block that two pieces share.
#![tactic(auto)]

mod chain;
mod opening;
mod run;

ghost use Rattle.std.specs.Prelude.{◌≡◌, ℕ, ◌+◌, ◌<◌, ◌≤◌, ◌↔◌, List, ◌++◌, length, IsErr, OnOk, OnErr};
ghost use Rattle.arrayvec.specs.ArrayVec.{array_vec_len};
ghost use Rattle.des_block.specs.Cipher.{word_bytes};
ghost use Rattle.des_block.specs.Keyed.{HasKeyPair};
ghost use Rattle.retail_mac.specs.Mac.{padded, retail_mac, cbc};

use arrayvec::ArrayVec;
use chain::{chained, ended, last_word, word_at};
use des_block::{Key16, PermutedBlock, Tdes};
pub use opening::cbc_open;
pub use run::MacRun;

/// The enciphered text does not fit into the remaining output.
#[derive(Clone, Copy, PartialEq, Eq, Debug)]
pub struct Full;

/// The MAC of a text: ISO/IEC 9797-1, algorithm 3 with padding method 2, over DES.
pub fn mac(key: &Key16, text: &[u8]) -> [u8; 8]
    ensures { result ≡ retail_mac key.now.0 text.now }
{
    mac_under(&Tdes::new(key), text)
}

/// The MAC of a text under a key whose schedule is given: ISO/IEC 9797-1, algorithm 3 with padding method 2, over DES.
pub fn mac_under(cipher: &Tdes, text: &[u8]) -> [u8; 8]
    ensures { (key : List ℕ) → HasKeyPair cipher.now key → result ≡ retail_mac key text.now }
{
    let mut chain = PermutedBlock::new(0);
    chained(cipher.left(), &mut chain, text);
    let whole = text.len() / 8;
    ended(cipher, &chain, &text[8 * whole..])
}

/// Appends the bytes of a word, big-endian.
#[inline]
fn append(out: &mut ArrayVec<u8, 160>, word: u64)
    requires { array_vec_len out.old + 8 ≤ 160 }
    ensures { out.new.items ≡ out.old.items ++ word_bytes word }
{
    let [a, b, c, d, e, f, g, h] = word.to_be_bytes();
    out.push(a);
    out.push(b);
    out.push(c);
    out.push(d);
    out.push(e);
    out.push(f);
    out.push(g);
    out.push(h);
}

/// Appends the text, padded and enciphered by triple DES in CBC with a zero IV. `Full` if it does not fit.
pub fn cbc_encipher(key: &Key16, text: &[u8], out: &mut ArrayVec<u8, 160>) -> Result<(), Full>
    ensures full { IsErr result ↔ (160 < array_vec_len out.old + length (padded text.now)) }
    ensures unchanged { OnErr result (out.new ≡ out.old) }
    ensures appended { OnOk result (out.new.items ≡ out.old.items ++ cbc key.now.0 text.now) }
{
    let whole = text.len() / 8;
    if whole >= (160 - out.len()) / 8 {
        return Err(Full);
    }
    let cipher = Tdes::new(key);
    let mut previous = 0;
    for i in 0..whole {
        previous = cipher.encipher_word(previous ^ word_at(text, 8 * i));
        append(out, previous);
    }
    append(
        out,
        cipher.encipher_word(previous ^ last_word(&text[8 * whole..])),
    );
    Ok(())
}
