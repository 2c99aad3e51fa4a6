//! A card's master keys: EMV 4.3 Book 2, Annex A1.4. Those with AES are this project's profile.

ghost use Rattle.std.specs.Prelude.{◌≡◌, ℕ, List, ◌≤◌, ◌++◌, length, map};
ghost use Rattle.des_block.specs.Keyed.{HasKeyPair};
ghost use Rattle.aes_cipher.specs.Cipher.{aes_encipher};
ghost use Rattle.aes_cipher.specs.Columns.{HasKey};
ghost use Rattle.key_derive.specs.MasterKey.{with_odd_parity, complement, diversified, option_a, option_b, master_key, aes_master};

use crate::digits::{decimal16, written};
use aes_cipher::Aes;
use des_block::{Key16, Tdes};
use issuer_base::{MasterOption, Pan};
use sha1::Sha1;

/// The most digits of an account number that option B does not hash.
const LONGEST_UNHASHED: usize = 16;

/// A card's master key by option A: EMV 4.3 Book 2, Annex A1.4.1. The sequence number is two decimal
/// digits, 00 if the card has none. Computes one key schedule and enciphers two blocks.
pub fn option_a(imk: &Key16, pan: &Pan, psn: u8) -> Key16
    ensures { result.0 ≡ option_a imk.now.0 pan.now psn }
{
    diversified(&Tdes::new(imk), block_a(pan, psn))
}

/// A card's master key by option B: EMV 4.3 Book 2, Annex A1.4.2. For an account number of at most sixteen
/// digits it is the key of option A; a longer one is hashed.
pub fn option_b(imk: &Key16, pan: &Pan, psn: u8) -> Key16
    ensures exact { result.0 ≡ option_b imk.now.0 pan.now psn }
    ensures short { length pan.now ≤ 16 → result.0 ≡ option_a imk.now.0 pan.now psn }
{
    diversified(&Tdes::new(imk), block_b(pan, psn))
}

/// A card's master key by the option that the issuer's keys are for.
pub fn master_key(option: MasterOption, imk: &Key16, pan: &Pan, psn: u8) -> Key16
    ensures { result.0 ≡ master_key option imk.now.0 pan.now psn }
{
    diversified(&Tdes::new(imk), block_of(option, pan, psn))
}

/// A card's AES master key: AES, under the issuer's master key, of the digits of the account number and the sequence
/// number with zeros before them. The sequence number is two decimal digits, 00 if the card has none.
pub fn aes_master(imk: &Key16, pan: &Pan, psn: u8) -> Key16
    ensures { result.0 ≡ aes_master imk.now.0 pan.now psn }
{
    aes_key(&Aes::new(imk.0), aes_block(pan, psn))
}

/// The block from which any issuer's AES master key derives a card's: its 32 digits.
pub fn aes_block(pan: &Pan, psn: u8) -> [u8; 16]
    ensures { (imk : List ℕ) → aes_master imk pan.now psn ≡ aes_encipher imk result }
{
    let mut block = [0; 16];
    block[5..].copy_from_slice(&written(pan, psn));
    block
}

/// The key that the issuer's AES master key of this cipher derives from a block.
pub fn aes_key(aes: &Aes, block: [u8; 16]) -> Key16
    ensures { (imk : List ℕ) → HasKey aes.now imk → result.0 ≡ aes_encipher imk block }
{
    Key16(aes.encipher(block))
}

/// The block from which any issuer's master key derives a card's by this option.
pub fn block_of(option: MasterOption, pan: &Pan, psn: u8) -> [u8; 8]
    ensures { (imk : List ℕ) → master_key option imk pan.now psn ≡ diversified imk result }
{
    match option {
        MasterOption::A => block_a(pan, psn),
        MasterOption::B => block_b(pan, psn),
    }
}

/// The rightmost sixteen digits of the account and sequence number.
fn block_a(pan: &Pan, psn: u8) -> [u8; 8]
    ensures { (imk : List ℕ) → option_a imk pan.now psn ≡ diversified imk result }
{
    // The last eight bytes hold the rightmost sixteen digits.
    let mut block = [0; 8];
    block.copy_from_slice(&written(pan, psn)[3..]);
    block
}

/// Sixteen digits of the digest of a long account number; for one of at most sixteen digits the block of option A.
fn block_b(pan: &Pan, psn: u8) -> [u8; 8]
    ensures exact { (imk : List ℕ) → option_b imk pan.now psn ≡ diversified imk result }
    ensures short { length pan.now ≤ 16 → (imk : List ℕ) → option_a imk pan.now psn ≡ diversified imk result }
{
    let len = pan.digits().len();
    if len <= LONGEST_UNHASHED {
        return block_a(pan, psn);
    }
    // The bytes before the first digit or, if the number of digits is odd, before the zero that pads them.
    let unused = 11 - (len + 3) / 2;
    let digest = Sha1::digest(&written(pan, psn)[unused..]);
    decimal16(&digest)
}

/// The key derived from a block of sixteen digits by the issuer's master key of this cipher.
pub fn diversified(tdes: &Tdes, block: [u8; 8]) -> Key16
    ensures { (imk : List ℕ) → HasKeyPair tdes.now imk → result.0 ≡ diversified imk block }
{
    let (left, right) = tdes.encipher_both(block, complement(block));
    in_odd_parity(joined(left, right))
}

/// The block with each bit inverted.
fn complement(mut block: [u8; 8]) -> [u8; 8]
    ensures { result ≡ complement block }
{
    for byte in &mut block {
        *byte ^= 0xFF;
    }
    block
}

/// The key with these halves.
pub fn joined(left: [u8; 8], right: [u8; 8]) -> Key16
    ensures { result.0 ≡ left ++ right }
{
    let mut bytes = [0; 16];
    bytes[..8].copy_from_slice(&left);
    bytes[8..].copy_from_slice(&right);
    Key16(bytes)
}

/// The key with each byte in odd parity. In a function of its own the compiler handles all bytes in one step.
#[inline(never)]
fn in_odd_parity(key: Key16) -> Key16
    ensures { result.0 ≡ map with_odd_parity key.0 }
{
    let mut bytes = key.0;
    for byte in &mut bytes {
        *byte = with_odd_parity(*byte);
    }
    Key16(bytes)
}

/// The byte with the least significant bit that makes its number of ones odd.
fn with_odd_parity(byte: u8) -> u8
    ensures { result ≡ with_odd_parity byte }
{
    let high = byte / 2;
    if high.count_ones() % 2 == 0 {
        2 * high + 1
    } else {
        2 * high
    }
}
