//! Decimal digits as bytes: EMV 4.3 Book 2, Annex A1.4.

ghost use Rattle.std.specs.Prelude.{◌≡◌, ℕ, ◌-◌, ◌*◌, ◌<◌, ◌≤◌, [], ◌∷◌, ◌++◌, length, take, replicate, filter, slice_index};
ghost use Rattle.std.specs.List.{flat_map};
ghost use Rattle.issuer_base.specs.ChipData.{digits_of};
ghost use Rattle.key_derive.specs.Digits.{packed, card_digits, is_digit, letters, decimal16};

use issuer_base::Pan;
use std::marker::Model;

/// Sixteen decimal digits of a digest, two in a byte: its decimal nibbles from the left and, if they are
/// fewer, its nibbles A to F as 0 to 5. EMV 4.3 Book 2, Annex A1.4.2.
pub fn decimal16(digest: &[u8; 20]) -> [u8; 8]
    ensures { result ≡ decimal16 digest.now }
{
    let taken = sixteen_of(&nibbles_of(digest));
    packed(&taken.digits)
}

/// Both nibbles of each byte.
fn nibbles_of(bytes: &[u8; 20]) -> [u8; 40]
    ensures exact { result ≡ flat_map digits_of bytes.now }
    ensures nibbles { (k : ℕ) → slice_index result k < 16 }
{
    let mut nibbles = [0; 40];
    for (i, byte) in bytes.iter().enumerate() {
        nibbles[2 * i] = byte / 16;
        nibbles[2 * i + 1] = byte % 16;
    }
    nibbles
}

/// Digits that are collected one at a time until there are sixteen.
///
/// A contract sees the list of the collected digits.
#[derive(Drop)]
struct Taken {
    digits: [u8; 16],
    count: usize,
}

impl Model for Taken {
    ghost use Rattle.std.specs.Prelude.{ℕ, ◌<◌, ◌≤◌, List, take, slice_index};

    ghost Value = { List ℕ };

    ghost view = { λ taken. take taken.count taken.digits };

    ghost invariant = { λ taken. (taken.count ≤ 16) × ((k : ℕ) → slice_index taken.digits k < 10) };
}

impl Taken {
    fn new() -> Taken
        ensures { result ≡ [] }
    {
        Taken {
            digits: [0; 16],
            count: 0,
        }
    }

    fn add(&mut self, digit: u8)
        requires { digit < 10 }
        ensures { self.new ≡ take 16 (self.old ++ digit ∷ []) }
    {
        if self.count < 16 {
            self.digits[self.count] = digit;
            self.count += 1;
        }
    }
}

/// The first sixteen digits of these nibbles: the decimal ones, and after them A to F as 0 to 5.
fn sixteen_of(nibbles: &[u8; 40]) -> Taken
    requires { (k : ℕ) → slice_index nibbles.now k < 16 }
    ensures { result ≡ take 16 (filter is_digit nibbles.now ++ letters nibbles.now) }
{
    let mut taken = Taken::new();
    'digits: for nibble in nibbles {
        if *nibble <= 9 {
            taken.add(*nibble);
        }
    }
    'letters: for nibble in nibbles {
        if *nibble > 9 {
            taken.add(*nibble - 10);
        }
    }
    taken
}

/// The digits of the card's account number and sequence number, two in a byte, with zeros on the left.
pub fn written(pan: &Pan, psn: u8) -> [u8; 11]
    ensures exact { result ≡ packed (replicate (20 - length pan.now) 0 ++ card_digits pan.now psn) }
    ensures within { length pan.now ≤ 19 }
{
    packed(&row_of(pan, psn))
}

// An account number has at most 19 digits, so the row begins with at least one zero.
fn row_of(pan: &Pan, psn: u8) -> [u8; 22]
    ensures exact { result ≡ replicate (20 - length pan.now) 0 ++ card_digits pan.now psn }
    ensures nibbles { (k : ℕ) → slice_index result k < 16 }
    ensures within { length pan.now ≤ 19 }
{
    let digits = pan.digits();
    let start = 20 - digits.len();
    let mut row = [0; 22];
    row[20] = psn / 16;
    row[21] = psn % 16;
    row[start..20].copy_from_slice(digits);
    row
}

/// The digits packed two in a byte, the first in the high nibble.
pub fn packed<const N: usize>(digits: &[u8]) -> [u8; N]
    requires pairs { length digits.now ≡ 2 * N }
    requires nibbles { (k : ℕ) → slice_index digits.now k < 16 }
    ensures { result ≡ packed digits.now }
{
    let mut bytes = [0; N];
    for (i, byte) in bytes.iter_mut().enumerate() {
        *byte = 16 * digits[2 * i] + digits[2 * i + 1];
    }
    bytes
}
