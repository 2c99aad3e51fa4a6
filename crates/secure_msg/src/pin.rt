//! A cardholder's PIN, and its block.

ghost use Rattle.std.specs.Prelude.{◌≡◌, ℕ, ◌<◌, ◌≤◌, length, slice_index, IsTrue, nat_le};
ghost use Rattle.std.specs.List.{list_all};
ghost use Rattle.secure_msg.specs.Pins.{is_pin, pin_from, pin_nibbles, pin_block};

use arrayvec::ArrayVec;
use key_derive::packed;
use std::marker::Model;

/// How many digits a PIN has at least.
pub const MIN_PIN_DIGITS: usize = 4;

/// How many digits a PIN has at most.
pub const MAX_PIN_DIGITS: usize = 12;

/// The first nibble of a PIN block of format 2.
const FORMAT: u8 = 2;

/// A cardholder's PIN: 4 to 12 decimal digits, from the left, each a value from 0 to 9.
///
/// A contract sees the list of its digits. It has no debug text.
#[derive(PartialEq, Eq, Drop)]
pub struct Pin {
    kept: ArrayVec<u8, MAX_PIN_DIGITS>,
}

impl Model for Pin {
    ghost use Rattle.std.specs.Prelude.{List, ℕ, IsTrue};
    ghost use Rattle.secure_msg.specs.Pins.{is_pin};

    ghost Value = { List ℕ };

    ghost view = { λ pin. pin.kept.items };

    ghost invariant = { λ pin. IsTrue (is_pin pin.kept.items) };

    ghost inverse = { λ digits. record { kept = record { items = digits } } };
}

impl Pin {
    /// The PIN with these digits. `None` if there are fewer than 4 or more than 12, or one is above 9.
    #[tactic(auto, unfolding(crate::specs::Pins::pin_from))]
    pub fn new(digits: &[u8]) -> Option<Pin>
        ensures { result ≡ pin_from digits.now }
    {
        if !is_pin(digits) {
            return None;
        }
        let kept = ArrayVec::try_from(digits).ok()?;
        Some(Pin { kept })
    }

    /// The digits, from the left.
    pub fn digits(&self) -> &[u8]
        ensures same { result.now ≡ self.now }
        ensures valid { IsTrue (is_pin self.now) }
    {
        self.kept.as_slice()
    }
}

#[tactic(auto, unfolding(crate::specs::Pins::is_pin))]
fn is_pin(digits: &[u8]) -> bool
    ensures exact { result ≡ is_pin digits.now }
    ensures fits { IsTrue result → length digits.now ≤ MAX_PIN_DIGITS }
{
    (MIN_PIN_DIGITS..=MAX_PIN_DIGITS).contains(&digits.len()) && are_digits(digits)
}

fn are_digits(digits: &[u8]) -> bool
    ensures { result ≡ list_all (λ digit. nat_le digit 9) digits.now }
{
    digits.iter().all(|digit| *digit <= 9)
}

/// The PIN block of format 2: the nibble 2, the number of digits, the digits, and F up to sixteen nibbles.
pub fn pin_block(pin: &Pin) -> [u8; 8]
    ensures exact { result ≡ pin_block pin.now }
    ensures valid { IsTrue (is_pin pin.now) }
{
    packed(&pin_nibbles(pin.digits()))
}

/// The nibbles of a PIN block.
fn pin_nibbles(digits: &[u8]) -> [u8; 16]
    requires { IsTrue (is_pin digits.now) }
    ensures exact { result ≡ pin_nibbles digits.now }
    ensures nibbles { (k : ℕ) → slice_index result k < 16 }
{
    let count = digits.len();
    let mut nibbles = [0xF; 16];
    nibbles[0] = FORMAT;
    nibbles[1] = count as u8;
    nibbles[2..2 + count].copy_from_slice(digits);
    nibbles
}
