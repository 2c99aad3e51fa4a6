//! Account numbers in a line.
ghost use Rattle.std.specs.Prelude.{◌≡◌, ◌-◌, ◌<◌, ◌≤◌, ◌==◌, ◌++◌, All, IsTrue, length, map, replicate, take_while};
ghost use Rattle.std.specs.Char.{is_ascii_digit};
ghost use Rattle.std.specs.List.{list_all};
ghost use Rattle.issuer_base.specs.CardNumber.{is_pan};
ghost use Rattle.journal_rec.specs.Reading.{pan_of};
ghost use Rattle.journal_rec.specs.RecordText.{packed, pan_bytes};

use crate::limits::{PAN_BYTES, PAN_DIGITS};
use issuer_base::Pan;

/// The account number of these digits, if only `f` follows its decimal digits.
#[tactic(auto, unfolding(crate::specs::Reading::pan_of))]
pub(crate) fn read_pan(text: &[u8]) -> Option<Pan>
    requires { length text.now ≡ PAN_DIGITS }
    ensures { result ≡ pan_of text.now }
{
    let (digits, filling) = text.split_at(decimal_prefix_length(text));
    if !is_filling(filling) {
        return None;
    }
    Pan::new(&values(text)[..digits.len()])
}

fn decimal_prefix_length(text: &[u8]) -> usize
    ensures count { result ≡ length (take_while is_ascii_digit text.now) }
    ensures within { result ≤ length text.now }
{
    text.iter().take_while(|byte| byte.is_ascii_digit()).count()
}

fn is_filling(text: &[u8]) -> bool
    ensures { result ≡ list_all (λ byte. byte == 102) text.now }
{
    text.iter().all(|byte| *byte == b'f')
}

/// The values of the digits, if all are decimal. The length is known, so that the compiler computes them together.
fn values(text: &[u8]) -> [u8; PAN_DIGITS]
    requires { length text.now ≡ PAN_DIGITS }
    ensures { result ≡ map (λ digit. digit - 48) text.now }
{
    let mut values = [0; PAN_DIGITS];
    'digits: for i in 0..PAN_DIGITS {
        values[i] = text[i].saturating_sub(b'0');
    }
    values
}

/// The bytes of an account number.
#[tactic(auto, unfolding(crate::specs::RecordText::pan_bytes))]
pub(crate) fn pan_bytes(pan: &Pan) -> [u8; PAN_BYTES]
    ensures bytes { result ≡ pan_bytes pan.now }
    ensures size { length result ≡ PAN_BYTES }
    ensures valid { IsTrue (is_pan pan.now) }
{
    packed(&filled(pan.digits()))
}

fn filled(digits: &[u8]) -> [u8; PAN_DIGITS]
    requires { length digits.now ≤ PAN_DIGITS }
    ensures { result ≡ digits.now ++ replicate (PAN_DIGITS - length digits.now) 0x0F }
{
    let mut nibbles = [0x0F; PAN_DIGITS];
    nibbles[..digits.len()].copy_from_slice(digits);
    nibbles
}

fn packed(nibbles: &[u8]) -> [u8; PAN_BYTES]
    requires size { length nibbles.now ≡ PAN_DIGITS }
    requires nibbles { All (λ nibble. nibble < 16) nibbles.now }
    ensures { result ≡ packed nibbles.now }
{
    let mut bytes = [0; PAN_BYTES];
    'bytes: for i in 0..PAN_BYTES {
        bytes[i] = 16 * nibbles[2 * i] + nibbles[2 * i + 1];
    }
    bytes
}
