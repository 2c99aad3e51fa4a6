//! Parsers for the texts and numbers of a configuration.
ghost use Rattle.std.specs.Prelude.{◌≡◌, map, if◌then◌else◌, Some, None};
ghost use Rattle.std.specs.Char.{digit_value, is_ascii_digit};
ghost use Rattle.config_read.specs.Words.{at_most, bytes_of, method_of, option_of, pan_of, past_zero, psn_of};

use hex::FromHex;
use issuer_base::{MAX_PAN_DIGITS, MasterOption, Method, Pan};

/// Parses an account number of 8 to 19 digits.
pub(crate) fn read_pan(text: &str) -> Option<Pan>
    ensures { result ≡ pan_of text.now }
{
    let text = text.as_bytes();
    if text.len() > MAX_PAN_DIGITS {
        return None;
    }
    let mut characters = [0; MAX_PAN_DIGITS];
    characters[..text.len()].copy_from_slice(text);
    Pan::new(&past_zero(characters)[..text.len()])
}

/// Each character minus the digit 0, modulo 256: at most 9 for a digit alone. The loop has no branch per character, so
/// that the compiler can vectorise it.
fn past_zero(mut characters: [u8; MAX_PAN_DIGITS]) -> [u8; MAX_PAN_DIGITS]
    ensures { result ≡ map past_zero characters }
{
    for character in &mut characters {
        *character = character.wrapping_sub(b'0');
    }
    characters
}

/// Parses a sequence number of two digits, a nibble each.
#[tactic(auto, unfolding(crate::specs::Words::psn_of))]
pub(crate) fn read_psn(text: &str) -> Option<u8>
    ensures { result ≡ psn_of text.now }
{
    let [tens, units] = text.as_bytes() else {
        return None;
    };
    Some(read_digit(*tens)? * 16 + read_digit(*units)?)
}

fn read_digit(character: u8) -> Option<u8>
    ensures { result ≡ (if is_ascii_digit character then Some (digit_value character) else None) }
{
    match character {
        b'0'..=b'9' => Some(character - b'0'),
        _ => None,
    }
}

/// Parses the derivation option `A` or `B`.
#[tactic(auto, unfolding(crate::specs::Words::option_of))]
pub(crate) fn read_option(text: &str) -> Option<MasterOption>
    ensures { result ≡ option_of text.now }
{
    match text {
        "A" => Some(MasterOption::A),
        "B" => Some(MasterOption::B),
        _ => None,
    }
}

/// Parses the ARPC method 1 or 2.
#[tactic(auto, unfolding(crate::specs::Words::method_of))]
pub(crate) fn read_method(number: u64) -> Option<Method>
    ensures { result ≡ method_of number }
{
    match number {
        1 => Some(Method::One),
        2 => Some(Method::Two),
        _ => None,
    }
}

/// Parses hexadecimal digits of either case as bytes, two digits each.
pub(crate) fn read_bytes<const N: usize>(text: &str) -> Option<[u8; N]>
    ensures { result ≡ bytes_of N text.now }
{
    <[u8; N] as FromHex>::from_hex(text).ok()
}

/// The number, if it is at most `most`.
pub(crate) fn up_to(most: u64, number: u64) -> Option<u64>
    ensures { result ≡ at_most most number }
{
    if number <= most { Some(number) } else { None }
}
