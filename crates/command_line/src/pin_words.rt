//! The words of the command to change a PIN.
ghost use Rattle.std.specs.Prelude.{◌≡◌, ◌%◌, length, IfNone, IfSome};
ghost use Rattle.std.specs.Char.{is_ascii_digit};
ghost use Rattle.std.specs.List.{list_all};
ghost use Rattle.std.specs.Option.{option_map};
ghost use Rattle.command_line.specs.Pairs.{AreWordsOf, Asks, IsTask, order_of};
ghost use Rattle.command_line.specs.PinWords.{byte_in, bytes_in, digits_in, order_in, pan_in, pin_in, psn_in};
ghost use Rattle.command_line.specs.declared.words.Command.TheVariants.{Pin as PinCommand};
ghost use Rattle.command_line.specs.declared.words.Task.TheVariants.{Pin as PinTask};

use crate::words::value_of;
use arrayvec::ArrayVec;
use hex::FromHex;
use issuer_base::{MAX_PAN_DIGITS, Pan, Words};
use secure_msg::{MAX_PIN_DIGITS, Pin};

/// What the words of the command to change a PIN say.
#[derive(Drop)]
pub struct PinWords<'a> {
    /// The name of the configuration.
    pub config: &'a str,
    /// The card's account number.
    pub pan: Pan,
    /// The card's sequence number, of two decimal digits.
    pub psn: u8,
    /// The derivation key index of the key set.
    pub dki: u8,
    /// The bytes from which the session key is derived.
    pub salt: [u8; 8],
    /// The new PIN.
    pub pin: Pin,
}

/// The order in the words of the command to change a PIN.
pub(crate) fn pin_words(words: &Words) -> Option<PinWords<'_>>
    requires { AreWordsOf PinCommand words.now }
    ensures order { IfSome result (λ named. IsTask words.now (PinTask named)) }
    ensures none { IfNone result (Asks PinCommand words.now → ⊥) }
{
    values_in(words)
}

/// What the words after the first one say, if each option of the command has one value, of its form.
#[tactic(auto, unfolding(crate::specs::PinWords::order_in))]
fn values_in(words: &Words) -> Option<PinWords<'_>>
    requires { length words.now % 2 ≡ 1 }
    ensures { option_map order_of result ≡ order_in words.now }
{
    Some(PinWords {
        config: value_of(words, "--config")?,
        pan: pan_of(value_of(words, "--pan")?)?,
        psn: psn_of(value_of(words, "--psn")?)?,
        dki: byte_of(value_of(words, "--dki")?)?,
        salt: bytes_of(value_of(words, "--salt")?)?,
        pin: pin_of(value_of(words, "--pin")?)?,
    })
}

/// The account number that a word says.
fn pan_of(word: &str) -> Option<Pan>
    ensures { result ≡ pan_in word.now }
{
    let digits = digits_of::<MAX_PAN_DIGITS>(word)?;
    Pan::new(digits.as_slice())
}

/// The PIN that a word says.
fn pin_of(word: &str) -> Option<Pin>
    ensures { result ≡ pin_in word.now }
{
    let digits = digits_of::<MAX_PIN_DIGITS>(word)?;
    Pin::new(digits.as_slice())
}

/// The sequence number that a word of two decimal digits says, a nibble each.
#[tactic(auto, unfolding(crate::specs::PinWords::psn_in))]
fn psn_of(word: &str) -> Option<u8>
    ensures { result ≡ psn_in word.now }
{
    let [tens, ones] = word.as_bytes() else {
        return None;
    };
    if !tens.is_ascii_digit() || !ones.is_ascii_digit() {
        return None;
    }
    Some(16 * (tens - b'0') + (ones - b'0'))
}

/// The decimal digits that a word has, if it has nothing else and at most `N`.
fn digits_of<const N: usize>(word: &str) -> Option<ArrayVec<u8, N>>
    ensures { option_map (λ digits. digits.items) result ≡ digits_in N word.now }
{
    let word = word.as_bytes();
    if word.len() > N || !are_digits(word) {
        return None;
    }
    let mut digits = ArrayVec::new();
    for character in word {
        digits.push(*character - b'0');
    }
    Some(digits)
}

fn are_digits(word: &[u8]) -> bool
    ensures { result ≡ list_all is_ascii_digit word.now }
{
    word.iter().all(|character| character.is_ascii_digit())
}

/// The byte that a word spells in two hexadecimal digits.
fn byte_of(word: &str) -> Option<u8>
    ensures { result ≡ byte_in word.now }
{
    let [byte] = bytes_of::<1>(word)?;
    Some(byte)
}

/// The bytes that a word spells in hexadecimal digits of either case, if they are just so many.
fn bytes_of<const N: usize>(word: &str) -> Option<[u8; N]>
    ensures { result ≡ bytes_in N word.now }
{
    <[u8; N] as FromHex>::from_hex(word).ok()
}
