//! The bytes that pairs of hexadecimal digits spell: one by one by two tables, or in steps of many.
ghost use Rattle.std.specs.Prelude.{◌≡◌, ◌≤◌, ◌*◌, ℕ, IsTrue, is_some, length};
ghost use Rattle.hex.specs.Hex.{hex_digit_value};
ghost use Rattle.chip_request.specs.HexDigits.{value_below, pair_of, AreSpelled, HaveValues, AreDigitValues, AreWithin, AreJoined};

/// 16 times the value of each byte as a digit of either case, and 256 where it is none.
const HIGH_DIGITS: [u16; 256] = [
    256, 256, 256, 256, 256, 256, 256, 256, 256, 256, 256, 256, 256, 256, 256, 256, 256, 256, 256,
    256, 256, 256, 256, 256, 256, 256, 256, 256, 256, 256, 256, 256, 256, 256, 256, 256, 256, 256,
    256, 256, 256, 256, 256, 256, 256, 256, 256, 256, 0, 16, 32, 48, 64, 80, 96, 112, 128, 144,
    256, 256, 256, 256, 256, 256, 256, 160, 176, 192, 208, 224, 240, 256, 256, 256, 256, 256, 256,
    256, 256, 256, 256, 256, 256, 256, 256, 256, 256, 256, 256, 256, 256, 256, 256, 256, 256, 256,
    256, 160, 176, 192, 208, 224, 240, 256, 256, 256, 256, 256, 256, 256, 256, 256, 256, 256, 256,
    256, 256, 256, 256, 256, 256, 256, 256, 256, 256, 256, 256, 256, 256, 256, 256, 256, 256, 256,
    256, 256, 256, 256, 256, 256, 256, 256, 256, 256, 256, 256, 256, 256, 256, 256, 256, 256, 256,
    256, 256, 256, 256, 256, 256, 256, 256, 256, 256, 256, 256, 256, 256, 256, 256, 256, 256, 256,
    256, 256, 256, 256, 256, 256, 256, 256, 256, 256, 256, 256, 256, 256, 256, 256, 256, 256, 256,
    256, 256, 256, 256, 256, 256, 256, 256, 256, 256, 256, 256, 256, 256, 256, 256, 256, 256, 256,
    256, 256, 256, 256, 256, 256, 256, 256, 256, 256, 256, 256, 256, 256, 256, 256, 256, 256, 256,
    256, 256, 256, 256, 256, 256, 256, 256, 256, 256, 256, 256, 256, 256, 256, 256, 256, 256, 256,
    256, 256, 256, 256, 256, 256, 256, 256,
];

/// The value of each byte as a digit of either case, and 256 where it is none.
const LOW_DIGITS: [u16; 256] = [
    256, 256, 256, 256, 256, 256, 256, 256, 256, 256, 256, 256, 256, 256, 256, 256, 256, 256, 256,
    256, 256, 256, 256, 256, 256, 256, 256, 256, 256, 256, 256, 256, 256, 256, 256, 256, 256, 256,
    256, 256, 256, 256, 256, 256, 256, 256, 256, 256, 0, 1, 2, 3, 4, 5, 6, 7, 8, 9, 256, 256, 256,
    256, 256, 256, 256, 10, 11, 12, 13, 14, 15, 256, 256, 256, 256, 256, 256, 256, 256, 256, 256,
    256, 256, 256, 256, 256, 256, 256, 256, 256, 256, 256, 256, 256, 256, 256, 256, 10, 11, 12, 13,
    14, 15, 256, 256, 256, 256, 256, 256, 256, 256, 256, 256, 256, 256, 256, 256, 256, 256, 256,
    256, 256, 256, 256, 256, 256, 256, 256, 256, 256, 256, 256, 256, 256, 256, 256, 256, 256, 256,
    256, 256, 256, 256, 256, 256, 256, 256, 256, 256, 256, 256, 256, 256, 256, 256, 256, 256, 256,
    256, 256, 256, 256, 256, 256, 256, 256, 256, 256, 256, 256, 256, 256, 256, 256, 256, 256, 256,
    256, 256, 256, 256, 256, 256, 256, 256, 256, 256, 256, 256, 256, 256, 256, 256, 256, 256, 256,
    256, 256, 256, 256, 256, 256, 256, 256, 256, 256, 256, 256, 256, 256, 256, 256, 256, 256, 256,
    256, 256, 256, 256, 256, 256, 256, 256, 256, 256, 256, 256, 256, 256, 256, 256, 256, 256, 256,
    256, 256, 256, 256, 256, 256, 256, 256, 256, 256, 256, 256, 256, 256, 256, 256, 256, 256, 256,
    256, 256, 256,
];

/// The byte that two digits of either case spell, the high one first, and 256 or more where one is none.
pub(crate) fn pair_value(high: u8, low: u8) -> u16
    ensures { value_below 256 result ≡ pair_of (hex_digit_value high) (hex_digit_value low) }
{
    HIGH_DIGITS[usize::from(high)] + LOW_DIGITS[usize::from(low)]
}

/// Whether a byte is a digit of either case.
pub(crate) fn is_hex_digit(byte: u8) -> bool
    ensures { result ≡ is_some (hex_digit_value byte) }
{
    LOW_DIGITS[usize::from(byte)] < 256
}

/// How many pairs of digits are handled in one step.
pub(crate) const STEP: usize = 32;

/// How many digits are handled in one step.
pub(crate) const STEP_DIGITS: usize = 2 * STEP;

/// The bytes that the digits of one step spell. `greatest` holds, for each place in a step, the greatest value so far
/// at that place: they are within a digit's values only if each byte so far is a digit. So no byte is tested alone.
#[inline(always)]
pub(crate) fn spell_step(digits: &[u8], greatest: &mut [u8; STEP_DIGITS]) -> [u8; STEP]
    requires { STEP_DIGITS ≤ length digits.now }
    ensures spelled { AreDigitValues greatest.new → AreSpelled STEP result digits.now }
    ensures before { AreDigitValues greatest.new → AreDigitValues greatest.old }
{
    let mut values = [0; STEP_DIGITS];
    read_values(digits, &mut values, greatest);
    joined_values(&values)
}

/// Writes the values of the digits of one step. The loop has no branch, so that the compiler can vectorise it.
#[inline(always)]
fn read_values(digits: &[u8], values: &mut [u8; STEP_DIGITS], greatest: &mut [u8; STEP_DIGITS])
    requires { STEP_DIGITS ≤ length digits.now }
    ensures values { HaveValues STEP_DIGITS values.new digits.now }
    ensures greatest { AreWithin STEP_DIGITS values.new greatest.new }
    ensures before { AreWithin STEP_DIGITS greatest.old greatest.new }
{
    for place in 0..STEP_DIGITS {
        let value = digit_value(digits[place]);
        values[place] = value;
        greatest[place] = greatest[place].max(value);
    }
}

/// The bytes of pairs of values. The product of a pair's word holds the byte in its upper half: the high digit's value
/// is added there 16-fold.
#[inline(always)]
fn joined_values(values: &[u8; STEP_DIGITS]) -> [u8; STEP]
    ensures { AreDigitValues values.now → AreJoined STEP result values.now }
{
    let mut joined = [0; STEP];
    for place in 0..STEP {
        let word = u16::from_le_bytes([values[2 * place], values[2 * place + 1]]);
        joined[place] = (word.wrapping_mul(0x1001) >> 8) as u8;
    }
    joined
}

/// A byte's value as a digit of either case, and 16 or more where it is none. It has no branch, and each operation is
/// one of the processor's for 16 bytes.
#[inline(always)]
fn digit_value(byte: u8) -> u8
    ensures { value_below 16 result ≡ hex_digit_value byte }
{
    let decimal = byte
        .wrapping_add(PAST_NINE)
        .saturating_sub(PAST_NINE)
        .wrapping_sub(b'0');
    let letter = (byte & 0xDF).wrapping_sub(b'A').saturating_add(10);
    decimal.min(letter)
}

/// How many bytes are above `9`. It is added to a byte and subtracted again, which gives 0 for these bytes, and the byte
/// itself otherwise.
const PAST_NINE: u8 = 0xFF - b'9';

/// Whether no value exceeds the greatest of a digit.
#[inline(always)]
pub(crate) fn are_digit_values(values: &[u8; STEP_DIGITS]) -> bool
    ensures { IsTrue result → AreDigitValues values.now }
{
    let mut greatest: u8 = 0;
    for value in values {
        greatest = greatest.max(*value);
    }
    greatest <= 15
}
