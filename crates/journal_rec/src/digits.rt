//! Hexadecimal digits in lower case.
ghost use Rattle.std.specs.Prelude.{◌≡◌, ◌<◌, ◌≤◌, ◌+◌, ◌*◌, ◌/◌, ◌%◌, length, slice_index, if◌then◌else◌, option_map, unwrap_or};
ghost use Rattle.hex.specs.Hex.{lower_digits};
ghost use Rattle.journal_rec.specs.Reading.{byte_of, digit_value, spelled, spelled_within};

use arrayvec::ArrayVec;

/// The table's value for a byte that is no digit: greater than any byte that two digits spell.
const NONE: u16 = 256;

/// The value of each byte as a digit.
static VALUES: [u16; 256] = [
    NONE, NONE, NONE, NONE, NONE, NONE, NONE, NONE, NONE, NONE, NONE, NONE, NONE, NONE, NONE, NONE,
    NONE, NONE, NONE, NONE, NONE, NONE, NONE, NONE, NONE, NONE, NONE, NONE, NONE, NONE, NONE, NONE,
    NONE, NONE, NONE, NONE, NONE, NONE, NONE, NONE, NONE, NONE, NONE, NONE, NONE, NONE, NONE, NONE,
    0, 1, 2, 3, 4, 5, 6, 7, 8, 9, NONE, NONE, NONE, NONE, NONE, NONE, NONE, NONE, NONE, NONE, NONE,
    NONE, NONE, NONE, NONE, NONE, NONE, NONE, NONE, NONE, NONE, NONE, NONE, NONE, NONE, NONE, NONE,
    NONE, NONE, NONE, NONE, NONE, NONE, NONE, NONE, NONE, NONE, NONE, NONE, 10, 11, 12, 13, 14, 15,
    NONE, NONE, NONE, NONE, NONE, NONE, NONE, NONE, NONE, NONE, NONE, NONE, NONE, NONE, NONE, NONE,
    NONE, NONE, NONE, NONE, NONE, NONE, NONE, NONE, NONE, NONE, NONE, NONE, NONE, NONE, NONE, NONE,
    NONE, NONE, NONE, NONE, NONE, NONE, NONE, NONE, NONE, NONE, NONE, NONE, NONE, NONE, NONE, NONE,
    NONE, NONE, NONE, NONE, NONE, NONE, NONE, NONE, NONE, NONE, NONE, NONE, NONE, NONE, NONE, NONE,
    NONE, NONE, NONE, NONE, NONE, NONE, NONE, NONE, NONE, NONE, NONE, NONE, NONE, NONE, NONE, NONE,
    NONE, NONE, NONE, NONE, NONE, NONE, NONE, NONE, NONE, NONE, NONE, NONE, NONE, NONE, NONE, NONE,
    NONE, NONE, NONE, NONE, NONE, NONE, NONE, NONE, NONE, NONE, NONE, NONE, NONE, NONE, NONE, NONE,
    NONE, NONE, NONE, NONE, NONE, NONE, NONE, NONE, NONE, NONE, NONE, NONE, NONE, NONE, NONE, NONE,
    NONE, NONE, NONE, NONE, NONE, NONE, NONE, NONE, NONE, NONE, NONE, NONE, NONE, NONE, NONE, NONE,
    NONE, NONE, NONE, NONE, NONE, NONE, NONE, NONE, NONE,
];

fn value(digit: u8) -> u16
    ensures exact { result ≡ unwrap_or (digit_value digit) NONE }
    ensures bounded { result ≤ NONE }
{
    VALUES[usize::from(digit)]
}

fn byte_of(high: u8, low: u8) -> Option<u8>
    ensures { result ≡ byte_of high low }
{
    let byte = value(high) * 16 + value(low);
    if byte >= NONE {
        return None;
    }
    Some(byte as u8)
}

/// How many bytes the compiler decodes at once by sums. Fewer take less time by the table.
const LANES: usize = 16;

/// Decodes the digits into `out`. If they aren't all digits, returns `false`, and the contents of `out` are
/// unspecified.
pub(crate) fn decode_into(digits: &[u8], out: &mut [u8]) -> bool
    requires { length digits.now ≡ 2 * length out.old }
    ensures { (if result then Some out.new else None) ≡ spelled digits.now }
{
    if out.len() < LANES {
        decode_short(digits, out)
    } else {
        decode_long(digits, out)
    }
}

fn decode_short(digits: &[u8], out: &mut [u8]) -> bool
    requires { length digits.now ≡ 2 * length out.old }
    ensures { (if result then Some out.new else None) ≡ spelled digits.now }
{
    'bytes: for i in 0..out.len() {
        let Some(byte) = byte_of(digits[2 * i], digits[2 * i + 1]) else {
            return false;
        };
        out[i] = byte;
    }
    true
}

// A call of its own, since inlined for a known length, the loop would be unrolled rather than vectorised.
#[inline(never)]
fn decode_long(digits: &[u8], out: &mut [u8]) -> bool
    requires { length digits.now ≡ 2 * length out.old }
    ensures { (if result then Some out.new else None) ≡ spelled digits.now }
{
    let mut are_digits = true;
    'bytes: for i in 0..out.len() {
        let (byte, is_byte) = byte_by_sums(digits[2 * i], digits[2 * i + 1]);
        are_digits &= is_byte;
        out[i] = byte;
    }
    are_digits
}

/// The byte that two digits spell, and whether both are digits. Their values are computed together as the halves of a
/// number, without a table or a branch, so that the compiler can vectorise the loop.
fn byte_by_sums(high: u8, low: u8) -> (u8, bool)
    ensures { (if result.1 then Some result.0 else None) ≡ byte_of high low }
{
    let digits = u16::from(high) + 256 * u16::from(low);

    // A letter has bit 6, and its value is 9 more than its last four bits.
    let letters = (digits / 64) & 0x0101;
    let values = ((digits & 0x0f0f) + 9 * letters) & 0x0f0f;
    let byte = (16 * (values % 256) + values / 256) as u8;
    (byte, digits_of(values) == digits)
}

/// The digits of two values as halves of a number.
fn digits_of(values: u16) -> u16
    requires high { values % 256 < 16 }
    requires low { values / 256 < 16 }
    ensures { result ≡ slice_index lower_digits (values % 256) + 256 * slice_index lower_digits (values / 256) }
{
    // 6 more carries where a value is above 9.
    let letters = ((values + 0x0606) / 16) & 0x0101;
    values + 0x3030 + u16::from(b'a' - b'0' - 10) * letters
}

/// The bytes that the digits spell, or `None` if they spell none or more than `CAP`.
pub(crate) fn decode<const CAP: usize>(digits: &[u8]) -> Option<ArrayVec<u8, CAP>>
    ensures { option_map (λ bytes. bytes.items) result ≡ spelled_within CAP digits.now }
{
    let count = digits.len() / 2;
    if digits.len() % 2 == 1 {
        return None;
    }
    if count > CAP {
        return None;
    }
    let mut bytes = ArrayVec::from_array_in((), [0; CAP]);
    bytes.truncate(count);
    if !decode_into(digits, bytes.as_mut_slice()) {
        return None;
    }
    Some(bytes)
}
