//! Parsers for the parts of a line. Each reads a part from the start of a text, and returns its value and the
//! remainder. Where the part isn't there, it returns the text from the first byte that is wrong.
ghost use Rattle.std.specs.Prelude.{◌≡◌, ◌<◌, ◌≤◌, ◌+◌, ◌*◌, length, IfOk, IfSome, Ok, Err, IsTrue, true, take, is_err};
ghost use Rattle.std.specs.Result.{result_map_both};
ghost use Rattle.issuer_base.specs.declared.limits.TheConstants.{MAX_CHIP_BYTES};
ghost use Rattle.chip_request.specs.HexDigits.{AreSpelled, AreDigitValues};
ghost use Rattle.chip_request.specs.LineParts.{byte_at, card_at, account_number_at, digits_at, last_digit_at, digit_at, data_at, pair_at};

use crate::hex_digits::{
    STEP, STEP_DIGITS, are_digit_values, is_hex_digit, pair_value, spell_step,
};
use arrayvec::ArrayVec;
use issuer_base::{MAX_CHIP_BYTES, MAX_PAN_DIGITS, Pan};

/// Reads this byte.
#[tactic(auto, unfolding(crate::specs::LineParts::byte_at))]
pub(crate) fn read_byte(text: &[u8], byte: u8) -> Result<&[u8], &[u8]>
    ensures { result_map_both (λ rest. rest.now) (λ rest. rest.now) result ≡ byte_at byte text.now }
{
    match text {
        [first, rest @ ..] if *first == byte => Ok(rest),
        _ => Err(text),
    }
}

/// Reads a card's account number and sequence number, each between spaces.
#[tactic(auto, unfolding(crate::specs::LineParts::card_at))]
pub(crate) fn read_card(text: &[u8]) -> Result<(Pan, u8, &[u8]), &[u8]>
    ensures { result_map_both (λ found. record { pan = found.0; psn = found.1; rest = found.2.now })
        (λ rest. rest.now) result
        ≡ card_at text.now }
{
    let rest = read_byte(text, b' ')?;
    // A `?` would take by value a copy beside a borrow, for which the toolchain has no rule.
    let (pan, rest) = match read_account_number(rest) {
        Ok(found) => found,
        Err(rest) => return Err(rest),
    };
    let rest = read_byte(rest, b' ')?;
    let (high, rest) = read_digit(rest)?;
    let (low, rest) = read_digit(rest)?;
    let rest = read_byte(rest, b' ')?;
    Ok((pan, 16 * high + low, rest))
}

/// Reads an account number: all the digits at the start, up to the greatest length of one.
#[tactic(auto, unfolding(crate::specs::LineParts::account_number_at))]
fn read_account_number(text: &[u8]) -> Result<(Pan, &[u8]), &[u8]>
    ensures { result_map_both (λ found. (found.0, found.1.now)) (λ rest. rest.now) result ≡ account_number_at text.now }
{
    let (digits, rest) = read_digits(text);
    let pan = Pan::new(digits.as_slice()).ok_or(rest)?;
    Ok((pan, rest))
}

fn read_digits(text: &[u8]) -> (ArrayVec<u8, MAX_PAN_DIGITS>, &[u8])
    ensures { (result.0.items, result.1.now) ≡ digits_at MAX_PAN_DIGITS text.now }
{
    let mut digits = ArrayVec::new();
    let mut rest = text;
    for _ in 0..MAX_PAN_DIGITS {
        match read_digit(rest) {
            Ok((digit, after)) => {
                digits.push(digit);
                rest = after;
            }
            Err(rest) => return (digits, rest),
        }
    }
    (digits, rest)
}

/// Reads one decimal digit, and then the end of the text.
#[tactic(auto, unfolding(crate::specs::LineParts::last_digit_at))]
pub(crate) fn read_last_digit(text: &[u8]) -> Result<u8, &[u8]>
    ensures found { result_map_both (λ digit. digit) (λ rest. rest.now) result ≡ last_digit_at text.now }
    ensures small { IfOk result (λ digit. digit < 10) }
{
    let (digit, rest) = read_digit(text)?;
    if !rest.is_empty() {
        return Err(rest);
    }
    Ok(digit)
}

#[tactic(auto, unfolding(crate::specs::LineParts::digit_at))]
fn read_digit(text: &[u8]) -> Result<(u8, &[u8]), &[u8]>
    ensures found { result_map_both (λ found. (found.0, found.1.now)) (λ rest. rest.now) result ≡ digit_at text.now }
    ensures small { IfOk result (λ found. found.0 < 10) }
{
    match text {
        [digit @ b'0'..=b'9', rest @ ..] => Ok((digit - b'0', rest)),
        _ => Err(text),
    }
}

/// Reads 1 to `limit` pairs of hexadecimal digits, up to the end of the text. The bytes that they spell are written to
/// the start of `bytes`, and their count is returned.
pub(crate) fn read_data<'a>(
    text: &'a [u8],
    limit: usize,
    bytes: &mut [u8; MAX_CHIP_BYTES],
) -> Result<usize, &'a [u8]>
    requires { 1 ≤ limit × limit ≤ MAX_CHIP_BYTES }
    ensures bytes { result_map_both (λ count. take count bytes.new) (λ rest. rest.now) result ≡ data_at limit text.now }
    ensures within { IfOk result (λ count. count ≤ limit) }
{
    match spelled_data(text, limit, bytes) {
        Some(count) => Ok(count),
        None => read_pairs(text, limit, bytes),
    }
}

/// As [`read_data`], for a text that consists of such pairs alone; `None` for any other text.
fn spelled_data(text: &[u8], limit: usize, bytes: &mut [u8; MAX_CHIP_BYTES]) -> Option<usize>
    requires { limit ≤ MAX_CHIP_BYTES }
    ensures bytes { IfSome result (λ count. Ok (take count bytes.new) ≡ data_at limit text.now) }
    ensures within { IfSome result (λ count. count ≤ limit) }
{
    let pairs = text.len() / 2;
    if pairs == 0 || pairs > limit || text.len() % 2 == 1 || !spell(text, bytes, pairs) {
        return None;
    }
    Some(pairs)
}

/// Writes the bytes that the first `pairs` pairs of digits spell, and returns whether all are of digits. Whole steps
/// come first, and then the last step, which may overlap them. So no pair is handled alone.
fn spell(text: &[u8], bytes: &mut [u8; MAX_CHIP_BYTES], pairs: usize) -> bool
    requires digits { 2 * pairs ≤ length text.now }
    requires room { pairs ≤ MAX_CHIP_BYTES }
    ensures { IsTrue result → AreSpelled pairs bytes.new text.now }
{
    if pairs < STEP {
        return spell_short(text, bytes, pairs);
    }
    let mut greatest = [0; STEP_DIGITS];
    for step in 0..pairs / STEP {
        write_step(text, bytes, STEP * step, &mut greatest);
    }
    write_step(text, bytes, pairs - STEP, &mut greatest);
    are_digit_values(&greatest)
}

/// As [`spell`], for fewer pairs than those of a step, which zeros make up.
fn spell_short(text: &[u8], bytes: &mut [u8; MAX_CHIP_BYTES], pairs: usize) -> bool
    requires digits { 2 * pairs ≤ length text.now }
    requires short { pairs ≤ STEP }
    ensures { IsTrue result → AreSpelled pairs bytes.new text.now }
{
    let mut digits = [b'0'; STEP_DIGITS];
    digits[..2 * pairs].copy_from_slice(&text[..2 * pairs]);
    let mut greatest = [0; STEP_DIGITS];
    write_step(&digits, bytes, 0, &mut greatest);
    are_digit_values(&greatest)
}

/// Writes the bytes that the pairs of one step spell, from an index on, and notes the greatest values as
/// [`spell_step`] does.
#[inline(always)]
fn write_step(
    text: &[u8],
    bytes: &mut [u8; MAX_CHIP_BYTES],
    from: usize,
    greatest: &mut [u8; STEP_DIGITS],
)
    requires digits { 2 * (from + STEP) ≤ length text.now }
    requires room { from + STEP ≤ MAX_CHIP_BYTES }
    ensures spelled { AreDigitValues greatest.new → AreSpelled from bytes.old text.now
        → AreSpelled (from + STEP) bytes.new text.now }
    ensures before { AreDigitValues greatest.new → AreDigitValues greatest.old }
    ensures kept { AreSpelled from bytes.old text.now → AreSpelled from bytes.new text.now }
{
    let spelled = spell_step(&text[2 * from..], greatest);
    bytes[from..from + STEP].copy_from_slice(&spelled);
}

/// Writes the bytes of the whole steps before the first pair that is wrong, and returns how many these are.
fn spell_sure(text: &[u8], bytes: &mut [u8; MAX_CHIP_BYTES], pairs: usize) -> usize
    requires digits { 2 * pairs ≤ length text.now }
    requires room { pairs ≤ MAX_CHIP_BYTES }
    ensures spelled { AreSpelled result bytes.new text.now }
    ensures within { result ≤ pairs }
{
    let steps = pairs / STEP;
    for step in 0..steps {
        let mut greatest = [0; STEP_DIGITS];
        write_step(text, bytes, STEP * step, &mut greatest);
        if !are_digit_values(&greatest) {
            return STEP * step;
        }
    }
    STEP * steps
}

/// As [`read_data`], pair by pair from the step with the first pair that is wrong.
fn read_pairs<'a>(
    text: &'a [u8],
    limit: usize,
    bytes: &mut [u8; MAX_CHIP_BYTES],
) -> Result<usize, &'a [u8]>
    requires { 1 ≤ limit × limit ≤ MAX_CHIP_BYTES }
    ensures bytes { result_map_both (λ count. take count bytes.new) (λ rest. rest.now) result ≡ data_at limit text.now }
    ensures within { IfOk result (λ count. count ≤ limit) }
{
    if text.is_empty() {
        return Err(text);
    }
    let pairs = limit.min(text.len() / 2);
    let sure = spell_sure(text, bytes, pairs);
    for place in sure..pairs {
        let byte = pair_value(text[2 * place], text[2 * place + 1]);
        if byte > 0xFF {
            return Err(wrong_digit(&text[2 * place..]));
        }
        bytes[place] = byte as u8;
    }
    let rest = &text[2 * pairs..];
    if rest.is_empty() {
        return Ok(pairs);
    }
    if pairs == limit {
        return Err(rest);
    }
    Err(wrong_digit(rest))
}

/// The text from the first byte that is wrong, where no pair of hexadecimal digits is at its start.
#[tactic(auto, unfolding(crate::specs::LineParts::pair_at, crate::specs::LineParts::hex_digit_at))]
fn wrong_digit(text: &[u8]) -> &[u8]
    requires { is_err (pair_at text.now) ≡ true }
    ensures { pair_at text.now ≡ Err result.now }
{
    match text {
        [high, rest @ ..] if is_hex_digit(*high) => rest,
        _ => text,
    }
}
