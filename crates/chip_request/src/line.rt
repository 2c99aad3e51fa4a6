//! The three forms of an input line, and the column of the first error in any other line.
ghost use Rattle.std.specs.Prelude.{◌≡◌, ◌≤◌, Result, Err, ℕ, IfOk, true, length, take};
ghost use Rattle.std.specs.Result.{result_map_both};
ghost use Rattle.chip_request.specs.Lines.{ReadsAs};
ghost use Rattle.chip_request.specs.LineParts.{kind_at, line_of, ask_at, queue_at, set_at};
ghost use Rattle.chip_request.specs.declared.line.LineKind.TheVariants.{Ask, Set};
ghost use Rattle.chip_request.specs.InBuffer.{kind_in, is_within};

use crate::line_parts::{read_byte, read_card, read_data, read_last_digit};
use arrayvec::ArrayVec;
use issuer_base::{MAX_CHIP_BYTES, Pan};

/// The most bytes of a command in a `Q` line.
pub const MAX_QUEUE_BYTES: usize = 128;

/// What a line asks for.
#[derive(Drop)]
pub enum LineKind {
    /// The check of a request, with its chip data: `A`, one space, and 1 to 1,024 pairs of hexadecimal digits.
    Ask(ArrayVec<u8, MAX_CHIP_BYTES>),
    /// A command for the queue of a card: `Q`, the account number, the sequence number, and 1 to 128 pairs of
    /// hexadecimal digits, each part after one space.
    Queue {
        pan: Pan,
        /// Two decimal digits, one in each half of the byte.
        psn: u8,
        bytes: ArrayVec<u8, MAX_QUEUE_BYTES>,
    },
    /// A status, 0 to 9, for a card: `S`, the account number, the sequence number and one digit, each part after one
    /// space.
    Set {
        pan: Pan,
        /// Two decimal digits, one in each half of the byte.
        psn: u8,
        status: u8,
    },
}

/// What a line asks for, with its data as the first `count` bytes of the caller's buffer.
#[derive(Drop)]
pub enum LineForm {
    /// As [`LineKind::Ask`].
    Ask {
        count: usize,
    },
    /// As [`LineKind::Queue`].
    Queue {
        pan: Pan,
        /// Two decimal digits, one in each half of the byte.
        psn: u8,
        count: usize,
    },
    /// As [`LineKind::Set`].
    Set {
        pan: Pan,
        /// Two decimal digits, one in each half of the byte.
        psn: u8,
        status: u8,
    },
}

/// Parses a line without its newline. Hexadecimal digits are of either case, an account number has 8 to 19 digits,
/// and a sequence number two.
///
/// A line of another form is refused with a column, counted from 1. It is one more than the length of the line's
/// longest prefix that some line of these forms begins with. So if a line ends too early, its column is just after its
/// last byte.
pub fn read_line(line: &[u8]) -> Result<LineKind, u32>
    ensures reads { ReadsAs line.now result }
    // No other result meets `ReadsAs`.
    ensures only { (other : Result LineKind ℕ) → ReadsAs line.now other → other ≡ result }
    ensures same { result ≡ line_of line.now }
{
    let mut data = [0; MAX_CHIP_BYTES];
    let form = read_line_into(line, &mut data)?;
    Ok(kind_of(form, &data))
}

/// As [`read_line`], with the line's data written to the start of the caller's buffer. The other bytes of the buffer
/// don't matter.
#[tactic(auto, unfolding(crate::specs::LineParts::kind_at, crate::specs::LineParts::line_of))]
#[inline(always)]
pub fn read_line_into(line: &[u8], bytes: &mut [u8; MAX_CHIP_BYTES]) -> Result<LineForm, u32>
    ensures same { result_map_both (kind_in bytes.new) (λ column. column) result ≡ line_of line.now }
    ensures within { IfOk result (λ form. is_within form ≡ true) }
{
    // Each arm returns by itself: the value of a `match` would be one more copy of the form.
    match line {
        [b'A', text @ ..] => match ask_count(text, bytes) {
            Ok(count) => return Ok(LineForm::Ask { count }),
            Err(rest) => return Err(column_of(line, rest)),
        },
        [b'Q', text @ ..] => match queue_form(text, bytes) {
            Ok(form) => return Ok(form),
            Err(rest) => return Err(column_of(line, rest)),
        },
        [b'S', text @ ..] => match read_status(text) {
            Ok((pan, psn, status)) => return Ok(LineForm::Set { pan, psn, status }),
            Err(rest) => return Err(column_of(line, rest)),
        },
        _ => return Err(column_of(line, line)),
    }
}

// The column of a line's first error, where the remainder of the line begins.
fn column_of(line: &[u8], rest: &[u8]) -> u32
    requires { kind_at line.now ≡ Err rest.now }
    ensures { Err result ≡ line_of line.now }
{
    (line.len() - rest.len() + 1) as u32
}

// The line's kind, with its data copied out of the buffer.
fn kind_of(form: LineForm, bytes: &[u8; MAX_CHIP_BYTES]) -> LineKind
    requires { is_within form ≡ true }
    ensures { result ≡ kind_in bytes.now form }
{
    match form {
        LineForm::Ask { count } => LineKind::Ask(vector_of(&bytes[..count])),
        LineForm::Queue { pan, psn, count } => LineKind::Queue {
            pan,
            psn,
            bytes: vector_of(&bytes[..count]),
        },
        LineForm::Set { pan, psn, status } => LineKind::Set { pan, psn, status },
    }
}

fn vector_of<const N: usize>(bytes: &[u8]) -> ArrayVec<u8, N>
    requires { length bytes.now ≤ N }
    ensures { result.items ≡ bytes.now }
{
    ArrayVec::try_from(bytes).unwrap()
}

// The count of the data bytes of an `A` line, from the text after its letter.
#[inline(always)]
fn ask_count<'a>(text: &'a [u8], bytes: &mut [u8; MAX_CHIP_BYTES]) -> Result<usize, &'a [u8]>
    ensures same { result_map_both (λ count. Ask (record { items = take count bytes.new })) (λ rest. rest.now) result
        ≡ ask_at text.now }
    ensures within { IfOk result (λ count. count ≤ MAX_CHIP_BYTES) }
{
    let rest = read_byte(text, b' ')?;
    read_data(rest, MAX_CHIP_BYTES, bytes)
}

// What a `Q` line asks for, from the text after its letter. In a function of its own, its memory isn't cleared for the
// lines of requests; so it is with `read_status`.
#[inline(never)]
fn queue_form<'a>(text: &'a [u8], bytes: &mut [u8; MAX_CHIP_BYTES]) -> Result<LineForm, &'a [u8]>
    ensures same { result_map_both (kind_in bytes.new) (λ rest. rest.now) result ≡ queue_at text.now }
    ensures within { IfOk result (λ form. is_within form ≡ true) }
{
    // As in `read_card`, not by a `?`.
    let (pan, psn, rest) = match read_card(text) {
        Ok(found) => found,
        Err(rest) => return Err(rest),
    };
    let count = read_data(rest, MAX_QUEUE_BYTES, bytes)?;
    Ok(LineForm::Queue { pan, psn, count })
}

// The card and the status of an `S` line, from the text after its letter.
#[inline(never)]
fn read_status(text: &[u8]) -> Result<(Pan, u8, u8), &[u8]>
    ensures same { result_map_both (λ found. Set found.0 found.1 found.2) (λ rest. rest.now) result ≡ set_at text.now }
    ensures within { IfOk result (λ found. found.2 ≤ 9) }
{
    // As in `read_card`, not by a `?`.
    let (pan, psn, rest) = match read_card(text) {
        Ok(found) => found,
        Err(rest) => return Err(rest),
    };
    let status = read_last_digit(rest)?;
    Ok((pan, psn, status))
}
