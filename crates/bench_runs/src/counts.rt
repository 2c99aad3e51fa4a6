//! The numbers of a measurement's line, and those of its answer.
ghost use Rattle.std.specs.Prelude.{◌≡◌};
ghost use Rattle.arrayvec.specs.ArrayVec.{array_vec_len};

use arrayvec::ArrayVec;

/// The numbers of a measurement's result.
pub(crate) type Counts = ArrayVec<u64, 11>;

/// An answer of one number.
pub(crate) fn one(count: u64) -> Counts
    ensures { array_vec_len result ≡ 1 }
{
    let mut counts = ArrayVec::new();
    counts.push(count);
    counts
}

/// An answer of two numbers.
pub(crate) fn two(first: u64, second: u64) -> Counts {
    let mut counts = one(first);
    counts.push(second);
    counts
}

/// The numbers of a line, up to three. One that is absent or malformed is 0.
pub(crate) fn read_numbers(text: &str) -> [u64; 3] {
    let mut numbers = [0; 3];
    let mut rest = text;
    for number in numbers.iter_mut() {
        let (word, after) = first_word(rest);
        *number = word.parse::<u64>().unwrap_or(0);
        rest = after;
    }
    numbers
}

/// The text before the first space, and the text after it.
fn first_word(text: &str) -> (&str, &str) {
    match text.split_once(' ') {
        Some(parts) => parts,
        None => (text, ""),
    }
}
