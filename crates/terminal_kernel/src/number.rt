//! Account numbers in chip data.
ghost use Rattle.std.specs.Prelude.{◌≡◌, ◌<◌, ◌≤◌, All, IsTrue, length};
ghost use Rattle.issuer_base.specs.CardNumber.{is_pan};
ghost use Rattle.terminal_kernel.specs.Requested.{number_bytes};

use arrayvec::ArrayVec;
use issuer_base::Pan;

/// The most bytes of an account number, with two digits a byte.
pub(crate) const MAX_NUMBER_BYTES: usize = 10;

/// The nibble after an odd last digit.
const FILLING: u8 = 0xF;

/// An account number in as few bytes as say it.
pub(crate) fn number_bytes(pan: &Pan) -> ArrayVec<u8, MAX_NUMBER_BYTES>
    ensures bytes { result.items ≡ number_bytes pan.now }
    ensures size { length result.items ≤ MAX_NUMBER_BYTES }
    ensures valid { IsTrue (is_pan pan.now) }
{
    paired(pan.digits())
}

fn paired(digits: &[u8]) -> ArrayVec<u8, MAX_NUMBER_BYTES>
    requires size { length digits.now ≤ 19 }
    requires digits { All (λ digit. digit ≤ 9) digits.now }
    ensures bytes { result.items ≡ number_bytes digits.now }
    ensures size { length result.items ≤ MAX_NUMBER_BYTES }
{
    let mut bytes = ArrayVec::new();
    'pairs: for i in 0..digits.len() / 2 {
        bytes.push(16 * digits[2 * i] + digits[2 * i + 1]);
    }
    if digits.len() % 2 == 1 {
        bytes.push(16 * digits[digits.len() - 1] + FILLING);
    }
    bytes
}
