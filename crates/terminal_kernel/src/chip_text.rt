//! The line that asks for a request's check.
ghost use Rattle.std.specs.Prelude.{◌≡◌};
ghost use Rattle.terminal_kernel.specs.ChipText.{request_line};

use crate::limits::MAX_REQUEST_BYTES;
use crate::requested::request_objects;
use arrayvec::ArrayVec;
use issuer_base::Request;

/// The most bytes of a request's line, which has no newline.
pub const MAX_REQUEST_LINE: usize = 2 + 2 * MAX_REQUEST_BYTES;

/// The line that asks for the check of a request: `A`, a space, and its chip data in lower-case hexadecimal.
#[tactic(auto, unfolding(crate::specs::ChipText::request_line))]
pub fn request_line(request: &Request) -> ArrayVec<u8, MAX_REQUEST_LINE>
    ensures { result.items ≡ request_line request.now }
{
    let data = request_objects(request);
    let mut digits = [0; 2 * MAX_REQUEST_BYTES];
    let digits = &mut digits[..2 * data.len()];
    hex::encode_to_slice(data.as_slice(), digits).unwrap();
    let mut line = ArrayVec::new();
    line.push(b'A');
    line.push(b' ');
    line.try_extend_from_slice(digits).unwrap();
    line
}
