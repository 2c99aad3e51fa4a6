//! The line of some bytes.
ghost use Rattle.std.specs.Prelude.{◌≡◌, ◌*◌, ◌<◌, length};
ghost use Rattle.answer_text.specs.AnswerText.{bytes_text, IsLine};

use crate::words::{LINE_ROOM, put_digits};
use arrayvec::ArrayVec;

/// Writes the line of some bytes in hexadecimal digits to `out`, and replaces its contents.
pub fn write_bytes(bytes: &[u8], out: &mut ArrayVec<u8, LINE_ROOM>)
    requires { 2 * length bytes.now < LINE_ROOM }
    ensures text { out.new.items ≡ bytes_text bytes.now }
    ensures line { IsLine out.new.items }
{
    out.clear();
    put_digits(out, bytes);
    out.push(b'\n');
}
