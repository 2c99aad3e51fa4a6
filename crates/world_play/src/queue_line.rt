//! The lines that queue commands.
ghost use Rattle.std.specs.Prelude.{◌≡◌};
ghost use Rattle.chip_request.specs.Lines.{digits_text};
ghost use Rattle.world_play.specs.Setting.{queue_line, six_digits};

use crate::setting::Step;
use arrayvec::ArrayVec;

/// The bytes of the line: a letter, the sixteen digits of the account number, the two of the sequence number, and
/// the sixteen of the command, parted by one space.
const LINE_BYTES: usize = 1 + 17 + 3 + 17;

/// The line that queues a command for the card of a step: the command with this number, which puts data, the
/// step's number in four bytes.
pub(crate) fn queue_line(step: &Step, number: u8) -> ArrayVec<u8, LINE_BYTES>
    ensures { result.items ≡ queue_line step.now number }
{
    let [a, b, c, d] = step.index.to_be_bytes();
    let mut command = [0; 16];
    hex::encode_to_slice(&[0x04, 0xDA, 0x00, number, a, b, c, d], &mut command).unwrap();
    let mut line = ArrayVec::new();
    line.try_extend_from_slice(b"Q 4000000000").unwrap();
    line.try_extend_from_slice(&number_text(step.card)).unwrap();
    line.try_extend_from_slice(b" 00 ").unwrap();
    line.try_extend_from_slice(&command).unwrap();
    line
}

/// The last six digits of a number as text.
fn number_text(number: u32) -> [u8; 6]
    ensures { result ≡ digits_text (six_digits number) }
{
    [
        b'0' + (number / 100_000 % 10) as u8,
        b'0' + (number / 10_000 % 10) as u8,
        b'0' + (number / 1_000 % 10) as u8,
        b'0' + (number / 100 % 10) as u8,
        b'0' + (number / 10 % 10) as u8,
        b'0' + (number % 10) as u8,
    ]
}
