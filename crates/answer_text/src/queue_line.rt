//! The line that queues a command for a card.
ghost use Rattle.std.specs.Prelude.{◌≡◌, ◌+◌, ◌≤◌, ◌∷◌, ◌++◌};
ghost use Rattle.hex.specs.Hex.{encode_lower};
ghost use Rattle.arrayvec.specs.ArrayVec.{array_vec_len};
ghost use Rattle.issuer_base.specs.ScriptCommand.{command_bytes};
ghost use Rattle.answer_text.specs.AnswerText.{IsLine};
ghost use Rattle.answer_text.specs.QueueText.{queue_text};

use crate::card_words::put_card;
use crate::words::{LINE_ROOM, put, put_digits, put_hex};
use arrayvec::ArrayVec;
use issuer_base::{Command, Pan};

/// Writes the line that queues a command for the card with this account number and this sequence number of two decimal
/// digits to `out`, and replaces its contents.
#[tactic(auto, unfolding(crate::specs::QueueText::queue_text))]
pub fn write_queue(pan: &Pan, psn: u8, command: &Command, out: &mut ArrayVec<u8, LINE_ROOM>)
    ensures text { out.new.items ≡ queue_text pan.now psn command.now }
    ensures line { IsLine out.new.items }
{
    out.clear();
    put(out, b"Q ");
    put_card(out, pan, psn);
    put_command(out, command);
    out.push(b'\n');
}

/// Appends a space, and the command's bytes in hexadecimal digits.
#[tactic(auto, unfolding(hex::specs::Hex::encode_with))]
fn put_command(out: &mut ArrayVec<u8, LINE_ROOM>, command: &Command)
    requires { array_vec_len out.old + 137 ≤ LINE_ROOM }
    ensures text { out.new.items ≡ out.old.items ++ 32 ∷ encode_lower (command_bytes command.now) }
    ensures room { array_vec_len out.new ≤ array_vec_len out.old + 137 }
{
    put_hex(out, &[command.cla, command.ins, command.p1, command.p2]);
    put_digits(out, command.body.as_slice());
}
