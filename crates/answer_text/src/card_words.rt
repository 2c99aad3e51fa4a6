//! The two words that name a card.
ghost use Rattle.std.specs.Prelude.{◌≡◌, ◌+◌, ◌≤◌, ◌∷◌, ◌++◌};
ghost use Rattle.arrayvec.specs.ArrayVec.{array_vec_len};
ghost use Rattle.issuer_base.specs.ChipData.{digits_of};
ghost use Rattle.chip_request.specs.Lines.{digits_text};

use crate::words::LINE_ROOM;
use arrayvec::ArrayVec;
use issuer_base::Pan;

/// Appends the account number and the sequence number of a card, with a space between them. The line needs room for
/// them.
pub fn put_card(out: &mut ArrayVec<u8, LINE_ROOM>, pan: &Pan, psn: u8)
    requires { array_vec_len out.old + 22 ≤ LINE_ROOM }
    ensures text { out.new.items ≡ out.old.items ++ digits_text pan.now ++ 32 ∷ digits_text (digits_of psn) }
    ensures room { array_vec_len out.new ≤ array_vec_len out.old + 22 }
{
    put_pan(out, pan);
    out.push(b' ');
    out.push(b'0' + psn / 16);
    out.push(b'0' + psn % 16);
}

fn put_pan(out: &mut ArrayVec<u8, LINE_ROOM>, pan: &Pan)
    requires { array_vec_len out.old + 19 ≤ LINE_ROOM }
    ensures text { out.new.items ≡ out.old.items ++ digits_text pan.now }
    ensures room { array_vec_len out.new ≤ array_vec_len out.old + 19 }
{
    let digits = pan.digits();
    for digit in digits {
        out.push(b'0' + *digit);
    }
}
