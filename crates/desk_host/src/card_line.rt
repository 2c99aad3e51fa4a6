//! The line of a card.
ghost use Rattle.std.specs.Prelude.{◌≡◌, ◌+◌, ◌≤◌, ◌∷◌, ◌++◌};
ghost use Rattle.std.specs.List.{join_with_byte};
ghost use Rattle.arrayvec.specs.ArrayVec.{array_vec_len};
ghost use Rattle.issuer_base.specs.ChipData.{digits_of};
ghost use Rattle.chip_request.specs.Lines.{digits_text};
ghost use Rattle.desk_host.specs.CardText.{card_text, counter_word, flight_words};

use answer_text::{LINE_ROOM, put, put_card, put_number};
use arrayvec::ArrayVec;
use card_history::CardView;
use cvr_settle::Flight;
use issuer_base::Pan;

/// The most bytes that the line of a card has room for; the longest has 99.
pub const CARD_ROOM: usize = LINE_ROOM;

/// Writes the line of a card with this account number, this sequence number of two decimal digits and this view, in
/// place of what
/// `out` held.
#[tactic(auto, using(crate::proofs::Joined::line_joined), unfolding(crate::specs::CardText::card_text, crate::specs::CardText::card_words))]
pub fn write_card(pan: &Pan, psn: u8, view: &CardView, out: &mut ArrayVec<u8, CARD_ROOM>)
    ensures { out.new.items ≡ card_text pan.now psn view.now }
{
    out.clear();
    put_card(out, pan, psn);
    put(out, b" hi");
    put_counter(out, view.hi);
    put(out, b" status");
    put_number(out, u64::from(view.status));
    put(out, b" queued");
    put_number(out, u64::from(view.queued));
    put(out, b" done");
    put_number(out, u64::from(view.done));
    put(out, b" flight");
    put_flight(out, view.flight);
    put(out, if view.halted { b" halt" } else { b" ok" });
    out.push(b'\n');
}

fn put_counter(out: &mut ArrayVec<u8, CARD_ROOM>, counter: Option<u16>)
    requires { array_vec_len out.old + 21 ≤ CARD_ROOM }
    ensures text { out.new.items ≡ out.old.items ++ 32 ∷ counter_word counter }
    ensures room { array_vec_len out.new ≤ array_vec_len out.old + 21 }
{
    match counter {
        Some(counter) => put_number(out, u64::from(counter)),
        None => put(out, b" -"),
    }
}

fn put_flight(out: &mut ArrayVec<u8, CARD_ROOM>, flight: Option<Flight>)
    requires { array_vec_len out.old + 42 ≤ CARD_ROOM }
    ensures text { out.new.items ≡ out.old.items ++ 32 ∷ join_with_byte 32 (flight_words flight) }
    ensures room { array_vec_len out.new ≤ array_vec_len out.old + 42 }
{
    match flight {
        Some(flight) => {
            put_number(out, u64::from(flight.counter));
            put_number(out, u64::from(flight.size));
        }
        None => put(out, b" -"),
    }
}
