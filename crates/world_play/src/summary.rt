//! What a run comes to, and its text.
ghost use Rattle.std.specs.Prelude.{◌≡◌, ◌+◌, ◌≤◌, ◌∷◌, ◌++◌, [], length};
ghost use Rattle.std.specs.Fmt.{decimal};
ghost use Rattle.arrayvec.specs.ArrayVec.{array_vec_len};
ghost use Rattle.answer_text.specs.AnswerText.{line_of};
ghost use Rattle.world_play.specs.SummaryText.{summary_text};

use answer_text::{LINE_ROOM, put, put_number};
use arrayvec::ArrayVec;

/// The most bytes that the text of a summary has room for; the longest has 317.
pub const SUMMARY_ROOM: usize = LINE_ROOM;

/// What a run comes to: eleven counts.
#[derive(Clone, Copy, Default)]
pub struct Summary {
    /// Taps that gave a request.
    pub taps: u64,

    /// New decisions.
    pub fresh: u64,

    /// New decisions that approve.
    pub approved: u64,

    /// Replies that were kept, and given again.
    pub kept: u64,

    /// Lines that were refused.
    pub refused: u64,

    /// Answers that a card found right.
    pub authenticated: u64,

    /// Answers that a card didn't find right.
    pub unauthenticated: u64,

    /// Commands that were queued.
    pub queued: u64,

    /// Commands that the host knows are done, over all cards.
    pub done: u64,

    /// Commands that the cards ran.
    pub ran: u64,

    /// Cards whose scripts the host has halted.
    pub halted: u64,
}

/// Writes the text of a summary, eleven lines of a word, a space and a number, in place of what `out` held.
#[tactic(auto, using(crate::proofs::Text::lines_joined), unfolding(crate::specs::SummaryText::named_counts))]
pub fn write_summary(summary: &Summary, out: &mut ArrayVec<u8, SUMMARY_ROOM>)
    ensures { out.new.items ≡ summary_text summary.now }
{
    out.clear();
    put_line(out, b"taps", summary.taps);
    put_line(out, b"fresh", summary.fresh);
    put_line(out, b"approved", summary.approved);
    put_line(out, b"kept", summary.kept);
    put_line(out, b"refused", summary.refused);
    put_line(out, b"authenticated", summary.authenticated);
    put_line(out, b"unauthenticated", summary.unauthenticated);
    put_line(out, b"queued", summary.queued);
    put_line(out, b"done", summary.done);
    put_line(out, b"ran", summary.ran);
    put_line(out, b"halted", summary.halted);
}

/// A word, a space, the number, and a newline.
fn put_line(out: &mut ArrayVec<u8, SUMMARY_ROOM>, word: &[u8], number: u64)
    requires { array_vec_len out.old + length word.now + 22 ≤ SUMMARY_ROOM }
    ensures text { out.new.items ≡ out.old.items ++ line_of (word.now ∷ decimal number ∷ []) }
    ensures room { array_vec_len out.new ≤ array_vec_len out.old + length word.now + 22 }
{
    put(out, word);
    put_number(out, number);
    out.push(b'\n');
}
