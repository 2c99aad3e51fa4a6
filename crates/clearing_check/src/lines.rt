//! The lines of a clearing check.
ghost use Rattle.std.specs.Prelude.{◌≡◌, ◌≤◌, ◌∷◌, ◌++◌, [], length};
ghost use Rattle.std.specs.Fmt.{decimal};
ghost use Rattle.answer_text.specs.AnswerText.{IsLine, line_of};
ghost use Rattle.clearing_check.specs.ClearText.{verdict_text, open_text, total_text};

use crate::verdict::Verdict;
use answer_text::{LINE_ROOM, put, put_number, write_answer};
use arrayvec::ArrayVec;
use issuer_base::Answer;

/// Writes the line of a verdict to `out`, and replaces its contents.
#[tactic(auto, unfolding(crate::specs::ClearText::verdict_text, crate::specs::ClearText::verdict_words, answer_text::specs::AnswerText::printed, answer_text::specs::AnswerText::answer_words))]
pub fn write_verdict(verdict: &Verdict, out: &mut ArrayVec<u8, LINE_ROOM>)
    ensures text { out.new.items ≡ verdict_text verdict.now }
    ensures line { IsLine out.new.items }
{
    match verdict {
        Verdict::Refused(refusal) => write_answer(&Answer::Refused(*refusal), out),
        Verdict::WrongKind => write_words(b"refused 17", out),
        Verdict::Lone => write_words(b"lone", out),
        Verdict::Differs { shard, place } => write_numbers(
            b"differs",
            u64::from(*shard),
            *place,
            out,
        ),
        Verdict::Declined { shard, place } => write_numbers(
            b"declined",
            u64::from(*shard),
            *place,
            out,
        ),
        Verdict::Against { shard, place } => write_numbers(
            b"against",
            u64::from(*shard),
            *place,
            out,
        ),
        Verdict::Certified { shard, place } => write_numbers(
            b"certified",
            u64::from(*shard),
            *place,
            out,
        ),
    }
}

/// Writes the line of an open record to `out`, and replaces its contents: its shard, and its index in the shard's
/// journal.
#[tactic(auto, unfolding(crate::specs::ClearText::open_text))]
pub fn write_open(shard: u8, place: u64, out: &mut ArrayVec<u8, LINE_ROOM>)
    ensures text { out.new.items ≡ open_text (shard, place) }
    ensures line { IsLine out.new.items }
{
    write_numbers(b"open", u64::from(shard), place, out);
}

/// Writes the last line of a clearing check to `out`, and replaces its contents: how many records are certified, and
/// how many are open.
#[tactic(auto, unfolding(crate::specs::ClearText::total_text))]
pub fn write_total(certified: u64, left: u64, out: &mut ArrayVec<u8, LINE_ROOM>)
    ensures text { out.new.items ≡ total_text certified left }
    ensures line { IsLine out.new.items }
{
    write_numbers(b"total", certified, left, out);
}

/// Writes the line of these words.
fn write_words(words: &[u8], out: &mut ArrayVec<u8, LINE_ROOM>)
    requires { length words.now ≤ 16 }
    ensures { out.new.items ≡ words.now ++ 10 ∷ [] }
{
    out.clear();
    put(out, words);
    out.push(b'\n');
}

/// Writes the line of a word and two numbers.
fn write_numbers(word: &[u8], first: u64, second: u64, out: &mut ArrayVec<u8, LINE_ROOM>)
    requires { length word.now ≤ 16 }
    ensures { out.new.items ≡ line_of (word.now ∷ decimal first ∷ decimal second ∷ []) }
{
    out.clear();
    put(out, word);
    put_number(out, first);
    put_number(out, second);
    out.push(b'\n');
}
