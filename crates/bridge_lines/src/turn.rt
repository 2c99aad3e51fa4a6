//! Where the lines of a turn end.
ghost use Rattle.std.specs.Prelude.{◌≡◌, ◌<◌, ◌≤◌, ◌+◌, length, IfSome};
ghost use Rattle.bridge_lines.specs.Parts.{cut};
ghost use Rattle.bridge_lines.specs.TurnReading.{followed_by, lines_end, turn_end};

use crate::words::{cut, is_same, number_in, place};

/// Where the first turn of these bytes ends, if it is whole: a line, or the line `message COUNT` and so many lines.
#[tactic(auto, unfolding(crate::specs::TurnReading::turn_end))]
pub fn turn_end(ahead: &[u8]) -> Option<usize>
    ensures end { result ≡ turn_end ahead.now }
    ensures some { IfSome result (λ end. 0 < end) }
    ensures within { IfSome result (λ end. end ≤ length ahead.now) }
{
    let at = place(b'\n', ahead)?;
    let count = followed_by(&ahead[..at]);
    let end = lines_end(count, &ahead[at + 1..])?;
    Some(at + 1 + end)
}

/// How many lines follow this one in its turn.
#[tactic(auto, unfolding(crate::specs::TurnReading::followed_by))]
fn followed_by(line: &[u8]) -> u64
    ensures { result ≡ followed_by (cut 32 line.now) }
{
    match cut(b' ', line) {
        None => 0,
        Some((word, count)) => {
            if is_same(word, b"message") {
                number_in(count).unwrap_or(0)
            } else {
                0
            }
        }
    }
}

/// Where the first lines of a text end, so many of them.
pub(crate) fn lines_end(count: u64, text: &[u8]) -> Option<usize>
    ensures end { result ≡ lines_end count text.now }
    ensures within { IfSome result (λ end. end ≤ length text.now) }
{
    let mut end = 0;
    for i in 0..count {
        let at = place(b'\n', &text[end..])?;
        end += at + 1;
    }
    Some(end)
}
