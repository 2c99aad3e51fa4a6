//! The line of a shard's number of records.
ghost use Rattle.std.specs.Prelude.{◌≡◌};
ghost use Rattle.answer_text.specs.AnswerText.{IsLine};
ghost use Rattle.answer_text.specs.CountText.{count_text};

use crate::words::{LINE_ROOM, put, put_number};
use arrayvec::ArrayVec;
use itoa::Buffer;

/// Writes the line of a shard and of how many records it has to `out`, and replaces its contents.
#[tactic(auto, unfolding(crate::specs::CountText::count_text))]
pub fn write_count(shard: u8, count: u64, out: &mut ArrayVec<u8, LINE_ROOM>)
    ensures text { out.new.items ≡ count_text shard count }
    ensures line { IsLine out.new.items }
{
    out.clear();
    let mut buffer = Buffer::new();
    put(out, buffer.format(shard).as_bytes());
    put_number(out, count);
    out.push(b'\n');
}
