//! The writer of a feed line.
ghost use Rattle.std.specs.Prelude.{◌≡◌, ◌+◌, ◌<◌, ◌≤◌, [], ◌∷◌, ◌++◌, length, IsTrue};
ghost use Rattle.std.specs.Fmt.{decimal};
ghost use Rattle.arrayvec.specs.ArrayVec.{array_vec_len};
ghost use Rattle.issuer_base.specs.declared.limits.TheConstants.{MAX_SHARDS};
ghost use Rattle.journal_rec.specs.Record.{is_record};
ghost use Rattle.feed_text.specs.FeedText.{feed_line};
ghost use Rattle.feed_text.specs.declared.limits.TheConstants.{MOST_FEED_BYTES, PLACE_END};

use crate::limits::FEED_ROOM;
use arrayvec::ArrayVec;
use issuer_base::Entry;
use itoa::Buffer;
use journal_rec::write_entry;

/// Writes the feed line of the record at this index of the shard's journal to `out`, and replaces its contents. The
/// record meets the condition of `write_entry`.
pub fn write_feed_line(shard: u8, place: u64, entry: &Entry, out: &mut ArrayVec<u8, FEED_ROOM>)
    requires { IsTrue (is_record entry.now) }
    ensures text { out.new.items ≡ feed_line shard place entry.now }
    ensures most { shard < MAX_SHARDS → place < PLACE_END → length out.new.items ≤ MOST_FEED_BYTES }
{
    out.clear();
    put_number(out, u64::from(shard));
    put_number(out, place);
    put(out, write_entry(entry).as_slice());
}

/// Appends the number in decimal digits, and a space.
fn put_number(out: &mut ArrayVec<u8, FEED_ROOM>, number: u64)
    requires { array_vec_len out.old + 21 ≤ FEED_ROOM }
    ensures text { out.new.items ≡ out.old.items ++ decimal number ++ 32 ∷ [] }
    ensures room { array_vec_len out.new ≤ array_vec_len out.old + 21 }
{
    let mut buffer = Buffer::new();
    put(out, buffer.format(number).as_bytes());
    out.push(b' ');
}

/// Appends the text.
fn put(out: &mut ArrayVec<u8, FEED_ROOM>, text: &[u8])
    requires { array_vec_len out.old + length text.now ≤ FEED_ROOM }
    ensures text { out.new.items ≡ out.old.items ++ text.now }
    ensures room { array_vec_len out.new ≡ array_vec_len out.old + length text.now }
{
    out.try_extend_from_slice(text).unwrap();
}
