//! The writer of the parts of lines.
ghost use Rattle.std.specs.Prelude.{◌≡◌, ◌+◌, ◌≤◌, [], ◌∷◌, ◌++◌, length, map, vec_len, vec_capacity};
ghost use Rattle.std.specs.Fmt.{decimal};
ghost use Rattle.bridge_rule.specs.Openings.{barrier_of};
ghost use Rattle.bridge_rule.specs.Bridges.{indexed};
ghost use Rattle.bridge_lines.specs.declared.limits.TheConstants.{MAX_RECORDS};
ghost use Rattle.bridge_lines.specs.Texts.{barrier_words, feed_line, feed_lines};

use crate::limits::MAX_RECORDS;
use bridge_rule::{Opening, Placed};
use itoa::Buffer;

/// Appends a text.
pub(crate) fn put(out: &mut Vec<u8>, text: &[u8])
    requires { vec_len out.old + length text.now ≤ vec_capacity out.old }
    ensures text { out.new.items ≡ out.old.items ++ text.now }
    ensures len { vec_len out.new ≡ vec_len out.old + length text.now }
    ensures room { vec_capacity out.old ≤ vec_capacity out.new }
{
    out.extend_from_slice(text).unwrap();
}

/// Appends a byte.
pub(crate) fn put_byte(out: &mut Vec<u8>, byte: u8)
    requires { vec_len out.old + 1 ≤ vec_capacity out.old }
    ensures text { out.new.items ≡ out.old.items ++ byte ∷ [] }
    ensures len { vec_len out.new ≡ vec_len out.old + 1 }
    ensures room { vec_capacity out.old ≤ vec_capacity out.new }
{
    out.push_reserved(byte);
}

/// Appends a number in decimal digits.
pub(crate) fn put_number(out: &mut Vec<u8>, number: u64)
    requires { vec_len out.old + 20 ≤ vec_capacity out.old }
    ensures text { out.new.items ≡ out.old.items ++ decimal number }
    ensures len { vec_len out.new ≤ vec_len out.old + 20 }
    ensures room { vec_capacity out.old ≤ vec_capacity out.new }
{
    let mut buffer = Buffer::new();
    put(out, buffer.format(number).as_bytes());
}

/// Appends a word, and a space.
pub(crate) fn put_word(out: &mut Vec<u8>, word: &[u8])
    requires { vec_len out.old + length word.now + 1 ≤ vec_capacity out.old }
    ensures text { out.new.items ≡ out.old.items ++ (word.now ++ 32 ∷ []) }
    ensures len { vec_len out.new ≡ vec_len out.old + length word.now + 1 }
    ensures room { vec_capacity out.old ≤ vec_capacity out.new }
{
    put(out, word);
    put_byte(out, b' ');
}

/// Appends a number in decimal digits, and a space.
pub(crate) fn put_number_word(out: &mut Vec<u8>, number: u64)
    requires { vec_len out.old + 21 ≤ vec_capacity out.old }
    ensures text { out.new.items ≡ out.old.items ++ (decimal number ++ 32 ∷ []) }
    ensures len { vec_len out.new ≤ vec_len out.old + 21 }
    ensures room { vec_capacity out.old ≤ vec_capacity out.new }
{
    put_number(out, number);
    put_byte(out, b' ');
}

/// Appends a record's feed line, without its newline.
pub(crate) fn put_feed_line(out: &mut Vec<u8>, one: &Placed)
    requires { vec_len out.old + 1_066 ≤ vec_capacity out.old }
    ensures text { out.new.items ≡ out.old.items ++ feed_line (indexed one.now) }
    ensures len { vec_len out.new ≤ vec_len out.old + 1_066 }
    ensures room { vec_capacity out.old ≤ vec_capacity out.new }
{
    put_number_word(out, u64::from(one.shard));
    put_number_word(out, one.index);
    put(out, one.text.as_slice());
}

/// Appends the feed lines of records.
pub(crate) fn put_feed_lines(out: &mut Vec<u8>, records: &[Placed])
    requires most { length records.now ≤ MAX_RECORDS }
    requires room { vec_len out.old + 106_700 ≤ vec_capacity out.old }
    ensures text { out.new.items ≡ out.old.items ++ feed_lines (map indexed records.now) }
    ensures len { vec_len out.new ≤ vec_len out.old + 106_700 }
    ensures room { vec_capacity out.old ≤ vec_capacity out.new }
{
    for i in 0..records.len() {
        put_feed_line(out, &records[i]);
        put_byte(out, b'\n');
    }
}

/// Appends a barrier's number, its name and its machine's name.
pub(crate) fn put_barrier(out: &mut Vec<u8>, opening: &Opening)
    requires { vec_len out.old + 150 ≤ vec_capacity out.old }
    ensures text { out.new.items ≡ out.old.items ++ barrier_words (barrier_of opening.now) }
    ensures len { vec_len out.new ≤ vec_len out.old + 150 }
    ensures room { vec_capacity out.old ≤ vec_capacity out.new }
{
    put_number_word(out, opening.number);
    put_word(out, opening.name.as_slice());
    put(out, opening.machine.as_slice());
}

/// Appends a shard, and a number.
pub(crate) fn put_shard_number(out: &mut Vec<u8>, shard: u8, number: u64)
    requires { vec_len out.old + 41 ≤ vec_capacity out.old }
    ensures text { out.new.items ≡ out.old.items ++ (decimal shard ++ 32 ∷ decimal number) }
    ensures len { vec_len out.new ≤ vec_len out.old + 41 }
    ensures room { vec_capacity out.old ≤ vec_capacity out.new }
{
    put_number_word(out, u64::from(shard));
    put_number(out, number);
}
