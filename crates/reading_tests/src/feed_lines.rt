//! Lines of a feed, and lines that begin with no shard and index.

use arrayvec::ArrayVec;
use feed_text::{FEED_ROOM, read_head, write_feed_line};
use journal_rec::read_entry;
use std::test::Fail;

/// The index and the line of a record, and its feed line in the first shard.
const RECORDS: [(u64, &[u8], &[u8]); 2] = [
    (
        0,
        b"s 4000000000000002ffff 00 3",
        b"0 0 s 4000000000000002ffff 00 3\n",
    ),
    (
        1,
        b"q 4000000000000002ffff 00 84160000",
        b"0 1 q 4000000000000002ffff 00 84160000\n",
    ),
];

/// Lines that begin with a shard, an index and a space each, and what follows.
const HEADS: [(&[u8], u64, u64, &[u8]); 5] = [
    (b"0 0 s", 0, 0, b"s"),
    (b"15 10 ", 15, 10, b""),
    (b"1 2 3 4", 1, 2, b"3 4"),
    (b"999 1  x", 999, 1, b" x"),
    (
        b"0 9223372036854775807 x",
        0,
        9_223_372_036_854_775_807,
        b"x",
    ),
];

/// Lines that don't.
const OTHERS: [(&str, &[u8]); 12] = [
    ("an empty line", b""),
    ("no number", b" 0 x"),
    ("a letter", b"a 0 x"),
    ("a leading zero", b"00 0 x"),
    ("a leading zero of the index", b"0 01 x"),
    ("a sign", b"+0 0 x"),
    ("a sign of the index", b"0 -0 x"),
    ("two spaces", b"0  0 x"),
    ("no second space", b"0 0"),
    ("2^63", b"0 9223372036854775808 x"),
    ("2^64", b"0 18446744073709551616 x"),
    ("no text", b"0\xFF 0 x"),
];

#[test]
fn writes_the_lines_of_two_records(rt: HostRuntime) -> Result<(), Fail> {
    let mut line = ArrayVec::<u8, FEED_ROOM>::new();
    for (place, record, text) in RECORDS {
        let Ok(entry) = read_entry(record) else {
            return Err(Fail::from("a line of no record"));
        };
        write_feed_line(0, place, &entry, &mut line);
        assert_eq!(rt; line.as_slice(), text);
    }
    Ok(())
}

#[test]
fn finds_the_shard_and_the_index(rt: HostRuntime) -> Result<(), Fail> {
    for (line, shard, place, rest) in HEADS {
        let Some(head) = read_head(line) else {
            return Err(Fail::from("a line without a head"));
        };
        assert_eq!(rt; head.shard, shard);
        assert_eq!(rt; head.place, place);
        assert_eq!(rt; head.rest, rest);
    }
    Ok(())
}

#[test]
fn finds_none_in_other_lines(rt: HostRuntime) {
    for (name, line) in OTHERS {
        assert!(rt; read_head(line).is_none(), "{name}");
    }
}
