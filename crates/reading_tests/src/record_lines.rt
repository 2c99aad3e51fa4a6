//! Lines of records in a journal, and lines of no record.

use arrayvec::ArrayVec;
use issuer_base::{Command, Entry, Pan};
use journal_rec::{read_entry, write_entry};
use std::test::Fail;

/// A request that was approved, of 212 bytes.
const APPROVED: &[u8; 212] =
    b"d 4000000000000002ffff0039000007000000800026011500000000500000000000000000027609781a2b3c4d800fa501a00000000000000000000000000f0000000000000000000000000000004768c8fa75f31625 3030 1 8a023030910a8022f687d456485e3030";

/// A request that was declined.
const DECLINED: &[u8; 212] =
    b"d 4000000000000002ffff0039000008000000800026011500000000012345000000000000027609781a2b3c4d800fa501a00000000000000000000000000f00000000000000000000000000000009b47be3dcca54c3 3036 0 8a023036910a902d3107893ef92b3036";

/// A status, and a command without data.
const STATUS: &[u8] = b"s 4000000000000002ffff 00 3";

const QUEUED: &[u8] = b"q 4000000000000002ffff 00 84160000";

/// Lines of no record.
const OTHER_LINES: [(&str, &[u8]); 23] = [
    ("an empty line", b""),
    ("a letter alone", b"s"),
    ("another letter", b"t 4000000000000002ffff 00 3"),
    ("an upper case letter", b"S 4000000000000002ffff 00 3"),
    ("two spaces", b"s  4000000000000002ffff 00 3"),
    ("seven digits", b"s 4000000fffffffffffff 00 3"),
    ("twenty digits", b"s 40000000000000020000 00 3"),
    ("filled by e", b"s 4000000000000002eeee 00 3"),
    ("filled in upper case", b"s 4000000000000002FFFF 00 3"),
    ("a digit behind f", b"s 4000000000000002ff0f 00 3"),
    ("filled to 19", b"s 4000000000000002fff 00 3"),
    ("filled to 21", b"s 4000000000000002fffff 00 3"),
    ("a number of 0a", b"s 4000000000000002ffff 0a 3"),
    ("no status", b"s 4000000000000002ffff 00 "),
    ("no last field", b"s 4000000000000002ffff 00"),
    ("a status of 10", b"s 4000000000000002ffff 00 10"),
    ("a status of a", b"s 4000000000000002ffff 00 a"),
    ("a trailing space", b"s 4000000000000002ffff 00 3 "),
    ("a newline", b"s 4000000000000002ffff 00 3\n"),
    ("no secure messaging", b"q 4000000000000002ffff 00 80160000"),
    ("another instruction", b"q 4000000000000002ffff 00 84170000"),
    ("no second parameter", b"q 4000000000000002ffff 00 841600"),
    ("upper case", b"q 4000000000000002ffff 00 84DA0000"),
];

/// The offset at which the record of the approved request is changed, and the new byte.
const CHANGES: [(&str, usize, u8); 9] = [
    ("another letter", 0, b's'),
    ("a number of 0a", 23, b'a'),
    ("an amount that is not decimal", 51, b'a'),
    ("upper case in the request", 83, b'A'),
    ("application data of another form", 93, b'e'),
    ("another digit in place of a space", 172, b'0'),
    ("no digit", 173, b'g'),
    ("neither approved nor not", 178, b'2'),
    ("upper case in the reply", 181, b'A'),
];

#[test]
fn records_are_read_and_written(rt: HostRuntime) -> Result<(), Fail> {
    let pan = Pan::new(&[4, 0, 0, 0, 0, 0, 0, 0, 0, 0, 0, 0, 0, 0, 0, 2]).ok_or(
        "an account number",
    )?;
    let status = Entry::Status {
        pan,
        psn: 0,
        status: 3,
    };
    let command = Command {
        cla: 0x84,
        ins: 0x16,
        p1: 0,
        p2: 0,
        body: ArrayVec::new(),
    };
    let queued = Entry::Queued {
        pan,
        psn: 0,
        command,
    };
    let lines: [&[u8]; 4] = [APPROVED, DECLINED, STATUS, QUEUED];
    for line in lines {
        let Ok(entry) = read_entry(line) else {
            return Err(Fail::from("a line of no record"));
        };
        match &entry {
            Entry::Decided { request, reply } => {
                assert_eq!(rt; reply.approve, request.parts().atc == 7);
            }
            Entry::Status { .. } => assert!(rt; entry.is_same(&status)),
            Entry::Queued { .. } => assert!(rt; entry.is_same(&queued)),
        }
        let text = write_entry(&entry);
        assert_eq!(rt; text.as_slice().strip_suffix(b"\n"), Some(line));
    }
    Ok(())
}

#[test]
fn lines_of_no_record_are_refused(rt: HostRuntime) {
    for (name, line) in OTHER_LINES {
        assert!(rt; read_entry(line).is_err(), "{name}");
    }
    for (name, index, byte) in CHANGES {
        let mut line = *APPROVED;
        line[index.min(211)] = byte;
        assert!(rt; read_entry(&line).is_err(), "{name}");
    }
    // The reply is empty, there is no space before it, or it ends with half a byte.
    for length in [180, 179, 211] {
        let (front, _) = APPROVED.split_at(length);
        assert!(rt; read_entry(front).is_err());
    }
}
