//! Lists of data objects, read and filled, against rows that were worked by hand with EMV 4.3 Book 3, section 5.4.

use std::alloc::Global;
use std::test::Fail;
use terminal_kernel::{DolEntry, fill, read_data, read_dol};

/// A list, data objects, and the filled list, in hexadecimal.
struct Filled {
    name: &'static str,
    dol: &'static [u8],
    given: &'static [u8],
    filled: &'static [u8],
}

/// A text in hexadecimal that is refused, and where.
struct Refused {
    name: &'static str,
    text: &'static [u8],
    at: usize,
}

const FILLED: [Filled; 21] = [
    Filled {
        name: "every rule in one list",
        dol: b"9F02049F37069F1A035A0A9F3302",
        given: b"9F02060000000123459F37041A2B3C4D9F1A0202765A084000000000000002",
        filled: b"000123451a2b3c4d00000002764000000000000002ffff0000",
    },
    Filled {
        name: "another format is cut on the right",
        dol: b"9F3702",
        given: b"9F37041A2B3C4D",
        filled: b"1a2b",
    },
    Filled {
        name: "another format is filled on the right",
        dol: b"9F3306",
        given: b"9F330360D8C8",
        filled: b"60d8c8000000",
    },
    Filled {
        name: "a value of the same size",
        dol: b"9F3303",
        given: b"9F330360D8C8",
        filled: b"60d8c8",
    },
    Filled {
        name: "n is cut on the left",
        dol: b"9F0203",
        given: b"9F0206000000012345",
        filled: b"012345",
    },
    Filled {
        name: "n is filled on the left",
        dol: b"9F0208",
        given: b"9F0206000000012345",
        filled: b"0000000000012345",
    },
    Filled {
        name: "each n but the amount is filled on the left",
        dol: b"5F34029A049C029F03079F1A035F2A03",
        given: b"5F3401019A032601159C01219F03060000000006789F1A0202765F2A020978",
        filled: b"000100260115002100000000000678000276000978",
    },
    Filled {
        name: "cn is cut on the right",
        dol: b"5A02",
        given: b"5A084761739001010010",
        filled: b"4761",
    },
    Filled {
        name: "cn is filled with FF on the right",
        dol: b"5A0A",
        given: b"5A084761739001010010",
        filled: b"4761739001010010ffff",
    },
    Filled {
        name: "an absent object",
        dol: b"9505",
        given: b"9C0100",
        filled: b"0000000000",
    },
    Filled {
        name: "an absent one of format cn",
        dol: b"5A03",
        given: b"9C0100",
        filled: b"000000",
    },
    Filled {
        name: "a constructed object",
        dol: b"7003",
        given: b"70039C0100",
        filled: b"000000",
    },
    Filled {
        name: "a constructed one with a tag of two bytes",
        dol: b"BF0C02",
        given: b"BF0C0411223344",
        filled: b"0000",
    },
    Filled {
        name: "a tag of three bytes",
        dol: b"DF810103",
        given: b"DF8101020102",
        filled: b"010200",
    },
    Filled {
        name: "one object twice, and no bytes of it",
        dol: b"9C019C009C02",
        given: b"9C0121",
        filled: b"210021",
    },
    Filled {
        name: "an empty list",
        dol: b"",
        given: b"9C0100",
        filled: b"",
    },
    Filled {
        name: "no objects, and padding",
        dol: b"9C01",
        given: b"000000",
        filled: b"00",
    },
    Filled {
        name: "64 entries",
        dol: b"0202020202020202020202020202020202020202020202020202020202020202020202020202020202020202020202020202020202020202020202020202020202020202020202020202020202020202020202020202020202020202020202020202020202020202020202020202020202020202020202020202020202020202",
        given: b"02020102",
        filled: b"0102010201020102010201020102010201020102010201020102010201020102010201020102010201020102010201020102010201020102010201020102010201020102010201020102010201020102010201020102010201020102010201020102010201020102010201020102010201020102010201020102010201020102",
    },
    Filled {
        name: "252 bytes in one entry",
        dol: b"95FC",
        given: b"9500",
        filled: b"000000000000000000000000000000000000000000000000000000000000000000000000000000000000000000000000000000000000000000000000000000000000000000000000000000000000000000000000000000000000000000000000000000000000000000000000000000000000000000000000000000000000000000000000000000000000000000000000000000000000000000000000000000000000000000000000000000000000000000000000000000000000000000000000000000000000000000000000000000000000000000000000000000000000000000000000000000000000000000000000000000000000000000000000",
    },
    Filled {
        name: "252 bytes in two entries",
        dol: b"8280957C",
        given: b"8201FF95017F",
        filled: b"ff000000000000000000000000000000000000000000000000000000000000000000000000000000000000000000000000000000000000000000000000000000000000000000000000000000000000000000000000000000000000000000000000000000000000000000000000000000000000000000000000000000000000007f000000000000000000000000000000000000000000000000000000000000000000000000000000000000000000000000000000000000000000000000000000000000000000000000000000000000000000000000000000000000000000000000000000000000000000000000000000000000000000000000000000",
    },
    Filled {
        name: "a value of 64 bytes",
        dol: b"4040",
        given: b"404040404040404040404040404040404040404040404040404040404040404040404040404040404040404040404040404040404040404040404040404040404040",
        filled: b"40404040404040404040404040404040404040404040404040404040404040404040404040404040404040404040404040404040404040404040404040404040",
    },
];

const BAD_LISTS: [Refused; 9] = [
    Refused {
        name: "a tag of four bytes",
        text: b"9C01DF81818101",
        at: 2,
    },
    Refused {
        name: "a tag that ends in its first byte",
        text: b"95029F",
        at: 2,
    },
    Refused {
        name: "a tag that ends in its second byte",
        text: b"9502DF81",
        at: 2,
    },
    Refused {
        name: "no length",
        text: b"95029F02",
        at: 2,
    },
    Refused {
        name: "65 entries",
        text: b"02020202020202020202020202020202020202020202020202020202020202020202020202020202020202020202020202020202020202020202020202020202020202020202020202020202020202020202020202020202020202020202020202020202020202020202020202020202020202020202020202020202020202020202",
        at: 128,
    },
    Refused {
        name: "a 65th entry that is torn",
        text: b"020202020202020202020202020202020202020202020202020202020202020202020202020202020202020202020202020202020202020202020202020202020202020202020202020202020202020202020202020202020202020202020202020202020202020202020202020202020202020202020202020202020202020202",
        at: 128,
    },
    Refused {
        name: "253 bytes in one entry",
        text: b"95FD",
        at: 0,
    },
    Refused {
        name: "253 bytes in two entries",
        text: b"8280957D",
        at: 2,
    },
    Refused {
        name: "253 bytes before a torn entry",
        text: b"8280957D9F",
        at: 2,
    },
];

const BAD_OBJECTS: [Refused; 6] = [
    Refused {
        name: "a repeated tag",
        text: b"9C01009C0100",
        at: 3,
    },
    Refused {
        name: "a torn object",
        text: b"9C01009C02",
        at: 3,
    },
    Refused {
        name: "a tag of four bytes",
        text: b"9C0100DF8181010100",
        at: 3,
    },
    Refused {
        name: "a value of 65 bytes",
        text: b"9C010041414141414141414141414141414141414141414141414141414141414141414141414141414141414141414141414141414141414141414141414141414141414141",
        at: 3,
    },
    Refused {
        name: "65 objects",
        text: b"0100020003000400050006000700080009000A000B000C000D000E000F0010001100120013001400150016001700180019001A001B001C001D001E0020002100220023002400250026002700280029002A002B002C002D002E002F0030003100320033003400350036003700380039003A003B003C003D003E004000410042004300",
        at: 128,
    },
    Refused {
        name: "a repeated tag before a torn object",
        text: b"9C01009C01009C02",
        at: 3,
    },
];

#[test]
fn a_list_is_filled_by_the_rules(rt: HostRuntime) -> Result<(), Fail> {
    for row in &FILLED {
        let name = row.name;
        let dol = bytes_of(rt.alloc(), row.dol)?;
        let given = bytes_of(rt.alloc(), row.given)?;
        let (Ok(dol), Ok(given)) = (read_dol(&dol), read_data(&given)) else {
            return Err(Fail::from(name));
        };
        let filled = bytes_of(rt.alloc(), row.filled)?;
        assert_eq!(rt;
            fill(dol.as_slice(), &given).as_slice(),
            filled.as_slice(),
            "{name}"
        );
    }
    Ok(())
}

#[test]
fn a_list_is_refused_at_its_first_bad_entry(rt: HostRuntime) -> Result<(), Fail> {
    for row in &BAD_LISTS {
        let name = row.name;
        let bytes = bytes_of(rt.alloc(), row.text)?;
        match read_dol(&bytes) {
            Ok(_) => return Err(Fail::from(name)),
            Err(bad) => assert_eq!(rt; bad.at, row.at, "{name}"),
        }
    }
    Ok(())
}

#[test]
fn objects_are_refused_at_the_first_bad_place(rt: HostRuntime) -> Result<(), Fail> {
    for row in &BAD_OBJECTS {
        let name = row.name;
        let bytes = bytes_of(rt.alloc(), row.text)?;
        match read_data(&bytes) {
            Ok(_) => return Err(Fail::from(name)),
            Err(bad) => assert_eq!(rt; bad.at, row.at, "{name}"),
        }
    }
    Ok(())
}

#[test]
fn entries_and_values_are_found(rt: HostRuntime) -> Result<(), Fail> {
    let Ok(dol) = read_dol(&[0x95, 0x05, 0x9F, 0x02, 0x06, 0xDF, 0x81, 0x01, 0x00]) else {
        return Err(Fail::from("a refused list"));
    };
    let entries = [
        entry(0x95, 5, 0),
        entry(0x9F02, 6, 2),
        entry(0xDF8101, 0, 5),
    ];
    assert_eq!(rt; dol.as_slice(), entries.as_slice());
    let Ok(given) = read_data(&[0x00, 0x9C, 0x01, 0x21, 0xDF, 0x81, 0x01, 0x00]) else {
        return Err(Fail::from("refused objects"));
    };
    let (Some(kind), Some(nothing)) = (given.get(0x9C), given.get(0xDF8101)) else {
        return Err(Fail::from("an absent object"));
    };
    assert_eq!(rt; kind, [0x21].as_slice());
    assert!(rt; nothing.is_empty());
    assert!(rt; given.get(0x21).is_none());
    Ok(())
}

fn entry(tag: u32, length: u8, at: usize) -> DolEntry {
    DolEntry { tag, length, at }
}

fn bytes_of(alloc: Global, text: &[u8]) -> Result<Vec<u8>, Fail> {
    match hex::decode(alloc, text) {
        Ok(bytes) => Ok(bytes),
        Err(_) => Err(Fail::from("not in hexadecimal")),
    }
}
