//! Books of many records, against a plain search.

use clearing_check::{Filed, FiledRecords};
use std::alloc::Global;
use std::test::Fail;

/// How many records there are: more than two blocks of open records.
const COUNT: u64 = 9_000;

/// The record of this number: of four cards, each with ATCs in a row around a page's end, and some with a great one.
fn record(number: u64) -> Filed {
    Filed {
        card: (number % 4) as u32,
        atc: (number / 4 % 5_000 * 13) as u16,
        amount: [0; 6],
        currency: [0x09, 0x78],
        date: [0x26, 0x01, 0x15],
        un: [0; 4],
        approved: number % 3 != 0,
        shard: (number / 1_000 % 16) as u8,
        place: number,
        certified: false,
    }
}

/// Those records, with every seventh certified.
fn records(alloc: Global) -> Option<FiledRecords> {
    let mut records = FiledRecords::new(alloc, 2).ok()?;
    for number in 0..COUNT {
        records.push(record(number)).ok()?;
    }
    for number in 0..COUNT {
        if number % 7 == 0 {
            let filed = record(number);
            records.certify(filed.card, filed.atc);
        }
    }
    Some(records)
}

/// Whether the record of this number is open after that.
fn is_open(number: u64) -> bool {
    number % 3 != 0 && number % 7 != 0
}

#[test]
fn finds_each_record_and_no_other(rt: HostRuntime) -> Result<(), Fail> {
    let records = records(rt.alloc()).ok_or("records")?;
    for number in 0..COUNT {
        let sought = record(number);
        let found = records.find(sought.card, sought.atc).ok_or("a record")?;
        assert_eq!(rt; found.place, number, "the place of {number}");
        assert_eq!(rt;
            found.certified,
            number % 7 == 0,
            "whether {number} is certified"
        );
    }
    for (name, card, atc) in [
        ("an ATC between two", 0, 14),
        ("an ATC in a page that isn't there", 1, 65_535),
        ("a card with no record", 4, 13),
        ("the greatest card number", u32::MAX, 13),
    ] {
        assert!(rt; records.find(card, atc).is_none(), "{name}");
    }
    Ok(())
}

#[test]
fn lists_the_open_records(rt: HostRuntime) -> Result<(), Fail> {
    let records = records(rt.alloc()).ok_or("records")?;
    for (index, number) in (0..COUNT).filter(|number| is_open(*number)).enumerate() {
        let place = Some((record(number).shard, number));
        assert!(rt; records.left(index as u64) == place, "the record {number}");
    }
    let count = (0..COUNT).filter(|number| is_open(*number)).count() as u64;
    assert!(rt; records.left(count).is_none());
    let mut next = 0;
    for number in (0..COUNT).filter(|number| is_open(*number)) {
        let found = records.next_open(next).ok_or("an open record")?;
        assert!(rt;
            (found.shard, found.place) == (record(number).shard, number),
            "the record {number}"
        );
        next = found.next;
    }
    assert!(rt; records.next_open(next).is_none());
    assert_eq!(rt; records.open_count(), count);
    assert_eq!(rt; records.certified_count(), COUNT.div_ceil(7));
    Ok(())
}
