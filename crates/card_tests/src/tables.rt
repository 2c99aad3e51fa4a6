//! The rows that decide requests, and rows that form no table.

use arrayvec::ArrayVec;
use decision_table::{MAX_AMOUNT, Table, TableRow, decide, first_bad_row, tells_approval};
use issuer_base::Request;
use sample_issuer::{deciding_table, purchase_parts};
use std::test::Fail;

/// The row that declines every request that no other row decides.
const OTHERWISE: TableRow = TableRow {
    tvr_mask: [0; 5],
    tvr_value: [0; 5],
    cvr_mask: [0; 5],
    cvr_value: [0; 5],
    least: 0,
    most: MAX_AMOUNT,
    status: None,
    arc: [0x30, 0x35],
    approve: false,
    csu: [0; 4],
};

/// A row that tests bits of the terminal verification results.
const BY_TERMINAL: TableRow = TableRow {
    tvr_mask: [0x80, 0, 0, 0, 0x01],
    tvr_value: [0x80, 0, 0, 0, 0x00],
    arc: [0x30, 0x31],
    ..OTHERWISE
};

/// A row that tests bits of the card verification results.
const BY_CARD: TableRow = TableRow {
    cvr_mask: [0x0F, 0, 0, 0, 0],
    cvr_value: [0x04, 0, 0, 0, 0],
    arc: [0x30, 0x32],
    ..OTHERWISE
};

const APPROVAL: TableRow = TableRow {
    csu: [0x80, 0xFF, 0x80, 0x80],
    approve: true,
    ..OTHERWISE
};

/// Its card status update doesn't state the approval.
const UNSAID_APPROVAL: TableRow = TableRow {
    csu: [0x80, 0x7F, 0x80, 0x80],
    approve: true,
    ..OTHERWISE
};

/// A last row that doesn't match the greatest amount.
const SHORT_LAST: TableRow = TableRow {
    most: MAX_AMOUNT - 1,
    ..OTHERWISE
};

/// A request over this amount, with these terminal verification results and A4 first in the card's.
fn request(amount: [u8; 6], tvr: [u8; 5]) -> Option<Request> {
    let mut parts = purchase_parts(1, 0, 0)?;
    parts.amount = amount;
    parts.tvr = tvr;
    parts.iad[3] = 0xA4;
    Request::new(parts)
}

const LIMIT: [u8; 6] = [0x00, 0x00, 0x00, 0x50, 0x00, 0x00];

const ABOVE_LIMIT: [u8; 6] = [0x00, 0x00, 0x00, 0x50, 0x00, 0x01];

/// A card's status, an amount, and the last digit of the response code.
const BY_AMOUNT: [(&str, u8, [u8; 6], u8); 4] = [
    ("the limit", 0, LIMIT, 0x30),
    ("above the limit", 0, ABOVE_LIMIT, 0x35),
    ("a status of its own", 1, LIMIT, 0x36),
    ("another status", 2, [0x99; 6], 0x35),
];

#[test]
fn decides_by_status_and_amount(rt: HostRuntime) -> Result<(), Fail> {
    let table = deciding_table().ok_or("a table")?;
    assert_eq!(rt; table.rows().len(), 3);
    for (name, status, amount, digit) in &BY_AMOUNT {
        let asked = request(*amount, [0; 5]).ok_or("a request")?;
        assert_eq!(rt; decide(&table, *status, &asked).arc[1], *digit, "{name}");
    }
    Ok(())
}

/// Terminal verification results, and the last digit of the response code.
const BY_BITS: [(&str, [u8; 5], u8); 4] = [
    ("as wanted", [0x80, 0, 0, 0, 0x00], 0x31),
    ("other bits too", [0xC0, 0xFF, 0, 0, 0x02], 0x31),
    ("one bit of two", [0x80, 0, 0, 0, 0x01], 0x32),
    ("no bit", [0; 5], 0x32),
];

#[test]
fn decides_by_the_masked_bits(rt: HostRuntime) -> Result<(), Fail> {
    let rows = ArrayVec::try_from([BY_TERMINAL, BY_CARD, OTHERWISE].as_slice())?;
    let table = Table::new(rows).ok_or("a table")?;
    for (name, tvr, digit) in &BY_BITS {
        let asked = request([0; 6], *tvr).ok_or("a request")?;
        assert_eq!(rt; decide(&table, 0, &asked).arc[1], *digit, "{name}");
    }
    Ok(())
}

/// Rows, and the index of the first bad one.
const TABLES: [(&str, &[TableRow], Option<usize>); 4] = [
    ("a table", &[BY_CARD, APPROVAL, OTHERWISE], None),
    (
        "an approval that isn't said",
        &[BY_CARD, UNSAID_APPROVAL, SHORT_LAST],
        Some(1),
    ),
    (
        "a last row that isn't for all",
        &[BY_CARD, APPROVAL, SHORT_LAST],
        Some(2),
    ),
    (
        "an approval alone",
        &[UNSAID_APPROVAL, APPROVAL, OTHERWISE],
        Some(0),
    ),
];

#[test]
fn names_the_first_bad_row(rt: HostRuntime) -> Result<(), Fail> {
    for (name, rows, bad) in &TABLES {
        let table = Table::new(ArrayVec::try_from(*rows)?);
        assert_eq!(rt; first_bad_row(rows), *bad, "{name}");
        assert_eq!(rt; table.is_some(), bad.is_none(), "{name}");
    }
    assert!(rt; first_bad_row(&[]).is_none() && Table::new(ArrayVec::new()).is_none());
    assert!(rt; tells_approval(&APPROVAL) && !tells_approval(&UNSAID_APPROVAL));
    assert!(rt; TableRow::default().most == 0);
    Ok(())
}
