//! Account numbers, a request, the suites of cards and command-line arguments, against values worked out from the
//! formats by hand.

use issuer_base::{Pan, Parts, Request, Suite, Words};
use std::test::Fail;

const DIGITS: [u8; 16] = [4, 0, 0, 0, 0, 0, 0, 0, 0, 0, 0, 0, 0, 0, 0, 2];

/// Digits, and whether they are those of an account number.
const NUMBERS: [(&[u8], bool); 6] = [
    (&[4, 0, 0, 0, 0, 0, 0], false),
    (&[4, 0, 0, 0, 0, 0, 0, 0], true),
    (&DIGITS, true),
    (&[9; 19], true),
    (&[9; 20], false),
    (&[4, 0, 0, 0, 0, 0, 0, 10], false),
];

#[test]
fn account_numbers_have_8_to_19_digits(rt: HostRuntime) {
    for (digits, valid) in NUMBERS {
        match Pan::new(digits) {
            Some(pan) => assert!(rt; valid && pan.digits() == digits),
            None => assert!(rt; !valid),
        }
    }
}

/// Common core identifiers, and for those of a suite whether it is AES.
const IDENTIFIERS: [(u8, Option<bool>); 4] = [
    (0xA4, None),
    (0xA5, Some(false)),
    (0xA6, Some(true)),
    (0xA7, None),
];

/// The fields of a request with this common core identifier.
fn parts_with(identifier: u8) -> Result<Parts, Fail> {
    let mut iad = [0; 32];
    iad[0] = 0x0F;
    iad[1] = identifier;
    iad[2] = 0x01;
    iad[3] = 0xA0;
    iad[6] = 0x30;
    iad[16] = 0x0F;
    iad[17] = 0x01;
    iad[18] = 0x02;
    Ok(Parts {
        pan: Pan::new(&DIGITS).ok_or("an account number")?,
        psn: 0x00,
        aip: [0x39, 0x00],
        atc: 7,
        tvr: [0x00, 0x00, 0x00, 0x80, 0x00],
        date: [0x26, 0x01, 0x15],
        kind: 0x00,
        amount: [0x00, 0x00, 0x00, 0x01, 0x23, 0x45],
        other: [0; 6],
        country: [0x02, 0x76],
        currency: [0x09, 0x78],
        un: [0x1A, 0x2B, 0x3C, 0x4D],
        cid: 0x80,
        iad,
        ac: [0; 8],
    })
}

#[test]
fn a_requests_fields_are_read(rt: HostRuntime) -> Result<(), Fail> {
    let request = Request::new(parts_with(0xA5)?).ok_or("a request")?;
    assert!(rt; request.is_arqc());
    assert_eq!(rt; request.cvr(), [0xA0, 0x00, 0x00, 0x30, 0x00]);
    assert_eq!(rt; request.dki(), 1);
    assert_eq!(rt; request.script_count(), 3);
    assert_eq!(rt; request.last_online(), 0x0102);
    assert_eq!(rt; request.amount_value(), 12345);
    Ok(())
}

#[test]
fn the_identifier_names_the_suite(rt: HostRuntime) -> Result<(), Fail> {
    for (identifier, is_aes) in IDENTIFIERS {
        match Request::new(parts_with(identifier)?) {
            Some(request) => assert!(rt; is_aes == Some(matches!(request.suite(), Suite::Aes))),
            None => assert!(rt; is_aes.is_none()),
        }
    }
    Ok(())
}

#[test]
fn words_are_kept(rt: HostRuntime) -> Result<(), Fail> {
    let mut words = Words::new(rt.alloc());
    words.push("serve")?;
    words.push("--config")?;
    assert_eq!(rt; words.count(), 2);
    assert_eq!(rt; words.word(1), "--config");
    Ok(())
}
