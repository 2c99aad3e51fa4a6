//! PIN blocks, enciphered texts that are opened, and PIN changes. Keys and blocks are numbers, the first byte the highest.

use arrayvec::ArrayVec;
use des_block::Key16;
use issuer_base::Command;
use pin_card::read_pin;
use retail_mac::cbc_open;
use secure_msg::{Pin, pin_block, pin_command};
use std::test::Fail;

/// The digits of which the PINs are the first ones.
const DIGITS: [u8; 12] = [1, 2, 3, 4, 5, 6, 7, 8, 9, 0, 1, 2];

/// How many digits a PIN has, and its block.
const BLOCKS: [(usize, u64); 9] = [
    (4, 0x241234FF_FFFFFFFF),
    (5, 0x2512345F_FFFFFFFF),
    (6, 0x26123456_FFFFFFFF),
    (7, 0x27123456_7FFFFFFF),
    (8, 0x28123456_78FFFFFF),
    (9, 0x29123456_789FFFFF),
    (10, 0x2A123456_7890FFFF),
    (11, 0x2B123456_78901FFF),
    (12, 0x2C123456_789012FF),
];

/// Texts that are opened under a key of sixteen bytes 01, and what they open to.
const OPENED: [(&str, &[u8], Option<&[u8]>); 6] = [
    (
        "an empty message",
        &[0x95, 0xF8, 0xA5, 0xE5, 0xDD, 0x31, 0xD9, 0x00],
        Some(&[]),
    ),
    (
        "a message of one block",
        &[
            0x00, 0x00, 0x00, 0x00, 0x00, 0x00, 0x00, 0x00, 0x95, 0xF8, 0xA5, 0xE5, 0xDD, 0x31,
            0xD9, 0x00,
        ],
        Some(&[0x8C, 0xA6, 0x4D, 0xE9, 0xC1, 0xB1, 0x23, 0xA7]),
    ),
    (
        "a block without padding",
        &[0x8C, 0xA6, 0x4D, 0xE9, 0xC1, 0xB1, 0x23, 0xA7],
        None,
    ),
    ("no block", &[], None),
    (
        "a block that isn't whole",
        &[0x95, 0xF8, 0xA5, 0xE5, 0xDD, 0x31, 0xD9],
        None,
    ),
    (
        "a block and a byte",
        &[0x95, 0xF8, 0xA5, 0xE5, 0xDD, 0x31, 0xD9, 0x00, 0x00],
        None,
    ),
];

#[test]
fn has_the_block_of_each_number_of_digits(rt: HostRuntime) -> Result<(), Fail> {
    for (count, block) in BLOCKS {
        let pin = Pin::new(&DIGITS[..count]).ok_or("a PIN")?;
        assert_eq!(rt; u64::from_be_bytes(pin_block(&pin)), block);
    }
    for count in [0, 3] {
        assert!(rt; Pin::new(&DIGITS[..count]).is_none(), "{count} digits");
    }
    assert!(rt; Pin::new(&[0; 13]).is_none(), "13 digits");
    assert!(rt; Pin::new(&[1, 2, 3, 10]).is_none(), "a digit above 9");
    Ok(())
}

#[test]
fn opens_what_was_enciphered_and_nothing_else(rt: HostRuntime) -> Result<(), Fail> {
    let key = Key16([0x01; 16]);
    for (name, text, message) in OPENED {
        let mut out = ArrayVec::new();
        let opens = cbc_open(&key, text, &mut out);
        assert_eq!(rt; opens, message.is_some(), "{name}");
        assert!(rt; out.as_slice() == message.unwrap_or(&[]), "{name}");
    }
    Ok(())
}

#[test]
fn reads_each_pin_from_its_change_and_from_no_other(rt: HostRuntime) -> Result<(), Fail> {
    let smc = Key16(0x20212223_24252627_28292A2B_2C2D2E2F_u128.to_be_bytes());
    let other = Key16(0x20212223_24252627_28292A2B_2C2D2E40_u128.to_be_bytes());
    for (count, _block) in BLOCKS {
        let digits = &DIGITS[..count];
        let pin = Pin::new(digits).ok_or("a PIN")?;
        let command = pin_command(&smc, [0x5A; 8], &pin);
        let read = read_pin(&smc, &command).ok_or("a PIN change")?;
        assert!(rt; read.digits() == digits, "{count} digits");
        assert!(rt; read_pin(&other, &command).is_none(), "another key");
        let unblock = Command {
            p2: 0x00,
            ..command
        };
        assert!(rt; read_pin(&smc, &unblock).is_none(), "another parameter");
    }
    Ok(())
}
