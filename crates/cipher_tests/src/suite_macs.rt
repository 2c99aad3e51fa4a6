//! The MAC of a card's suite: values of another implementation.

use des_block::Key16;
use issuer_base::Suite;
use key_derive::{MacKey, SuiteRun};

/// Suite, key, text, MAC.
const MACS: [(Suite, u128, &[u8], u64); 6] = [
    (
        Suite::TripleDes,
        0x136E58BD55B0568E_4AA3A47B6E8D6EC7,
        &[],
        0xFAAC713DD3EAF756,
    ),
    (
        Suite::TripleDes,
        0xC40800D751052AEB_10420CF2E46BA362,
        &[0x44],
        0x3F43C7E8433CD304,
    ),
    (
        Suite::TripleDes,
        0x35B0BDFF06E9530E_C0BFB19B621B1EE4,
        &[0x0E, 0x6A, 0xC9, 0x75, 0x47, 0xE2, 0xB7],
        0xB2EFE3609AF2CE8B,
    ),
    (
        Suite::Aes,
        0x3A6E882A490910C6_5A9247406F4F42D8,
        &[],
        0xA5C4D8B7A953CD27,
    ),
    (
        Suite::Aes,
        0x6ABF76D341C88F41_7FD6636262B13B32,
        &[
            0x65, 0xC3, 0xA1, 0x7E, 0x08, 0x00, 0xEE, 0xCC, 0x11, 0xFC, 0x67, 0x26, 0x95, 0x2F,
            0x3F,
        ],
        0x777E6E348C35899F,
    ),
    (
        Suite::Aes,
        0x223064DE49700F83_A1B4E74D9CCFB4CB,
        &[
            0x22, 0x47, 0x16, 0xA6, 0x81, 0xB8, 0x2F, 0x22, 0x10, 0xD5, 0xD7, 0x38, 0xA9, 0x61,
            0x3C, 0x62, 0x9F,
        ],
        0x0AC6102F51147F43,
    ),
];

#[test]
fn each_suite_gives_its_mac_whole_and_in_pieces(rt: HostRuntime) {
    for (suite, key, text, expected) in MACS {
        let expected = expected.to_be_bytes();
        let key = Key16(key.to_be_bytes());
        assert_eq!(rt; MacKey::new(suite, &key).mac(text), expected);
        let mut run = SuiteRun::new(suite, &key);
        for cut in 0..text.len() {
            let (front, back) = text.split_at(cut);
            run.update(front);
            run.update(back);
            assert_eq!(rt; run.take(), expected);
        }
    }
}
