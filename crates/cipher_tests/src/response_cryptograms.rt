//! The issuer's cryptograms and tag 91 by both methods: a worked row, and values of another program, which was compared with
//! OpenSSL. Keys and blocks are numbers, the first byte the highest.

use arpc_methods::{AnswerBatch, AnswerParts, method1, method2, value91};
use des_block::Key16;
use issuer_base::{Method, Suite};

/// Suite, method, session key, application cryptogram, response code, status update, the issuer's cryptogram, the value of tag 91.
const RESPONSES: [(Suite, Method, u128, u64, [u8; 2], [u8; 4], &[u8], &[u8]); 12] = [
    (
        Suite::TripleDes,
        Method::One,
        0x01010101_01010101_01010101_01010101,
        0xB0300000_00000000,
        [0x30, 0x30],
        [0x01, 0x02, 0x03, 0x04],
        &[0x95, 0xF8, 0xA5, 0xE5, 0xDD, 0x31, 0xD9, 0x00],
        &[0x95, 0xF8, 0xA5, 0xE5, 0xDD, 0x31, 0xD9, 0x00, 0x30, 0x30],
    ),
    (
        Suite::TripleDes,
        Method::One,
        0x2B089337_0D31D703_908CD735_44B582AA,
        0x098F9725_29CC5D43,
        [0x29, 0x3A],
        [0x01, 0x02, 0x03, 0x04],
        &[0x36, 0x4B, 0x94, 0x12, 0xB6, 0x2C, 0x1D, 0x42],
        &[0x36, 0x4B, 0x94, 0x12, 0xB6, 0x2C, 0x1D, 0x42, 0x29, 0x3A],
    ),
    (
        Suite::TripleDes,
        Method::One,
        0x1040BF16_CFAC1657_C988B358_1C8C9E9C,
        0x44E76394_1C17DD15,
        [0x51, 0xD1],
        [0x01, 0x02, 0x03, 0x04],
        &[0x2A, 0x03, 0xE4, 0x90, 0x74, 0x24, 0x2C, 0xFB],
        &[0x2A, 0x03, 0xE4, 0x90, 0x74, 0x24, 0x2C, 0xFB, 0x51, 0xD1],
    ),
    (
        Suite::TripleDes,
        Method::One,
        0xF972A7FC_863CE88C_CABE6325_15AE3840,
        0xBD45766A_C5EBB18A,
        [0x95, 0x6D],
        [0x01, 0x02, 0x03, 0x04],
        &[0x36, 0x3F, 0xDD, 0x6E, 0x12, 0x56, 0xE1, 0xF5],
        &[0x36, 0x3F, 0xDD, 0x6E, 0x12, 0x56, 0xE1, 0xF5, 0x95, 0x6D],
    ),
    (
        Suite::TripleDes,
        Method::Two,
        0x0CD2A3DF_7488DEE9_EA8C46D8_A6BA9DCB,
        0x15FC3DF6_AA8CADBA,
        [0x30, 0x30],
        [0xC3, 0x80, 0xA9, 0x42],
        &[0x97, 0x30, 0xF4, 0xCC],
        &[0x97, 0x30, 0xF4, 0xCC, 0xC3, 0x80, 0xA9, 0x42],
    ),
    (
        Suite::TripleDes,
        Method::Two,
        0x92045F7F_7E6F2AB9_A1768779_DC231C2E,
        0xF7041196_7766A086,
        [0x30, 0x30],
        [0xF0, 0x08, 0x64, 0x4B],
        &[0x70, 0x75, 0x57, 0x69],
        &[0x70, 0x75, 0x57, 0x69, 0xF0, 0x08, 0x64, 0x4B],
    ),
    (
        Suite::TripleDes,
        Method::Two,
        0xCBDE401D_A55EE520_0A263A55_CD3E911A,
        0xBBD68F4D_6CDC7B51,
        [0x30, 0x30],
        [0xBA, 0xDF, 0xFC, 0xE8],
        &[0xF0, 0xC3, 0xFD, 0x84],
        &[0xF0, 0xC3, 0xFD, 0x84, 0xBA, 0xDF, 0xFC, 0xE8],
    ),
    (
        Suite::Aes,
        Method::One,
        0x2B7E1516_28AED2A6_ABF71588_09CF4F3C,
        0x30300000_00000000,
        [0x30, 0x30],
        [0x01, 0x02, 0x03, 0x04],
        &[0x7D, 0xF7, 0x6B, 0x0C, 0x1A, 0xB8, 0x99, 0xB3],
        &[0x7D, 0xF7, 0x6B, 0x0C, 0x1A, 0xB8, 0x99, 0xB3, 0x30, 0x30],
    ),
    (
        Suite::Aes,
        Method::One,
        0x6F10857F_CAA71C9F_D196916E_ACB143FD,
        0x66C50C66_04527334,
        [0xDB, 0x39],
        [0x01, 0x02, 0x03, 0x04],
        &[0x46, 0xE1, 0x07, 0x8D, 0x28, 0x35, 0x32, 0x1B],
        &[0x46, 0xE1, 0x07, 0x8D, 0x28, 0x35, 0x32, 0x1B, 0xDB, 0x39],
    ),
    (
        Suite::Aes,
        Method::One,
        0x12A66ED0_34050C0F_F0385D95_F01A2270,
        0x6F987DB5_8FB4AD69,
        [0x4C, 0x40],
        [0x01, 0x02, 0x03, 0x04],
        &[0x5A, 0x18, 0x88, 0xB6, 0x05, 0xDC, 0x1F, 0x44],
        &[0x5A, 0x18, 0x88, 0xB6, 0x05, 0xDC, 0x1F, 0x44, 0x4C, 0x40],
    ),
    (
        Suite::Aes,
        Method::Two,
        0x3AA101D0_CB917721_C5A0EE56_2BDA8815,
        0x9E516009_C7C2844A,
        [0x30, 0x30],
        [0x4F, 0xBE, 0x59, 0xD1],
        &[0x97, 0x1F, 0x64, 0x3F],
        &[0x97, 0x1F, 0x64, 0x3F, 0x4F, 0xBE, 0x59, 0xD1],
    ),
    (
        Suite::Aes,
        Method::Two,
        0x768D091C_4BDE104D_EAC1B510_18BE807F,
        0xC856F7AC_AF6A0089,
        [0x30, 0x30],
        [0x18, 0xAD, 0x8C, 0x71],
        &[0x63, 0xE7, 0xC3, 0xB2],
        &[0x63, 0xE7, 0xC3, 0xB2, 0x18, 0xAD, 0x8C, 0x71],
    ),
];

#[test]
fn responses_are_those_of_another_program(rt: HostRuntime) {
    for (suite, method, key, ac, arc, csu, want, value) in RESPONSES {
        let key = Key16(key.to_be_bytes());
        let ac = ac.to_be_bytes();
        match method {
            Method::One => assert_eq!(rt; method1(suite, &key, &ac, arc).as_slice(), want),
            Method::Two => assert_eq!(rt; method2(suite, &key, &ac, csu).as_slice(), want),
        }
        assert_eq!(rt;
            value91(suite, method, &key, &ac, arc, csu).as_slice(),
            value
        );
    }
}

/// The rows of triple DES, each several times, are made in lanes; the others have indices without an answer.
#[test]
fn responses_made_ahead_are_those_of_another_program(rt: HostRuntime) {
    let mut batch = AnswerBatch::new();
    for index in 0..128 {
        let (suite, method, key, ac, arc, csu, _, _) = RESPONSES[index % 12];
        let parts = parts_of(method, key, ac, arc, csu);
        batch.add(Some(parts).filter(|_| suite.goes_in_lanes()));
    }
    assert!(rt; batch.get(0).is_none());
    batch.make();
    for index in 0..128 {
        let (suite, method, key, ac, arc, csu, _, value) = RESPONSES[index % 12];
        let parts = parts_of(method, key, ac, arc, csu);
        let made = batch
            .get(index)
            .and_then(|made| made.value_for(suite, &parts));
        assert!(rt; made.is_some() == suite.goes_in_lanes());
        if let Some(made) = made {
            assert_eq!(rt; made.as_slice(), value);
        }
    }
}

fn parts_of(method: Method, key: u128, ac: u64, arc: [u8; 2], csu: [u8; 4]) -> AnswerParts {
    AnswerParts {
        method,
        key: Key16(key.to_be_bytes()),
        ac: ac.to_be_bytes(),
        arc,
        csu,
    }
}
