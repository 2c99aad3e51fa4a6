//! DES, triple DES and the MAC of many blocks and texts at once: values of another implementation.

use des_block::Key16;
use des_lanes::{des_encipher, macs, tdes_encipher};

/// Key, block, block enciphered.
const DES: [(u64, u64, u64); 8] = [
    (0x818A3619502CE870, 0xB2ADE62EA3AA9BA9, 0xF0A6C1EFBB773015),
    (0xDEBEDE6BC86B63EF, 0x21DD7FD7EAB86B94, 0xD77D107F16C16104),
    (0x97B408DBA8807681, 0x144FBAFB663D6EFB, 0x6E0415BEB282279A),
    (0x4F11D6E61BE9DB93, 0x66FDC0E5C413EA01, 0xB95E7306C352FA8F),
    (0xD0940334D7D6EEB6, 0x15869B9FE57B4F45, 0x3325AF6C642F27D4),
    (0x89C0EF539D526A15, 0xD748575326B90A99, 0xF939ACA8F1FD3CAE),
    (0xFBD63F0BEC5B6EB4, 0xC8EA0C00FDF2B266, 0x220494898CCB14AC),
    (0xB011B84C9156784D, 0xB48930E5128E497A, 0xE603AC3DA15C4D0D),
];

/// Both halves of the key, block, block enciphered.
const TRIPLE_DES: [(u128, u64, u64); 8] = [
    (
        0xEA3663A460E29EDF_351FEC31EA3DA0A5,
        0x1D29301EF9445CC9,
        0x8C3C1F304A6AE92C,
    ),
    (
        0x53B1EBD6B1197355_05FC733DBA6F8265,
        0x1F4776ED51D6F360,
        0x8C33FF7A2191E756,
    ),
    (
        0x021EB5B68A4E4CAC_F17F6965D3774ED2,
        0x8E999C4864F677BD,
        0xC667E8B528EA38E7,
    ),
    (
        0xB00BFD78C9262A1A_918D8075953014C5,
        0xEF5A079D2B4CCD81,
        0xA925990BECE2AE98,
    ),
    (
        0xCDA52036DC4A5FD8_1C4F73A29E2477A7,
        0x7BA65CF97910B878,
        0xB6AFD37CC17D1F29,
    ),
    (
        0x10EFBF278669D32C_773433E5E4F16F02,
        0x1FEC40F7FFF1D1C7,
        0xEAFD4FF6F40F7B6A,
    ),
    (
        0x865C0F8F3767929A_597C5C052728DE73,
        0x718D3DE8C22F2A7E,
        0x4188A49B0752D73F,
    ),
    (
        0x429CFBFC5DA1018C_66A87B4E185DBCC7,
        0xDDD849AC56F73C5A,
        0x8887FDF3D9A01407,
    ),
];

/// Keys, texts of 15 bytes and their MACs.
const MACS: [(u128, [u8; 15], u64); 5] = [
    (
        0xFE9146AAED2D9D00_D112B65892AADB6A,
        [
            0x30, 0xDD, 0xEE, 0x66, 0x73, 0xFE, 0xE8, 0xA5, 0x1F, 0x66, 0xA4, 0x59, 0x5A, 0x6F,
            0x57,
        ],
        0x3757368DB406F302,
    ),
    (
        0x2DBD2F3EBBF8488B_27E541C6E3F3993F,
        [
            0x2D, 0x37, 0xC7, 0xAB, 0x07, 0xB4, 0xF2, 0xD4, 0x60, 0xE9, 0x9B, 0x08, 0xF9, 0x17,
            0x0C,
        ],
        0xE0F76978EA4F39F6,
    ),
    (
        0x04E24C49CF9F1E4A_CA51666C22AA84DD,
        [
            0xE3, 0x8C, 0x1F, 0xD7, 0x08, 0x7C, 0xF7, 0xB3, 0x1A, 0xD3, 0x5D, 0x99, 0x6D, 0x37,
            0xBD,
        ],
        0xC75B39D30A71A446,
    ),
    (
        0x783F97FD3F2552E3_89FB1466606C1279,
        [
            0xF0, 0x22, 0x23, 0x48, 0xD7, 0x63, 0xAA, 0x22, 0x0D, 0xBE, 0x81, 0x5D, 0x18, 0x33,
            0xDA,
        ],
        0x6D473A90DB1A21F0,
    ),
    (
        0x6915A2F2D644F086_EEA0CA8F3F440DEB,
        [
            0x56, 0xE5, 0x71, 0x1F, 0x59, 0x85, 0xD6, 0xF0, 0x4E, 0x01, 0x78, 0xF3, 0x38, 0xDA,
            0xB7,
        ],
        0xE8C4547AE935BFC4,
    ),
];

/// Key, text of 70 bytes, MAC.
const LONG: (u128, [u8; 70], u64) = (
    0xD7A9D0928DB04D8D_2C82D07C82D1DBAB,
    [
        0x20, 0xC7, 0x27, 0x65, 0x07, 0xFA, 0x01, 0x7A, 0x38, 0xEB, 0x0E, 0x7E, 0xFD, 0xF0, 0xD7,
        0x7C, 0xEE, 0x4E, 0xC9, 0x91, 0x5A, 0x3A, 0x33, 0xF8, 0x49, 0xB3, 0x4B, 0xF7, 0x37, 0x49,
        0xC0, 0x4E, 0xE1, 0xB0, 0x44, 0xA8, 0xC1, 0x8B, 0xD0, 0xEB, 0xBA, 0x9C, 0xAB, 0xA0, 0x33,
        0x03, 0xA3, 0xED, 0x0C, 0x23, 0x82, 0x70, 0xEE, 0xFD, 0x7E, 0x4E, 0x8A, 0x24, 0x28, 0x5B,
        0xAF, 0xBE, 0xDC, 0x7A, 0x2F, 0x89, 0xBE, 0x9F, 0xBD, 0x08,
    ],
    0x6273CF4B36D7B6C4,
);

/// Key, text of one block, MAC.
const BLOCK: (u128, [u8; 8], u64) = (
    0x702034933699506E_4148CB04A169BB2E,
    [0x32, 0xFC, 0x92, 0x77, 0x9F, 0xE1, 0xE6, 0xC9],
    0x0D23C7FC036A7066,
);

#[test]
fn blocks_are_enciphered_under_their_keys(rt: HostRuntime) {
    let keys = DES.map(|(key, _, _)| key.to_be_bytes());
    let blocks = DES.map(|(_, block, _)| block.to_be_bytes());
    let expected = DES.map(|(_, _, enciphered)| enciphered.to_be_bytes());
    let out = des_encipher(&keys, &blocks);
    assert_eq!(rt; out.as_slice(), expected.as_slice());

    let keys = TRIPLE_DES.map(|(key, _, _)| Key16(key.to_be_bytes()));
    let blocks = TRIPLE_DES.map(|(_, block, _)| block.to_be_bytes());
    let expected = TRIPLE_DES.map(|(_, _, enciphered)| enciphered.to_be_bytes());
    let out = tdes_encipher(&keys, &blocks);
    assert_eq!(rt; out.as_slice(), expected.as_slice());
}

#[test]
fn texts_of_one_length_have_their_macs(rt: HostRuntime) {
    let keys = MACS.map(|(key, _, _)| Key16(key.to_be_bytes()));
    let texts = MACS.map(|(_, text, _)| text);
    let expected = MACS.map(|(_, _, mac)| mac.to_be_bytes());
    let out = macs(&keys, &texts);
    assert_eq!(rt; out.as_slice(), expected.as_slice());
}

// No lane, 63, 65 and all 128.
#[test]
fn any_number_of_lanes_is_allowed(rt: HostRuntime) {
    let (key, text, mac) = LONG;
    let key = Key16(key.to_be_bytes());
    let mac = mac.to_be_bytes();
    let out = macs(&[key; 63], &[text; 63]);
    assert_eq!(rt; out.as_slice(), [mac; 63].as_slice());
    let out = macs(&[key; 128], &[text; 128]);
    assert_eq!(rt; out.as_slice(), [mac; 128].as_slice());

    let (key, text, mac) = BLOCK;
    let key = Key16(key.to_be_bytes());
    let mac = mac.to_be_bytes();
    let out = macs(&[key; 65], &[text; 65]);
    assert_eq!(rt; out.as_slice(), [mac; 65].as_slice());
    let out = macs(&[key; 0], &[text; 0]);
    assert_eq!(rt; out.len(), 0);
}
