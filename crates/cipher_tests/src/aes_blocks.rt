//! AES and CMAC: published values, values of another implementation, and 1,000 random keys and texts compared with
//! OpenSSL.

use aes_cipher::{Aes, CmacKey, CmacRun, cmac};

/// Key, block, block enciphered: FIPS 197, appendices B and C.1, and eight of another implementation.
const BLOCKS: [(u128, u128, u128); 10] = [
    (
        0x2B7E151628AED2A6_ABF7158809CF4F3C,
        0x3243F6A8885A308D_313198A2E0370734,
        0x3925841D02DC09FB_DC118597196A0B32,
    ),
    (
        0x0001020304050607_08090A0B0C0D0E0F,
        0x0011223344556677_8899AABBCCDDEEFF,
        0x69C4E0D86A7B0430_D8CDB78070B4C55A,
    ),
    (
        0x0071779DA51E8DB9_91CF9E93FAD42EC2,
        0x85BA4D1CFE723E4E_964C51D4C7BC0509,
        0x2E434DAE0A1C3466_9CFB570633A4EE1E,
    ),
    (
        0x0108E03FF1D597B7_0DE752D489FD306E,
        0xD894477A6E8F76FC_A7467EED130C6FE4,
        0xF04A020905E277A6_B86D2C6FA3A53507,
    ),
    (
        0x75C1BE9A6B659AC7_63B62F4D540F442B,
        0x53A38367D889CACB_E12C71FACF19E1B2,
        0x4B026B81A09DCA16_DF55662E6CA49093,
    ),
    (
        0x4D4400E1F4BAAB8A_7B187F845A9BC0E2,
        0x9062500B49405A0B_B4D8D16D408A0649,
        0x3941478980DE2BC5_CE8B2AFC4E88B842,
    ),
    (
        0xEFE408B7D52CFD5C_DF2B87A3A17B151D,
        0x4EEB7C85FA4B4668_84505EFCF38550AE,
        0xB8BB20F5F58CB2FC_61C131A9A70D8920,
    ),
    (
        0x1F1AA103E685CB2E_35845DBA26F28B08,
        0x6B60D89C819CCA9E_4C2A0D476B439A11,
        0x52B7937F2B32BF13_EA6EEC25BEFBCEE6,
    ),
    (
        0x8F725C6AED954B23_25F55A0EEE68049A,
        0x483051BCC83F9673_219E5B9B1B35CD5F,
        0x0CD6184D32790497_CAD4E2430E5C95FF,
    ),
    (
        0xE85FF85E45424591_538626417E8345A8,
        0x53DA4A3627152FD5_0DFFA8B6C4ACCB8E,
        0x6C3E6A59DF7C2EFF_2716714C0B49B0FF,
    ),
];

/// The key of SP 800-38B, appendix D.1.
const KEY: u128 = 0x2B7E151628AED2A6_ABF7158809CF4F3C;

/// Text, its CMAC under that key: the four examples there.
const MACS: [(&[u8], u128); 4] = [
    (&[], 0xBB1D6929E9593728_7FA37D129B756746),
    (
        &[
            0x6B, 0xC1, 0xBE, 0xE2, 0x2E, 0x40, 0x9F, 0x96, 0xE9, 0x3D, 0x7E, 0x11, 0x73, 0x93,
            0x17, 0x2A,
        ],
        0x070A16B46B4D4144_F79BDD9DD04A287C,
    ),
    (
        &[
            0x6B, 0xC1, 0xBE, 0xE2, 0x2E, 0x40, 0x9F, 0x96, 0xE9, 0x3D, 0x7E, 0x11, 0x73, 0x93,
            0x17, 0x2A, 0xAE, 0x2D, 0x8A, 0x57, 0x1E, 0x03, 0xAC, 0x9C, 0x9E, 0xB7, 0x6F, 0xAC,
            0x45, 0xAF, 0x8E, 0x51, 0x30, 0xC8, 0x1C, 0x46, 0xA3, 0x5C, 0xE4, 0x11,
        ],
        0xDFA66747DE9AE630_30CA32611497C827,
    ),
    (
        &[
            0x6B, 0xC1, 0xBE, 0xE2, 0x2E, 0x40, 0x9F, 0x96, 0xE9, 0x3D, 0x7E, 0x11, 0x73, 0x93,
            0x17, 0x2A, 0xAE, 0x2D, 0x8A, 0x57, 0x1E, 0x03, 0xAC, 0x9C, 0x9E, 0xB7, 0x6F, 0xAC,
            0x45, 0xAF, 0x8E, 0x51, 0x30, 0xC8, 0x1C, 0x46, 0xA3, 0x5C, 0xE4, 0x11, 0xE5, 0xFB,
            0xC1, 0x19, 0x1A, 0x0A, 0x52, 0xEF, 0xF6, 0x9F, 0x24, 0x45, 0xDF, 0x4F, 0x9B, 0x17,
            0xAD, 0x2B, 0x41, 0x7B, 0xE6, 0x6C, 0x37, 0x10,
        ],
        0x51F0BEBF7E3B9D92_FC49741779363CFE,
    ),
];

/// The result of `tests/program/cmac_chain`, which uses OpenSSL, over the same 1,000 keys and texts.
const RANDOM: u128 = 0x61241D760B7F63BC_8152DA3F31205894;

#[test]
fn aes_gives_published_and_other_values(rt: HostRuntime) {
    for (key, block, enciphered) in BLOCKS {
        let aes = Aes::new(key.to_be_bytes());
        assert_eq!(rt; aes.encipher(block.to_be_bytes()), enciphered.to_be_bytes());
    }
}

#[test]
fn cmac_gives_the_published_values_whole_and_in_pieces(rt: HostRuntime) {
    let key = KEY.to_be_bytes();
    let ready = CmacKey::new(&key);
    for (text, expected) in MACS {
        let expected = expected.to_be_bytes();
        assert_eq!(rt; cmac(&key, text), expected);
        assert_eq!(rt; ready.cmac(text), expected);
        let mut run = CmacRun::new(&ready);
        for cut in 0..text.len() {
            let (front, back) = text.split_at(cut);
            run.update(front);
            run.update(back);
            assert_eq!(rt; run.take(), expected);
        }
        run.update(text);
        assert_eq!(rt; run.finish(), expected);
    }
}

/// The next state of a linear congruential generator, whose output is the highest byte.
fn next_state(state: u64) -> u64 {
    state
        .wrapping_mul(6364136223846793005)
        .wrapping_add(1442695040888963407)
}

/// Fills bytes from the generator, and returns its state after them.
fn fill(start: u64, bytes: &mut [u8]) -> u64 {
    let mut state = start;
    for byte in bytes.iter_mut() {
        state = next_state(state);
        *byte = (state >> 56) as u8;
    }
    state
}

#[test]
fn random_keys_and_texts_give_what_openssl_gives(rt: HostRuntime) {
    let mut state = 0;
    let mut value: u128 = 0;
    for _ in 0..1000 {
        let mut key = [0; 16];
        state = fill(state, &mut key);
        state = next_state(state);
        let len = ((state >> 56) % 101) as usize;
        let mut text = [0; 100];
        state = fill(state, &mut text[..len]);

        let ready = CmacKey::new(&key);
        let mac = ready.cmac(&text[..len]);
        let (front, back) = text[..len].split_at(len / 3);
        let mut run = CmacRun::new(&ready);
        run.update(front);
        run.update(back);
        assert_eq!(rt; run.finish(), mac);
        value = value.rotate_left(1) ^ u128::from_be_bytes(mac);
        value = value.rotate_left(1) ^ u128::from_be_bytes(ready.cipher().encipher(mac));
    }
    assert_eq!(rt; value, RANDOM);
}
