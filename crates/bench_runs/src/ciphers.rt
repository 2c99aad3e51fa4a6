//! Chained blocks of the ciphers.

use aes_cipher::{CmacKey, CmacRun};
use des_block::{Des, Key16, Tdes};

/// Enciphers a block repeatedly by DES, and returns the last block.
pub(crate) fn chained_des(count: u64) -> u64 {
    let des = Des::new([0x13, 0x34, 0x57, 0x79, 0x9B, 0xBC, 0xDF, 0xF1]);
    let mut block = 0;
    for _ in 0..count {
        block = des.encipher_word(block);
    }
    block
}

/// The same by triple DES.
pub(crate) fn chained_tdes(count: u64) -> u64 {
    let tdes = Tdes::new(&Key16([
        0x13, 0x34, 0x57, 0x79, 0x9B, 0xBC, 0xDF, 0xF1, 0x01, 0x23, 0x45, 0x67, 0x89, 0xAB, 0xCD,
        0xEF,
    ]));
    let mut block = 0;
    for _ in 0..count {
        block = tdes.encipher_word(block);
    }
    block
}

/// Computes CMACs over texts of 512 blocks, each beginning with the CMAC of the text before. Returns the halves of the
/// last CMAC.
pub(crate) fn chained_aes(count: u64) -> (u64, u64) {
    let key = CmacKey::new(&[
        0x2B, 0x7E, 0x15, 0x16, 0x28, 0xAE, 0xD2, 0xA6, 0xAB, 0xF7, 0x15, 0x88, 0x09, 0xCF, 0x4F,
        0x3C,
    ]);
    let mut run = CmacRun::new(&key);
    let zeros = [0; 8176];
    let mut mac = 0u128;
    for _ in 0..count / 512 {
        run.update(&mac.to_be_bytes());
        run.update(&zeros);
        mac = u128::from_be_bytes(run.take());
    }
    ((mac >> 64) as u64, (mac & 0xFFFF_FFFF_FFFF_FFFF) as u64)
}
