//! Ciphers, MACs and checks of cryptograms in lanes, beside the same one by one. Each has a key of its own.

use crate::counts::{Counts, one};
use cryptogram_in::{DesChecks, holds};
use des_block::{Des, Key16};
use des_lanes::{LaneBlocks, des_encipher};
use issuer_base::{Pan, Parts, Request, Suite};
use key_derive::{CardKeys, SessionKey};
use retail_mac::mac;
use std::alloc::Global;

/// The first key of DES; each further one is the next number.
const KEY: u64 = 0x13345779_9BBCDFF1;

/// The input of an application cryptogram.
const TEXT: [u8; 65] = [0x5A; 65];

/// Does what the name says with `count` blocks, texts or requests, the last in batches of `size`. Returns a sum of the
/// results. `None` if there is no measurement of that name, or no batch of that size.
pub(crate) fn measure(alloc: Global, name: &str, numbers: [u64; 3]) -> Option<Counts> {
    let [count, size, _] = numbers;
    let sum = match name {
        "des_keyed" => blocks(count),
        "des_in_lanes" => blocks_in_lanes(count),
        "des_through_lanes" => blocks_through_lanes(count),
        "mac" => macs(count),
        "mac_through_lanes" => macs_through_lanes(count),
        "check_alone" => checks(count, requests(alloc, size)?.as_slice()),
        "check_in_lanes" => checks_in_lanes(count, requests(alloc, size)?.as_slice()),
        _ => return None,
    };
    Some(one(sum))
}

/// DES by the table body, with the key schedule of each block.
fn blocks(count: u64) -> u64 {
    let mut block = 0;
    for i in 0..count {
        block = Des::new(KEY.wrapping_add(i).to_be_bytes()).encipher_word(block);
    }
    block
}

/// The bytes of 128 numbers from this one.
fn numbered(from: u64) -> [[u8; 8]; 128] {
    let mut blocks = [[0; 8]; 128];
    for (i, block) in blocks.iter_mut().enumerate() {
        *block = from.wrapping_add(i as u64).to_be_bytes();
    }
    blocks
}

/// The first block as a number.
fn first_of(blocks: &[[u8; 8]]) -> u64 {
    match blocks.first() {
        Some(block) => u64::from_be_bytes(*block),
        None => 0,
    }
}

/// DES with keys and blocks in lanes.
fn blocks_in_lanes(count: u64) -> u64 {
    let keys = LaneBlocks::new(&numbered(KEY));
    let mut blocks = LaneBlocks::new(&numbered(1_000));
    for _ in 0..count / 128 {
        blocks.encipher(&keys);
    }
    first_of(blocks.first(1).as_slice())
}

/// DES from bytes to bytes.
fn blocks_through_lanes(count: u64) -> u64 {
    let mut first = 0;
    for i in 0..count / 128 {
        first = first_of(des_encipher(&numbered(KEY.wrapping_add(i)), &numbered(first)).as_slice());
    }
    first
}

/// The key of 16 equal bytes.
fn key_of(number: u64) -> Key16 {
    Key16([(number % 256) as u8; 16])
}

/// MACs, with both key schedules of each text.
fn macs(count: u64) -> u64 {
    let mut last = 0;
    for i in 0..count {
        last = u64::from_be_bytes(mac(&key_of(i), &TEXT));
    }
    last
}

/// MACs from bytes to bytes.
fn macs_through_lanes(count: u64) -> u64 {
    let mut last = 0;
    for i in 0..count / 128 {
        let keys = [key_of(i); 128];
        last = first_of(des_lanes::macs(&keys, &[TEXT; 128]).as_slice());
    }
    last
}

/// A request, and the master key of its card for application cryptograms, of triple DES.
#[derive(Drop)]
struct KeyedRequest {
    key: Key16,
    request: Request,
}

/// Requests of one card with triple DES keys, with the ATCs from 0.
fn requests(alloc: Global, count: u64) -> Option<Vec<KeyedRequest>> {
    let mut requests = Vec::new(alloc);
    for i in 0..count {
        let entry = KeyedRequest {
            key: key_of(i),
            request: request(u16::try_from(i).ok()?)?,
        };
        requests.push(entry).ok()?;
    }
    Some(requests)
}

/// A request with this ATC.
fn request(atc: u16) -> Option<Request> {
    let mut iad = [0; 32];
    iad[0] = 0x0F;
    iad[1] = 0xA5;
    iad[16] = 0x0F;
    Request::new(Parts {
        pan: Pan::new(&[4; 16])?,
        psn: 0,
        aip: [0x39, 0x00],
        atc,
        tvr: [0x00, 0x00, 0x00, 0x80, 0x00],
        date: [0x26, 0x01, 0x15],
        kind: 0x00,
        amount: [0x00, 0x00, 0x00, 0x01, 0x23, 0x45],
        other: [0; 6],
        country: [0x02, 0x76],
        currency: [0x09, 0x78],
        un: [0x1A, 0x2B, 0x3C, 0x4D],
        cid: 0x80,
        iad,
        ac: [0; 8],
    })
}

/// Checks of cryptograms, each from its card's master key. Returns how many are right.
fn checks(count: u64, requests: &[KeyedRequest]) -> u64 {
    let mut right = 0u64;
    for _ in 0..count / (requests.len() as u64).max(1) {
        for entry in requests {
            right = right.wrapping_add(is_right(entry) as u64);
        }
    }
    right
}

/// Whether a request's cryptogram is right.
fn is_right(entry: &KeyedRequest) -> bool {
    let keys = CardKeys {
        suite: Suite::TripleDes,
        ac: entry.key,
        smi: entry.key,
    };
    let session = SessionKey::for_cryptograms(&keys, entry.request.parts().atc);
    holds(&session, &entry.request)
}

/// The same in batches. Returns how many are right, and 0 if a batch has more than 128.
fn checks_in_lanes(count: u64, requests: &[KeyedRequest]) -> u64 {
    if requests.len() > 128 {
        return 0;
    }
    let mut right = 0u64;
    for _ in 0..count / (requests.len() as u64).max(1) {
        let mut checks = DesChecks::new();
        for entry in requests {
            checks.push(entry.key, &entry.request);
        }
        for session in checks.right_sessions().as_slice() {
            right = right.wrapping_add(session.is_some() as u64);
        }
    }
    right
}
