//! An issuer of one shard, and its cards.
ghost use Rattle.std.specs.Prelude.{◌≡◌, MatchOption, ⊤};

use arrayvec::ArrayVec;
use card_model::{Card, Terminal};
use decision_table::{Table, TableRow};
use des_block::Key16;
use issuer_base::{MasterOption, Method, Pan, Suite};
use issuer_setup::{CardInfo, Issuer};
use key_derive::{KeySet, MasterCiphers};
use std::alloc::Global;

/// The terminal data of each request.
pub(crate) const TERMINAL: Terminal = Terminal {
    tvr: [0x00, 0x00, 0x00, 0x80, 0x00],
    date: [0x26, 0x01, 0x15],
    kind: 0x00,
    amount: [0x00, 0x00, 0x00, 0x01, 0x23, 0x45],
    other: [0; 6],
    country: [0x02, 0x76],
    currency: [0x09, 0x78],
    un: [0x1A, 0x2B, 0x3C, 0x4D],
};

/// The only key set.
const KEYS: KeySet = KeySet {
    dki: 0x01,
    option: MasterOption::A,
    ac: Key16([0x11; 16]),
    smi: Key16([0x22; 16]),
    aes: None,
    smc: None,
};

/// The card with this number.
fn info(number: u32) -> Option<CardInfo> {
    let mut digits = [4u8; 16];
    let mut rest = number;
    for digit in digits.iter_mut() {
        *digit = (rest % 10) as u8;
        rest /= 10;
    }
    Some(CardInfo {
        pan: Pan::new(&digits)?,
        psn: 0x00,
        method: Method::One,
    })
}

/// An issuer of one shard and `count` cards, whose table approves every request.
pub(crate) fn issuer(alloc: Global, count: u32) -> Option<Issuer>
    ensures { MatchOption result ⊤ (λ issuer. issuer.shards ≡ 1) }
{
    let mut rows = ArrayVec::new();
    rows.push(TableRow {
        most: 999_999_999_999,
        arc: [0x30, 0x30],
        csu: [0x00, 0x80, 0x00, 0x00],
        approve: true,
        ..TableRow::default()
    });
    let table = Table::new(rows)?;
    let mut keys = ArrayVec::new();
    keys.push(KEYS);
    let mut cards = Vec::new(alloc);
    for number in 0..count {
        cards.push(info(number)?).ok()?;
    }
    let mut issuer = Issuer::new(alloc, 1, keys, cards, table).ok()?;
    issuer.keep_all();
    Some(issuer)
}

/// The first `count` of its cards.
pub(crate) fn cards(alloc: Global, count: u32) -> Option<Vec<Card>> {
    let ciphers = MasterCiphers::new(&KEYS);
    let mut cards = Vec::new(alloc);
    for number in 0..count {
        let CardInfo {
            pan,
            psn: _,
            method,
        } = info(number)?;
        let keys = ciphers.card_keys(Suite::TripleDes, &pan, 0x00)?;
        cards
            .push(Card::new(alloc, pan, 0x00, KEYS.dki, method, keys))
            .ok()?;
    }
    Some(cards)
}
