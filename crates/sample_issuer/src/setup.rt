//! An issuer of one key set, whose cards' account numbers differ in their last two digits.
ghost use Rattle.std.specs.Prelude.{◌≡◌, length, IfSome};

use arrayvec::ArrayVec;
use decision_table::{MAX_AMOUNT, Table, TableRow};
use des_block::Key16;
use issuer_base::{MasterOption, Method, Pan};
use issuer_setup::{CardInfo, Issuer};
use key_derive::{AesPair, KeySet};
use std::alloc::Global;

/// A card: the last two digits of its account number, and its ARPC method.
pub type SampleCard = ([u8; 2], Method);

/// Four cards, whose account numbers pass the Luhn test.
pub const CARDS: [SampleCard; 4] = [
    ([0, 2], Method::One),
    ([1, 0], Method::Two),
    ([2, 8], Method::One),
    ([3, 6], Method::One),
];

/// The row that declines every request with the response code 05.
const DECLINE: TableRow = TableRow {
    tvr_mask: [0; 5],
    tvr_value: [0; 5],
    cvr_mask: [0; 5],
    cvr_value: [0; 5],
    least: 0,
    most: MAX_AMOUNT,
    status: None,
    arc: [0x30, 0x35],
    approve: false,
    csu: [0; 4],
};

/// The key set of derivation key index 1, by option A. Both suites have the same keys.
pub fn key_set() -> KeySet {
    let ac = Key16(0x00010203_04050607_08090A0B_0C0D0E0F_u128.to_be_bytes());
    let smi = Key16(0x10111213_14151617_18191A1B_1C1D1E1F_u128.to_be_bytes());
    KeySet {
        dki: 0x01,
        option: MasterOption::A,
        ac,
        smi,
        aes: Some(AesPair { ac, smi }),
        smc: None,
    }
}

/// The card 40000000000000xx whose account number ends with these two digits, of sequence number 0.
pub fn card(last: [u8; 2], method: Method) -> Option<CardInfo> {
    let [tens, ones] = last;
    Some(CardInfo {
        pan: Pan::new(&[4, 0, 0, 0, 0, 0, 0, 0, 0, 0, 0, 0, 0, 0, tens, ones])?,
        psn: 0x00,
        method,
    })
}

/// The table of three rows: it declines a card of status 1 with 06, approves amounts up to 5,000.00 with 00, and
/// declines all else with 05.
pub fn deciding_table() -> Option<Table> {
    let mut rows = ArrayVec::new();
    rows.push(TableRow {
        status: Some(1),
        arc: [0x30, 0x36],
        ..DECLINE
    });
    rows.push(TableRow {
        most: 500_000,
        arc: [0x30, 0x30],
        approve: true,
        csu: [0x00, 0x80, 0x00, 0x00],
        ..DECLINE
    });
    rows.push(DECLINE);
    Table::new(rows)
}

/// The table of one row, which declines every request with 05.
pub fn declining_table() -> Option<Table> {
    let mut rows = ArrayVec::new();
    rows.push(DECLINE);
    Table::new(rows)
}

/// The issuer of the sample key set with `shards` shards, these cards and this table; `None` if they make no issuer.
pub fn issuer(alloc: Global, shards: u8, cards: &[SampleCard], table: Table) -> Option<Issuer>
    ensures shards { IfSome result (λ issuer. issuer.shards ≡ shards) }
    ensures cards { IfSome result (λ issuer. length issuer.cards ≡ length cards.now) }
{
    let mut keys = ArrayVec::new();
    keys.push(key_set());
    let mut infos = Vec::new(alloc);
    for (last, method) in cards {
        infos.push(card(*last, *method)?).ok()?;
    }
    Issuer::new(alloc, shards, keys, infos, table).ok()
}
