//! What a run is set up with: its own issuer, the issuer's cards, and the terminals.
ghost use Rattle.std.specs.Prelude.{◌≡◌, ◌<◌, ◌≤◌, IfOk, IsTrue};
ghost use Rattle.std.specs.List.{list_all};
ghost use Rattle.issuer_base.specs.ChipData.{is_bcd};
ghost use Rattle.issuer_base.specs.declared.limits.TheConstants.{MAX_CARDS};
ghost use Rattle.world_play.specs.Setting.{card_info, table, issuer, terminal_of, step_of, six_digits};

use arrayvec::ArrayVec;
use card_model::Terminal;
use decision_table::{MAX_AMOUNT, Table, TableRow};
use des_block::Key16;
use issuer_base::{MasterOption, Method, NoMemory, Pan};
use issuer_setup::{CardInfo, Issuer};
use key_derive::KeySet;
use std::alloc::Global;

/// How many shards the issuer has.
pub(crate) const SHARDS: u8 = 4;

/// The sequence number of every card.
pub(crate) const PSN: u8 = 0x00;

/// The only key set.
pub(crate) const KEY_SET: KeySet = KeySet {
    dki: 0x01,
    option: MasterOption::A,
    ac: Key16([
        0x00, 0x01, 0x02, 0x03, 0x04, 0x05, 0x06, 0x07, 0x08, 0x09, 0x0A, 0x0B, 0x0C, 0x0D, 0x0E,
        0x0F,
    ]),
    smi: Key16([
        0x10, 0x11, 0x12, 0x13, 0x14, 0x15, 0x16, 0x17, 0x18, 0x19, 0x1A, 0x1B, 0x1C, 0x1D, 0x1E,
        0x1F,
    ]),
    aes: None,
    smc: None,
};

/// The row that declines a request over a great amount.
const DECLINES: TableRow = TableRow {
    tvr_mask: [0; 5],
    tvr_value: [0; 5],
    cvr_mask: [0; 5],
    cvr_value: [0; 5],
    least: 500_000,
    most: MAX_AMOUNT,
    status: None,
    arc: [0x30, 0x35],
    approve: false,
    csu: [0x00; 4],
};

/// The row that approves every other request.
const APPROVES: TableRow = TableRow {
    tvr_mask: [0; 5],
    tvr_value: [0; 5],
    cvr_mask: [0; 5],
    cvr_value: [0; 5],
    least: 0,
    most: MAX_AMOUNT,
    status: None,
    arc: [0x30, 0x30],
    approve: true,
    csu: [0x00, 0x80, 0x00, 0x00],
};

/// A step of a run: its number from 0, its card and round, and the run's seed.
#[derive(Clone, Copy)]
pub(crate) struct Step {
    pub(crate) index: u32,
    pub(crate) card: u32,
    pub(crate) round: u32,
    pub(crate) seed: u32,
}

/// The step with this number of a run of so many cards with this seed.
pub(crate) fn step_of(index: u32, cards: u32, seed: u32) -> Step
    requires { 1 ≤ cards }
    ensures { result ≡ step_of index cards seed }
{
    Step {
        index,
        card: index % cards,
        round: index / cards,
        seed,
    }
}

/// What the terminal of a step gives: an amount of 10.00 in even rounds and of 9,000.00 in odd ones, and an
/// unpredictable number of its own.
#[tactic(auto, unfolding(issuer_base::specs::ChipData::is_bcd))]
pub(crate) fn terminal_of(step: &Step) -> Terminal
    ensures exact { result ≡ terminal_of step.now }
    ensures decimal { IsTrue (list_all is_bcd result.amount) }
{
    let amount = if step.round % 2 == 0 {
        [0x00, 0x00, 0x00, 0x00, 0x10, 0x00]
    } else {
        [0x00, 0x00, 0x00, 0x90, 0x00, 0x00]
    };
    Terminal {
        tvr: [0x00, 0x00, 0x00, 0x80, 0x00],
        date: [0x26, 0x01, 0x15],
        kind: 0x00,
        amount,
        other: [0x00; 6],
        country: [0x02, 0x76],
        currency: [0x09, 0x78],
        un: step.seed.wrapping_add(step.index).to_be_bytes(),
    }
}

/// The last six digits of a number, the most significant first.
pub(crate) fn six_digits(number: u32) -> [u8; 6]
    ensures { result ≡ six_digits number }
{
    [
        (number / 100_000 % 10) as u8,
        (number / 10_000 % 10) as u8,
        (number / 1_000 % 10) as u8,
        (number / 100 % 10) as u8,
        (number / 10 % 10) as u8,
        (number % 10) as u8,
    ]
}

/// The card with this number: its account number ends with the number, and it takes the issuer's answer by
/// method 1 if that is even.
#[tactic(auto, using(crate::proofs::Numbers::number_pan))]
pub(crate) fn card_info(number: u32) -> CardInfo
    ensures { result ≡ card_info number }
{
    let [a, b, c, d, e, f] = six_digits(number);
    let digits = [4, 0, 0, 0, 0, 0, 0, 0, 0, 0, a, b, c, d, e, f];
    let method = if number % 2 == 0 {
        Method::One
    } else {
        Method::Two
    };
    CardInfo {
        pan: Pan::new(&digits).unwrap(),
        psn: PSN,
        method,
    }
}

/// The decision table: a great amount is declined, any other approved.
#[tactic(auto, unfolding(decision_table::specs::Tables::table_from, decision_table::specs::Tables::is_table, decision_table::specs::Tables::takes_all, decision_table::specs::Tables::tells_approval))]
fn table() -> Table
    ensures { result ≡ table }
{
    let mut rows = ArrayVec::new();
    rows.push(DECLINES);
    rows.push(APPROVES);
    Table::new(rows).unwrap()
}

/// The issuer of so many cards.
pub(crate) fn issuer(alloc: Global, cards: u32) -> Result<Issuer, NoMemory>
    ensures { IfOk result (λ made. made ≡ issuer cards) }
{
    let mut infos = Vec::with_capacity(alloc, cards as usize)?;
    for number in 0..cards {
        infos.push_reserved(card_info(number));
    }
    let mut keys = ArrayVec::new();
    keys.push(KEY_SET);
    match Issuer::new(alloc, SHARDS, keys, infos, table()) {
        Ok(issuer) => Ok(issuer),
        Err(_) => Err(NoMemory),
    }
}
