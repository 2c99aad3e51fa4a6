//! Transactions of two cards with triple DES and of one with AES, whose cryptograms, answers and sealed commands are
//! another program's.
ghost use Rattle.std.specs.Prelude.{IsTrue};
ghost use Rattle.std.specs.List.{list_all};
ghost use Rattle.issuer_base.specs.ChipData.{is_bcd};

use card_model::{Card, Terminal};
use issuer_base::Suite;
use issuer_setup::CardInfo;
use key_derive::card_keys;
use sample_issuer::{CARDS, CRYPTOGRAM, SampleCard, card, key_set};
use std::alloc::Global;
use std::test::Fail;

/// The first three commands that the issuer queued for the first card, sealed for its transaction 7.
const COMMANDS: [[u8; 33]; 3] = [
    [
        0x84, 0xDA, 0x00, 0x00, 0x1C, 0x00, 0x00, 0x00, 0x00, 0x00, 0x00, 0x00, 0x00, 0x00, 0x00,
        0x00, 0x00, 0x00, 0x00, 0x00, 0x00, 0x00, 0x00, 0x00, 0x00, 0x38, 0x5A, 0xE2, 0xD8, 0xA0,
        0xAA, 0xC9, 0xF0,
    ],
    [
        0x84, 0xDA, 0x00, 0x00, 0x1C, 0x01, 0x01, 0x01, 0x01, 0x01, 0x01, 0x01, 0x01, 0x01, 0x01,
        0x01, 0x01, 0x01, 0x01, 0x01, 0x01, 0x01, 0x01, 0x01, 0x01, 0xA8, 0x88, 0xDB, 0xFA, 0xCD,
        0xB1, 0x53, 0xE9,
    ],
    [
        0x84, 0xDA, 0x00, 0x00, 0x1C, 0x02, 0x02, 0x02, 0x02, 0x02, 0x02, 0x02, 0x02, 0x02, 0x02,
        0x02, 0x02, 0x02, 0x02, 0x02, 0x02, 0x02, 0x02, 0x02, 0x02, 0xE2, 0x7E, 0x39, 0x41, 0xB9,
        0x1C, 0x3E, 0xEF,
    ],
];

/// The issuer's answer to transaction 7 of the first card, by method 1.
const FIRST_ANSWER: [u8; 10] = [0x02, 0x36, 0x9B, 0xE2, 0x6B, 0x41, 0x61, 0xBC, 0x30, 0x30];

/// The issuer's answer to transaction 7 of the second card, by method 2.
const SECOND_ANSWER: [u8; 8] = [0x70, 0x95, 0x93, 0x4C, 0x00, 0x80, 0x00, 0x00];

/// The issuer's answer to transaction 1 of the first card with AES, by method 1.
const AES_ANSWER: [u8; 10] = [0x6A, 0x33, 0xE8, 0xBB, 0xE8, 0x73, 0x2F, 0xA7, 0x30, 0x30];

const ARC: [u8; 2] = [0x30, 0x30];

/// A purchase over 123.45.
#[tactic(auto, unfolding(issuer_base::specs::ChipData::is_bcd))]
fn purchase() -> Terminal
    ensures { IsTrue (list_all is_bcd result.amount) }
{
    Terminal {
        tvr: [0x00, 0x00, 0x00, 0x80, 0x00],
        date: [0x26, 0x01, 0x15],
        kind: 0x00,
        amount: [0x00, 0x00, 0x00, 0x01, 0x23, 0x45],
        other: [0x00; 6],
        country: [0x02, 0x76],
        currency: [0x09, 0x78],
        un: [0x1A, 0x2B, 0x3C, 0x4D],
    }
}

/// A new card of this suite.
#[tactic(auto, unfolding(issuer_base::specs::ChipData::is_bcd))]
fn new_card(alloc: Global, (last, method): SampleCard, suite: Suite) -> Option<Card> {
    let CardInfo {
        pan,
        psn: _,
        method,
    } = card(last, method)?;
    let set = key_set();
    let keys = card_keys(&set, suite, &pan, 0)?;
    Some(Card::new(alloc, pan, 0, set.dki, method, keys))
}

/// The cryptogram of the last of some taps, and byte 4 of its card verification results.
fn tapped(card: &mut Card, taps: u32) -> Option<(u64, u8)> {
    let terminal = purchase();
    for _ in 1..taps {
        card.tap(&terminal)?;
    }
    let request = card.tap(&terminal)?;
    Some((u64::from_be_bytes(request.parts().ac), request.cvr()[3]))
}

#[test]
fn runs_commands_in_order_and_counts_them(rt: HostRuntime) -> Result<(), Fail> {
    let mut card = new_card(rt.alloc(), CARDS[0], Suite::TripleDes).ok_or("a card")?;
    assert_eq!(rt; tapped(&mut card, 7), Some((CRYPTOGRAM, 0x00)));
    assert!(rt; card.authenticate(&FIRST_ANSWER, ARC));
    assert!(rt; card.run(&COMMANDS[0]) == Ok(true));
    assert!(rt; card.run(&COMMANDS[1]) == Ok(true));
    assert_eq!(rt; card.ran().len(), 2);
    assert_eq!(rt; tapped(&mut card, 1), Some((0x537FA27E_450BDDAC, 0x20)));
    Ok(())
}

#[test]
fn refuses_answers_and_commands_out_of_place(rt: HostRuntime) -> Result<(), Fail> {
    let mut card = new_card(rt.alloc(), CARDS[0], Suite::TripleDes).ok_or("a card")?;
    assert!(rt; !card.authenticate(&FIRST_ANSWER, ARC));
    tapped(&mut card, 7).ok_or("a request")?;
    assert!(rt; card.run(&COMMANDS[0]) == Ok(false));
    assert!(rt; !card.authenticate(&FIRST_ANSWER, [0x30, 0x35]));
    assert!(rt; card.authenticate(&FIRST_ANSWER, ARC));
    assert!(rt; !card.authenticate(&FIRST_ANSWER, ARC));
    for (name, command, runs) in [
        ("in its turn", &COMMANDS[0], true),
        ("twice", &COMMANDS[0], false),
        ("too early", &COMMANDS[2], false),
    ] {
        assert!(rt; card.run(command) == Ok(runs), "{name}");
    }
    let (_, results) = tapped(&mut card, 1).ok_or("a request")?;
    assert_eq!(rt; results, 0x18);
    assert!(rt; !card.authenticate(&FIRST_ANSWER, ARC));
    assert!(rt; card.run(&COMMANDS[1]) == Ok(false));
    Ok(())
}

#[test]
fn takes_an_answer_by_method_2(rt: HostRuntime) -> Result<(), Fail> {
    let mut card = new_card(rt.alloc(), CARDS[1], Suite::TripleDes).ok_or("a card")?;
    assert_eq!(rt; tapped(&mut card, 7), Some((0x1DE2D48E_1E32FA1B, 0x00)));
    assert!(rt; !card.authenticate(&SECOND_ANSWER[..7], ARC));
    assert!(rt; card.authenticate(&SECOND_ANSWER, ARC));
    Ok(())
}

#[test]
fn an_aes_card_takes_its_answer(rt: HostRuntime) -> Result<(), Fail> {
    let mut card = new_card(rt.alloc(), CARDS[0], Suite::Aes).ok_or("a card")?;
    assert_eq!(rt; tapped(&mut card, 1), Some((0x1A8B61EC_7ADC484B, 0x00)));
    assert!(rt; !card.authenticate(&FIRST_ANSWER, ARC));
    assert!(rt; card.authenticate(&AES_ANSWER, ARC));
    assert!(rt; card.run(&COMMANDS[0]) == Ok(false));
    Ok(())
}
