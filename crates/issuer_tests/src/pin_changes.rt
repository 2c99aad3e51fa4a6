//! A change of a PIN, from the command that writes it to the card that has it.
ghost use Rattle.std.specs.Prelude.{◌≡◌, [], IfSome, IsTrue};
ghost use Rattle.std.specs.List.{list_all};
ghost use Rattle.issuer_base.specs.ChipData.{is_bcd};

use crate::running::{NONE_FAILS, Run, Texts, one_shard, run_at};
use crate::samples::{PIN_CONFIG, REQUEST_7};
use crate::worked_rows::{SERVED, pin_lengths};
use card_model::{Card, Terminal};
use des_block::Key16;
use issuer_base::{OpenGate, Suite};
use issuer_setup::CardInfo;
use key_derive::{KeySet, card_keys, card_smc};
use pin_card::PinCard;
use sample_issuer::{CARDS, card, key_set};
use std::alloc::Global;
use std::test::Fail;
use tlv_objects::Objects;

/// The line that the change to a PIN of four digits writes, served before a request of the card.
static CHANGED: Run = Run {
    name: "a change of a PIN, and a request",
    config: PIN_CONFIG,
    requests: &[
        "Q 4000000000000002 00 842400020000000000000001805487f58f3e41715997853eaa19fa4e\n",
        REQUEST_7,
    ],
    ..SERVED
};

/// The PIN's block in clear, and its digits as bytes, as a journal's text would have them.
const CLEAR: [&str; 3] = ["241234ffffffffff", "01020304", "31323334"];

/// The purchase of the request, over 123.45.
#[tactic(auto, unfolding(issuer_base::specs::ChipData::is_bcd))]
fn purchase() -> Terminal
    ensures { IsTrue (list_all is_bcd result.amount) }
{
    Terminal {
        tvr: [0x00, 0x00, 0x00, 0x80, 0x00],
        date: [0x26, 0x01, 0x15],
        kind: 0x00,
        amount: [0x00, 0x00, 0x00, 0x01, 0x23, 0x45],
        other: [0x00; 6],
        country: [0x02, 0x76],
        currency: [0x09, 0x78],
        un: [0x1A, 0x2B, 0x3C, 0x4D],
    }
}

/// The first card, with the master key for confidentiality that the configuration gives it.
#[tactic(auto, unfolding(issuer_base::specs::ChipData::is_bcd, card_model::specs::CardSteps::new_card))]
fn pin_card(alloc: Global) -> Option<PinCard> {
    let (last, method) = CARDS[0];
    let CardInfo { pan, .. } = card(last, method)?;
    let issuers = Key16(0x20212223_24252627_28292A2B_2C2D2E2F_u128.to_be_bytes());
    let set = KeySet {
        smc: Some(issuers),
        ..key_set()
    };
    let keys = card_keys(&set, Suite::TripleDes, &pan, 0x00)?;
    let smc = card_smc(&set, &pan, 0x00)?;
    let card = Card::new(alloc, pan, 0x00, set.dki, method, keys);
    Some(PinCard::new(card, smc))
}

/// Gives the card a reply: its value of tag 91, with the response code, and then each command of its template.
fn give(card: &mut PinCard, reply: &[u8]) -> Result<(), Fail> {
    for object in Objects::new(reply) {
        let Ok(object) = object else {
            return Err(Fail::from("a torn reply"));
        };
        match object.tag {
            0x91 => {
                card.authenticate(object.value, [0x30, 0x30]);
            }
            0x71 | 0x72 => run_all(card, object.value)?,
            _ => {}
        }
    }
    Ok(())
}

/// Runs the commands of a template.
fn run_all(card: &mut PinCard, template: &[u8]) -> Result<(), Fail> {
    for object in Objects::new(template) {
        if let Ok(object) = object {
            if object.tag == 0x86 {
                card.run(object.value)?;
            }
        }
    }
    Ok(())
}

#[test]
fn reaches_the_card_and_no_journal_in_clear(rt: HostRuntime) -> Result<(), Fail> {
    let alloc = rt.alloc();
    let mut journals = one_shard(alloc, &[], &[])?;
    let change = pin_lengths().first().ok_or("a change")?;
    let (status, line) = run_at(&rt, change, &NONE_FAILS, &mut journals, &OpenGate)?;
    assert!(rt; status == 0 && line.as_str() == CHANGED.requests[0]);
    let (status, answers) = run_at(&rt, &CHANGED, &NONE_FAILS, &mut journals, &OpenGate)?;
    assert_eq!(rt; status, 0);
    let text = answers.trim_end().rsplit(' ').next().ok_or("a reply")?;
    let reply = hex::decode(alloc, text)?;
    let mut card = pin_card(alloc).ok_or("a card")?;
    for _ in 0..7 {
        assert!(rt; card.tap(&purchase()).is_some());
    }
    assert!(rt; card.pin().is_none());
    give(&mut card, reply.as_slice())?;
    let pin = card.pin().ok_or("a PIN")?;
    assert!(rt; pin.digits() == [1, 2, 3, 4].as_slice());
    for journal in journals.stores.iter() {
        let text = std::str::from_utf8(journal.as_slice())?;
        for clear in CLEAR {
            assert!(rt; !text.contains(clear), "{clear}");
        }
    }
    Ok(())
}
