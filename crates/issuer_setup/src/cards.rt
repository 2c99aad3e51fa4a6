//! The cards of an issuer, each with its number.
ghost use Rattle.std.specs.Prelude.{◌≡◌, None, IfOk, IfErr};
ghost use Rattle.issuer_setup.specs.CardIds.{AreNumbersOf};
ghost use Rattle.issuer_setup.specs.CardList.{number_of, bad_card, IsCardsFault, AreCards};

use crate::card::CardInfo;
use crate::card_id::CardId;
use issuer_base::{MAX_CARDS, Pan, is_decimal};
use std::alloc::{AllocError, Global};
use std::collections::HashMap;
use std::marker::Model;

/// Why a list of cards is refused.
#[derive(Clone, Copy, PartialEq, Eq, Debug)]
pub enum CardsFault {
    /// The card of this index has a sequence number that isn't decimal, or the account and sequence
    /// number of an earlier card; or, at 0, there is no card or there are more than 4,096.
    Card(u32),

    /// Out of memory: the map of the cards' numbers could not be allocated.
    NoMemory,
}

impl From<AllocError> for CardsFault {
    ghost use Rattle.std.specs.Prelude.{◌≡◌};
    ghost use Rattle.issuer_setup.specs.declared.cards.CardsFault.TheVariants.{NoMemory};

    ghost from_gives = { λ _ fault. fault ≡ NoMemory };

    fn from(_error: AllocError) -> CardsFault {
        CardsFault::NoMemory
    }
}

/// The cards that an issuer may have: 1 to 4,096, with decimal sequence numbers, no two of one account and
/// sequence number.
///
/// A contract sees the list of them.
#[derive(Drop)]
pub struct Cards {
    kept: Vec<CardInfo>,

    /// The number of each card by its name.
    numbers: HashMap<CardId, u32>,
}

impl Model for Cards {
    ghost use Rattle.std.specs.Prelude.{◌≡◌, List, None};
    ghost use Rattle.issuer_setup.specs.declared.card.CardInfo.{CardInfo};
    ghost use Rattle.issuer_setup.specs.CardIds.{AreNumbersOf};
    ghost use Rattle.issuer_setup.specs.CardList.{bad_card};

    ghost Value = { List CardInfo };

    ghost view = { λ cards. cards.kept.items };

    ghost invariant = { λ cards. (bad_card cards.kept.items ≡ None) × AreNumbersOf cards.kept.items cards.numbers };
}

impl Cards {
    /// These cards, or the first that isn't valid after those before it. Allocates the map of their numbers.
    pub fn new(alloc: Global, cards: Vec<CardInfo>) -> Result<Cards, CardsFault>
        ensures same { IfOk result (λ kept. (bad_card cards.items ≡ None) × (kept ≡ cards.items)) }
        ensures refused { IfErr result (IsCardsFault cards.items) }
    {
        let numbers = number_by_name(alloc, cards.as_slice())?;
        Ok(Cards {
            kept: cards,
            numbers,
        })
    }

    /// The cards, in the order of their numbers.
    pub fn as_slice(&self) -> &[CardInfo]
        ensures same { result.now ≡ self.now }
        ensures valid { AreCards self.now }
    {
        self.kept.as_slice()
    }

    /// The number of the card with this account and sequence number; `None` if no card has them.
    pub(crate) fn find(&self, pan: &Pan, psn: u8) -> Option<u32>
        ensures number { result ≡ number_of (record { pan = pan.now; psn = psn }) self.now }
        ensures valid { AreCards self.now }
    {
        self.numbers.get(&CardId::new(pan, psn)).copied()
    }
}

/// The number of each card by its name, or the first card that isn't valid after those before it.
fn number_by_name(alloc: Global, cards: &[CardInfo]) -> Result<HashMap<CardId, u32>, CardsFault>
    ensures ok { IfOk result (λ numbers. (bad_card cards.now ≡ None) × AreNumbersOf cards.now numbers) }
    ensures refused { IfErr result (IsCardsFault cards.now) }
{
    if cards.is_empty() || cards.len() > MAX_CARDS {
        return Err(CardsFault::Card(0));
    }
    let mut numbers = HashMap::with_capacity(alloc, cards.len())?;
    for (index, card) in cards.iter().enumerate() {
        if !is_decimal(card.psn) {
            return Err(CardsFault::Card(index as u32));
        }
        match numbers.insert(CardId::new(&card.pan, card.psn), index as u32) {
            Ok(None) => {}
            Ok(Some(_)) => return Err(CardsFault::Card(index as u32)),
            Err(_) => return Err(CardsFault::NoMemory),
        }
    }
    Ok(numbers)
}
