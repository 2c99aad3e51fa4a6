//! An issuer: its shards, its key sets, its cards with their master keys, and its decision table.
ghost use Rattle.std.specs.Prelude.{◌≡◌, ◌%◌, ◌<◌, true, None, Some, length, slice_get, IsSome, MatchOption, IfOk, IfErr};
ghost use Rattle.std.specs.Option.{option_map};
ghost use Rattle.issuer_base.specs.CardNames.{CardName};
ghost use Rattle.issuer_setup.specs.Shards.{are_shards};
ghost use Rattle.issuer_setup.specs.KeyList.{bad_key, key_of, AreKeys};
ghost use Rattle.issuer_setup.specs.CardList.{number_of, bad_card, AreCards};
ghost use Rattle.issuer_setup.specs.IssuerSetup.{IsFaultOf, keys_of, shard_of};
ghost use Rattle.key_derive.specs.declared.card.CardKeys.{CardKeys};
ghost use Rattle.key_derive.specs.CardSecret.{keys_in};
ghost use Rattle.key_derive.specs.SessionKey.{session_of};
ghost use Rattle.issuer_setup.specs.KeySlots.{keys_at, IsSlotOf};

use crate::card::CardInfo;
use crate::cards::{Cards, CardsFault};
use crate::kept_keys::{KeptKeys, KeySlot};
use crate::key_sets::KeySets;
use crate::shard_count::ShardCount;
use arrayvec::ArrayVec;
use decision_table::Table;
use issuer_base::{MAX_KEY_SETS, NoMemory, Pan, Request};
use key_derive::{CardKeys, CardSecrets, KeySet, LazyKeys, SessionKey};
use std::alloc::Global;
use std::marker::Model;

/// Why shards, key sets and cards are refused.
#[derive(Clone, Copy, PartialEq, Eq, Debug)]
pub enum IssuerFault {
    /// The number of shards isn't 1 to 16.
    Shards,

    /// The key set of this index has the derivation key index of an earlier one; or, at 0, there is no key set.
    Key(u32),

    /// The card of this index has a sequence number that isn't decimal, or the account and sequence
    /// number of an earlier card; or, at 0, there is no card or there are more than 4,096.
    Card(u32),

    /// Out of memory: the map of the cards' numbers or their master keys could not be allocated.
    NoMemory,
}

impl From<CardsFault> for IssuerFault {
    ghost use Rattle.std.specs.Prelude.{◌≡◌};
    ghost use Rattle.issuer_setup.specs.IssuerSetup.{fault_of_cards};

    ghost from_gives = { λ refused fault. fault ≡ fault_of_cards refused };

    fn from(refused: CardsFault) -> IssuerFault {
        match refused {
            CardsFault::Card(index) => IssuerFault::Card(index),
            CardsFault::NoMemory => IssuerFault::NoMemory,
        }
    }
}

impl From<NoMemory> for IssuerFault {
    ghost use Rattle.std.specs.Prelude.{◌≡◌};
    ghost use Rattle.issuer_setup.specs.declared.issuer.IssuerFault.TheVariants.{NoMemory};

    ghost from_gives = { λ _ fault. fault ≡ NoMemory };

    fn from(_fault: NoMemory) -> IssuerFault {
        IssuerFault::NoMemory
    }
}

/// An issuer: the number of its shards, its key sets, its cards, and its decision table. A card's number is its
/// index in the configuration, from 0.
///
/// A contract sees the number of shards, the lists of the key sets and of the cards, and the table's rows.
#[derive(Drop)]
pub struct Issuer {
    shards: ShardCount,
    keys: KeySets,
    cards: Cards,

    /// The master keys of each card from each key set.
    kept: KeptKeys,
    table: Table,
}

impl Model for Issuer {
    ghost use Rattle.std.specs.Prelude.{◌≡◌};
    ghost use Rattle.issuer_setup.specs.IssuerSetup.{Setup};
    ghost use Rattle.issuer_setup.specs.KeptKeys.{kept_keys};

    ghost Value = { Setup };

    ghost view = { λ issuer. record {
      shards = issuer.shards;
      keys = issuer.keys;
      cards = issuer.cards;
      table = issuer.table;
    } };

    ghost invariant = { λ issuer. issuer.kept ≡ kept_keys issuer.keys issuer.cards };
}

impl Issuer {
    /// The issuer of just these parts. It derives no key yet. It allocates the master keys of each card from each key
    /// set, with room for the cached keys of both suites: 636 bytes a pair.
    pub fn of(
        alloc: Global,
        shards: ShardCount,
        keys: KeySets,
        cards: Cards,
        table: Table,
    ) -> Result<Issuer, NoMemory>
        ensures parts { IfOk result (λ issuer. issuer ≡
            record { shards = shards; keys = keys; cards = cards; table = table }) }
        ensures keys { IfOk result (λ issuer. AreKeys issuer.keys) }
        ensures cards { IfOk result (λ issuer. AreCards issuer.cards) }
    {
        let kept = KeptKeys::underived(alloc, keys.as_slice(), cards.as_slice())?;
        Ok(Issuer {
            shards,
            keys,
            cards,
            kept,
            table,
        })
    }

    /// The issuer of just these parts, or the first invalid one: the number of shards, then the key sets, then
    /// the cards. It allocates as [`Issuer::of`] does.
    pub fn new(
        alloc: Global,
        shards: u8,
        keys: ArrayVec<KeySet, MAX_KEY_SETS>,
        cards: Vec<CardInfo>,
        table: Table,
    ) -> Result<Issuer, IssuerFault>
        ensures ok { IfOk result (λ issuer. (are_shards shards ≡ true) × (bad_key keys.items ≡ None)
            × (bad_card cards.items ≡ None)) }
        ensures parts { IfOk result (λ issuer. issuer ≡
            record { shards = shards; keys = keys.items; cards = cards.items; table = table }) }
        ensures refused { IfErr result (IsFaultOf shards keys.items cards.items) }
    {
        let shards = ShardCount::new(shards).ok_or(IssuerFault::Shards)?;
        let keys = KeySets::new(keys).map_err(IssuerFault::Key)?;
        let cards = Cards::new(alloc, cards)?;
        Ok(Issuer::of(alloc, shards, keys, cards, table)?)
    }

    /// How many shards there are, 1 to 16.
    pub fn shards(&self) -> u8
        ensures count { result ≡ self.now.shards }
        ensures valid { are_shards self.now.shards ≡ true }
    {
        self.shards.get()
    }

    /// The shard of the card with this number.
    pub fn shard_of(&self, card: u32) -> u8
        ensures number { result ≡ card % self.now.shards }
        ensures below { result < self.now.shards }
        ensures shard { (name : CardName) → number_of name self.now.cards ≡ Some card
            → result ≡ shard_of self.now name }
    {
        (card % u32::from(self.shards())) as u8
    }

    /// The decision table.
    pub fn table(&self) -> &Table
        ensures { result.now ≡ self.now.table }
    {
        &self.table
    }

    /// The first key set of the configuration.
    pub fn first_key(&self) -> &KeySet
        ensures { slice_get self.now.keys 0 ≡ Some result.now }
    {
        self.keys.first()
    }

    /// The key set with this derivation key index; `None` if no key set has it.
    pub fn key_set(&self, dki: u8) -> Option<&KeySet>
        ensures { option_map (λ set. set.now) result ≡ key_of dki self.now.keys }
    {
        self.keys.find(dki)
    }

    /// The master keys of this card in the request's suite, from the key set that the request's derivation key index
    /// names; `None` if no key set has that index with keys of the suite. This derives both keys.
    pub fn keys_of(&self, card: u32, request: &Request) -> Option<CardKeys>
        requires { card < length self.now.cards }
        ensures { result ≡ keys_of self.now card request.now }
    {
        let slot = self.key_slot(card, request)?;
        Some(self.keys(slot).pair())
    }

    /// Where these keys are; `None` if no key set has the request's derivation key index with keys of its suite. This
    /// derives none.
    pub fn key_slot(&self, card: u32, request: &Request) -> Option<KeySlot>
        requires { card < length self.now.cards }
        ensures { MatchOption result (keys_of self.now card request.now ≡ None) (IsSlotOf self.now card request.now) }
    {
        let place = self.keys.place_of(request.dki())?;
        let suite = request.suite();
        if !self.keys.has_suite(place, suite) {
            return None;
        }
        Some(self.kept.slot(card, place, suite))
    }

    /// The master keys in this slot. This derives none.
    pub fn keys(&self, slot: KeySlot) -> LazyKeys
        requires { IsSome (keys_at self.now slot) }
        ensures { keys_at self.now slot ≡ Some result }
    {
        self.kept.secrets(slot.index).keys(slot.suite).unwrap()
    }

    /// The card's master keys in this slot, of both suites. This derives none.
    #[inline(always)]
    pub fn secrets(&self, slot: KeySlot) -> &CardSecrets
        requires { IsSome (keys_at self.now slot) }
        ensures { keys_in slot.suite result.now ≡ keys_at self.now slot }
    {
        self.kept.secrets(slot.index)
    }

    /// The session key for the cryptograms of the transaction with this ATC, from the keys in this slot. If the master
    /// key is cached, this costs the encipherment of the session key's blocks, and no key schedule.
    pub fn session(&self, slot: KeySlot, atc: u16) -> SessionKey
        requires { IsSome (keys_at self.now slot) }
        ensures { (keys : CardKeys) → keys_at self.now slot ≡ Some keys → result ≡ session_of keys atc }
    {
        self.secrets(slot).session(slot.suite, atc)
    }

    /// Caches the key schedule of the master key for cryptograms in this slot. If it isn't cached yet, this computes
    /// two key schedules and enciphers two blocks.
    pub fn keep(&mut self, slot: KeySlot)
        requires { IsSome (keys_at self.old slot) }
        ensures { self.new ≡ self.old }
    {
        self.kept.keep(slot);
    }

    /// Caches the key schedule of the master key for cryptograms of each card from each key set. Those of the issuer's
    /// master keys are computed once a key set. For each pair that isn't cached yet one key schedule is computed, and
    /// two blocks are enciphered.
    pub fn keep_all(&mut self)
        ensures { self.new ≡ self.old }
    {
        self.kept.keep_all(self.keys.as_slice());
    }

    /// The number of the card with this account and sequence number; `None` if no card has them.
    pub fn card(&self, pan: &Pan, psn: u8) -> Option<u32>
        ensures number { result ≡ number_of (record { pan = pan.now; psn = psn }) self.now.cards }
        ensures valid { AreCards self.now.cards }
    {
        self.cards.find(pan, psn)
    }

    /// The card with this number.
    pub fn info(&self, card: u32) -> &CardInfo
        requires { card < length self.now.cards }
        ensures { slice_get self.now.cards card ≡ Some result.now }
    {
        &self.cards.as_slice()[card as usize]
    }

    /// How many cards there are.
    pub fn cards(&self) -> u32
        ensures count { result ≡ length self.now.cards }
        ensures valid { AreCards self.now.cards }
    {
        self.cards.as_slice().len() as u32
    }
}
