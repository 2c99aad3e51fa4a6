//! The master keys of an issuer's cards, derived on demand. The key schedules of those for cryptograms can be cached.
ghost use Rattle.std.specs.Prelude.{◌≡◌, ◌+◌, ◌*◌, ◌<◌, ◌≤◌, ◌++◌, Some, length, slice_get, vec_capacity, IfOk};
ghost use Rattle.issuer_setup.specs.KeptKeys.{pairs_of, kept_keys};

use crate::card::CardInfo;
use issuer_base::{MAX_CARDS, MAX_KEY_SETS, Suite};
use key_derive::{CardSecrets, KeySet, MasterCiphers};
use std::alloc::{AllocError, Global};
use std::marker::Model;

/// Where an issuer has the master keys of one of its cards from one of its key sets in one suite.
#[derive(Clone, Copy)]
pub struct KeySlot {
    /// The index of the card's keys from the key set.
    pub(crate) index: usize,

    /// The suite of the keys.
    pub(crate) suite: Suite,
}

impl KeySlot {
    /// The suite of the keys.
    #[inline(always)]
    pub fn suite(self) -> Suite
        ensures { result ≡ self.suite }
    {
        self.suite
    }
}

/// The master keys of each card from each key set. The key schedules of those for cryptograms can be cached; the others
/// are derived at each use.
///
/// A contract sees how many key sets there are, and the list of the master keys of each pair of a card and a key set.
#[derive(Drop)]
pub(crate) struct KeptKeys {
    /// How many key sets there are.
    sets: usize,

    /// The master keys of each pair, card by card, those of a card in the order of the key sets.
    pairs: Vec<CardSecrets>,
}

impl Model for KeptKeys {
    ghost use Rattle.issuer_setup.specs.KeptKeys.{KeptPairs};

    ghost Value = { KeptPairs };

    ghost view = { λ kept. record {
      sets = kept.sets;
      pairs = kept.pairs.items;
    } };
}

impl KeptKeys {
    /// The master keys of each card from each key set, of which none is derived yet: no key schedule is computed and no
    /// block enciphered. This allocates the memory, 636 bytes a pair, most of them for the cached keys of both suites.
    pub(crate) fn underived(
        alloc: Global,
        keys: &[KeySet],
        cards: &[CardInfo],
    ) -> Result<KeptKeys, AllocError>
        requires keys { length keys.now ≤ MAX_KEY_SETS }
        requires cards { length cards.now ≤ MAX_CARDS }
        ensures { IfOk result (λ kept. kept ≡ kept_keys keys.now cards.now) }
    {
        let mut pairs = Vec::with_capacity(alloc, cards.len() * keys.len())?;
        for card in cards {
            add_card(&mut pairs, keys, card);
        }
        Ok(KeptKeys {
            sets: keys.len(),
            pairs,
        })
    }

    /// The slot of the card with this number and the key set at index `place` in this suite.
    pub(crate) fn slot(&self, card: u32, place: usize, suite: Suite) -> KeySlot
        requires { card * self.now.sets + place < length self.now.pairs }
        ensures index { result.index ≡ card * self.now.sets + place }
        ensures suite { result.suite ≡ suite }
    {
        KeySlot {
            index: card as usize * self.sets + place,
            suite,
        }
    }

    /// The master keys of the pair with this index, of both suites.
    #[inline(always)]
    pub(crate) fn secrets(&self, index: usize) -> &CardSecrets
        requires { index < length self.now.pairs }
        ensures { slice_get self.now.pairs index ≡ Some result.now }
    {
        &self.pairs[index]
    }

    /// Caches the key for cryptograms in this slot, unless it is cached already.
    pub(crate) fn keep(&mut self, slot: KeySlot)
        requires { slot.index < length self.old.pairs }
        ensures { self.new ≡ self.old }
    {
        self.pairs[slot.index].keep(slot.suite);
    }

    /// Caches the keys for cryptograms of all cards from each of these key sets. If they are the issuer's, each master
    /// key's schedule is computed once.
    pub(crate) fn keep_all(&mut self, keys: &[KeySet])
        requires { length keys.now ≤ MAX_KEY_SETS }
        ensures { self.new ≡ self.old }
    {
        for (place, set) in keys.iter().enumerate() {
            keep_set(
                self.pairs.as_mut_slice(),
                place,
                keys.len(),
                &MasterCiphers::new(set),
            );
        }
    }
}

/// Caches the cryptogram keys at `place` and every `step`-th pair after it: those of all cards from one key set.
fn keep_set(pairs: &mut [CardSecrets], place: usize, step: usize, ciphers: &MasterCiphers)
    requires { (0 < step) × (step ≤ MAX_KEY_SETS) × (place < step) }
    ensures { pairs.new ≡ pairs.old }
{
    let mut at = place;
    while at < pairs.len() {
        pairs[at].keep_by(ciphers);
        at += step;
    }
}

/// Appends the master keys of a card from each key set to pairs that have room for them.
fn add_card(pairs: &mut Vec<CardSecrets>, keys: &[KeySet], card: &CardInfo)
    requires { length pairs.old.items + length keys.now ≤ vec_capacity pairs.old }
    ensures added { pairs.new.items ≡ pairs.old.items ++ pairs_of keys.now card.now }
    ensures room { vec_capacity pairs.new ≡ vec_capacity pairs.old }
{
    for set in keys {
        pairs.push_reserved(CardSecrets::of(set, &card.pan, card.psn));
    }
}
