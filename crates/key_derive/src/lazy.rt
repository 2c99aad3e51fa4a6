//! A card's master keys, derived on demand.
ghost use Rattle.std.specs.Prelude.{◌≡◌};
ghost use Rattle.std.specs.Option.{option_map};
ghost use Rattle.key_derive.specs.CardKey.{des_keys, aes_keys, card_keys};

use crate::card::{AesPair, CardKeys, KeySet};
use crate::ciphers::MasterCiphers;
use crate::master::{aes_block, aes_key, block_of, diversified};
use aes_cipher::Aes;
use des_block::{Key16, Tdes};
use issuer_base::{Pan, Suite};
use std::marker::Model;

/// A card's master keys of one suite, derived on demand: a host sees few of its cards often, and few replies carry an
/// issuer script command.
///
/// A contract sees the pair of keys.
#[derive(Drop)]
pub struct LazyKeys {
    source: KeySource,
}

/// The keys, or what they are derived from.
#[derive(Clone, Copy)]
pub(crate) enum KeySource {
    /// These keys.
    Derived(CardKeys),

    /// The keys derived from this block of digits by the issuer's triple DES master keys.
    TripleDes {
        ac: Key16,
        smi: Key16,
        block: [u8; 8],
    },

    /// The keys derived from this block of digits by the issuer's AES master keys.
    Aes {
        pair: AesPair,
        block: [u8; 16],
    },
}

impl Model for LazyKeys {
    ghost use Rattle.key_derive.specs.declared.card.CardKeys.{CardKeys};
    ghost use Rattle.key_derive.specs.LazyKey.{keys_from};

    ghost Value = { CardKeys };

    ghost view = { λ keys. keys_from keys.source };
}

impl LazyKeys {
    /// The master keys of a card of this suite from those of its issuer, of which none is derived yet; `None` if the
    /// suite is AES and the key set has no AES keys. Computes no key schedule and enciphers nothing; option B hashes an
    /// account number of more than sixteen digits.
    pub fn of(set: &KeySet, suite: Suite, pan: &Pan, psn: u8) -> Option<LazyKeys>
        ensures { result ≡ card_keys set.now suite pan.now psn }
    {
        match suite {
            Suite::TripleDes => Some(LazyKeys::of_des(set, pan, psn)),
            Suite::Aes => LazyKeys::of_aes(set, pan, psn),
        }
    }

    /// The triple DES keys of a card.
    #[inline(always)]
    pub(crate) fn of_des(set: &KeySet, pan: &Pan, psn: u8) -> LazyKeys
        ensures { result ≡ des_keys set.now pan.now psn }
    {
        LazyKeys {
            source: KeySource::TripleDes {
                ac: set.ac,
                smi: set.smi,
                block: block_of(set.option, pan, psn),
            },
        }
    }

    /// The AES keys of a card, if the key set has AES keys.
    #[inline(always)]
    pub(crate) fn of_aes(set: &KeySet, pan: &Pan, psn: u8) -> Option<LazyKeys>
        ensures { result ≡ option_map (λ pair. aes_keys pair pan.now psn) set.now.aes }
    {
        match &set.aes {
            Some(pair) => Some(LazyKeys {
                source: KeySource::Aes {
                    pair: *pair,
                    block: aes_block(pan, psn),
                },
            }),
            None => None,
        }
    }

    /// The suite of the keys.
    pub fn suite(&self) -> Suite
        ensures { result ≡ self.now.suite }
    {
        match &self.source {
            KeySource::Derived(keys) => keys.suite,
            KeySource::TripleDes { .. } => Suite::TripleDes,
            KeySource::Aes { .. } => Suite::Aes,
        }
    }

    /// The key for application cryptograms. If it isn't derived yet, each call computes the issuer's key schedule and
    /// enciphers two blocks of triple DES or one of AES.
    pub fn ac(&self) -> Key16
        ensures { result ≡ self.now.ac }
    {
        match &self.source {
            KeySource::Derived(keys) => keys.ac,
            KeySource::TripleDes { ac, block, .. } => diversified(&Tdes::new(ac), *block),
            KeySource::Aes { pair, block } => aes_key(&Aes::new(pair.ac.0), *block),
        }
    }

    /// The key for secure messaging for integrity, at the same cost.
    pub fn smi(&self) -> Key16
        ensures { result ≡ self.now.smi }
    {
        match &self.source {
            KeySource::Derived(keys) => keys.smi,
            KeySource::TripleDes { smi, block, .. } => diversified(&Tdes::new(smi), *block),
            KeySource::Aes { pair, block } => aes_key(&Aes::new(pair.smi.0), *block),
        }
    }

    /// Both keys.
    pub fn pair(&self) -> CardKeys
        ensures { result ≡ self.now }
    {
        CardKeys {
            suite: self.suite(),
            ac: self.ac(),
            smi: self.smi(),
        }
    }

    /// A copy. It derives nothing.
    pub fn copy(&self) -> LazyKeys
        ensures { result ≡ self.now }
    {
        LazyKeys {
            source: self.source,
        }
    }

    /// The key for application cryptograms. If it is to be derived from the master key of these ciphers, this computes
    /// no key schedule.
    pub(crate) fn ac_by(&self, ciphers: &MasterCiphers) -> Key16
        ensures { result ≡ self.now.ac }
    {
        match &self.source {
            KeySource::Derived(keys) => keys.ac,
            KeySource::TripleDes { ac, block, .. } => ciphers.derived_ac(ac, *block),
            KeySource::Aes { pair, block } => ciphers.derived_aes_ac(&pair.ac, *block),
        }
    }
}

/// The keys, both derived already.
impl From<CardKeys> for LazyKeys {
    ghost use Rattle.std.specs.Prelude.{◌≡◌};

    ghost from_gives = { λ pair keys. keys ≡ pair };

    fn from(pair: CardKeys) -> LazyKeys {
        LazyKeys {
            source: KeySource::Derived(pair),
        }
    }
}
