//! The key schedules of an issuer's master keys.

ghost use Rattle.std.specs.Prelude.{◌≡◌};
ghost use Rattle.std.specs.Option.{option_map};
ghost use Rattle.aes_cipher.specs.Cipher.{aes_encipher};
ghost use Rattle.key_derive.specs.MasterKey.{diversified};
ghost use Rattle.key_derive.specs.CardKey.{des_keys, aes_keys, card_keys};

use crate::card::{AesPair, CardKeys, KeySet};
use crate::master::{aes_block, aes_key, block_of, diversified};
use aes_cipher::Aes;
use des_block::{Key16, Tdes};
use issuer_base::{Pan, Suite};
use std::marker::Model;

/// A key set with its master keys' key schedules, computed once for all cards.
///
/// A contract sees the key set.
#[derive(Drop)]
pub struct MasterCiphers {
    set: KeySet,

    /// Triple DES under the key for application cryptograms.
    ac: Tdes,

    /// Triple DES under the key for secure messaging for integrity.
    smi: Tdes,

    /// The AES keys, if the key set has any.
    aes: Option<AesCiphers>,
}

impl Model for MasterCiphers {
    ghost use Rattle.std.specs.Prelude.{◌≡◌};
    ghost use Rattle.des_block.specs.Keyed.{HasKeyPair};
    ghost use Rattle.key_derive.specs.declared.card.KeySet.{KeySet};

    ghost Value = { KeySet };

    ghost view = { λ ciphers. ciphers.set };

    ghost invariant = { λ ciphers. HasKeyPair ciphers.ac ciphers.set.ac.0 × HasKeyPair ciphers.smi ciphers.set.smi.0
        × (ciphers.aes ≡ ciphers.set.aes) };
}

impl MasterCiphers {
    /// Computes the key schedules of the key set's master keys.
    pub fn new(set: &KeySet) -> MasterCiphers
        ensures { result ≡ set.now }
    {
        MasterCiphers {
            set: *set,
            ac: Tdes::new(&set.ac),
            smi: Tdes::new(&set.smi),
            aes: aes_ciphers(set),
        }
    }

    /// The master keys of a card of this suite from those of this key set; `None` if the suite is AES and the key set
    /// has no AES keys. Computes no key schedule, and enciphers four blocks of triple DES or two of AES.
    pub fn card_keys(&self, suite: Suite, pan: &Pan, psn: u8) -> Option<CardKeys>
        ensures { result ≡ card_keys self.now suite pan.now psn }
    {
        match suite {
            Suite::TripleDes => Some(self.des_keys(pan, psn)),
            Suite::Aes => self.aes_keys(pan, psn),
        }
    }

    /// The triple DES keys of a card.
    fn des_keys(&self, pan: &Pan, psn: u8) -> CardKeys
        ensures { result ≡ des_keys self.now pan.now psn }
    {
        let block = block_of(self.set.option, pan, psn);
        CardKeys {
            suite: Suite::TripleDes,
            ac: diversified(&self.ac, block),
            smi: diversified(&self.smi, block),
        }
    }

    /// The AES keys of a card, if the key set has AES keys.
    fn aes_keys(&self, pan: &Pan, psn: u8) -> Option<CardKeys>
        ensures { result ≡ option_map (λ pair. aes_keys pair pan.now psn) self.now.aes }
    {
        match &self.aes {
            Some(ciphers) => Some(ciphers.card_keys(pan, psn)),
            None => None,
        }
    }

    /// The key that this master key for application cryptograms derives from a block. If it is the key set's, this
    /// computes no key schedule.
    pub(crate) fn derived_ac(&self, imk: &Key16, block: [u8; 8]) -> Key16
        ensures { result.0 ≡ diversified imk.now.0 block }
    {
        if *imk == self.set.ac {
            return diversified(&self.ac, block);
        }
        diversified(&Tdes::new(imk), block)
    }

    /// As `derived_ac`, for AES.
    pub(crate) fn derived_aes_ac(&self, imk: &Key16, block: [u8; 16]) -> Key16
        ensures { result.0 ≡ aes_encipher imk.now.0 block }
    {
        match &self.aes {
            Some(ciphers) => ciphers.derived_ac(imk, block),
            None => aes_key(&Aes::new(imk.0), block),
        }
    }
}

/// The key schedules of the key set's AES keys, if it has any.
fn aes_ciphers(set: &KeySet) -> Option<AesCiphers>
    ensures { result ≡ set.now.aes }
{
    match &set.aes {
        Some(pair) => Some(AesCiphers::new(pair)),
        None => None,
    }
}

/// A pair of AES master keys with their key schedules.
///
/// A contract sees the pair.
#[derive(Drop)]
struct AesCiphers {
    pair: AesPair,

    /// Under the key for application cryptograms.
    ac: Aes,

    /// Under the key for secure messaging for integrity.
    smi: Aes,
}

impl Model for AesCiphers {
    ghost use Rattle.aes_cipher.specs.Columns.{HasKey};
    ghost use Rattle.key_derive.specs.declared.card.AesPair.{AesPair};

    ghost Value = { AesPair };

    ghost view = { λ ciphers. ciphers.pair };

    ghost invariant = { λ ciphers. HasKey ciphers.ac ciphers.pair.ac.0 × HasKey ciphers.smi ciphers.pair.smi.0 };
}

impl AesCiphers {
    /// Computes the key schedules of both master keys.
    fn new(pair: &AesPair) -> AesCiphers
        ensures { result ≡ pair.now }
    {
        AesCiphers {
            pair: *pair,
            ac: Aes::new(pair.ac.0),
            smi: Aes::new(pair.smi.0),
        }
    }

    /// The AES keys of a card.
    fn card_keys(&self, pan: &Pan, psn: u8) -> CardKeys
        ensures { result ≡ aes_keys self.now pan.now psn }
    {
        let block = aes_block(pan, psn);
        CardKeys {
            suite: Suite::Aes,
            ac: aes_key(&self.ac, block),
            smi: aes_key(&self.smi, block),
        }
    }

    /// The key that this master key for application cryptograms derives from a block. If it is the pair's, this
    /// computes no key schedule.
    fn derived_ac(&self, imk: &Key16, block: [u8; 16]) -> Key16
        ensures { result.0 ≡ aes_encipher imk.now.0 block }
    {
        if *imk == self.pair.ac {
            return aes_key(&self.ac, block);
        }
        aes_key(&Aes::new(imk.0), block)
    }
}
