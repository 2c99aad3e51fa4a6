//! The keys of a card from those of its issuer.

ghost use Rattle.std.specs.Prelude.{◌≡◌};
ghost use Rattle.key_derive.specs.CardKey.{card_keys, card_smc};

use crate::lazy::LazyKeys;
use crate::master::master_key;
use des_block::Key16;
use issuer_base::{MasterOption, Pan, Suite};

/// The issuer's master keys for cards with AES.
#[derive(Clone, Copy)]
pub struct AesPair {
    /// For application cryptograms.
    pub ac: Key16,

    /// For secure messaging for integrity.
    pub smi: Key16,
}

/// The issuer's master keys that a derivation key index names: for triple DES, and possibly for AES.
#[derive(Clone, Copy)]
pub struct KeySet {
    /// The derivation key index.
    pub dki: u8,

    /// The option by which a card's triple DES keys are derived from these.
    pub option: MasterOption,

    /// The issuer's triple DES master key for application cryptograms.
    pub ac: Key16,

    /// The issuer's triple DES master key for secure messaging for integrity.
    pub smi: Key16,

    /// The issuer's AES master keys, if it has cards with AES under this index.
    pub aes: Option<AesPair>,

    /// The issuer's triple DES master key for secure messaging for confidentiality, if it changes PINs under this
    /// index.
    pub smc: Option<Key16>,
}

/// The index 0, option A and keys of zeros, without AES and without a key for confidentiality: what fills the unused
/// elements of an array of key sets.
impl Default for KeySet {
    ghost use Rattle.std.specs.Prelude.{◌≡◌, replicate, None};
    ghost use Rattle.issuer_base.specs.declared.answer.MasterOption.TheVariants.{A};

    ghost is_default = { λ set. set ≡ record {
      dki = 0;
      option = A;
      ac = record { 0 = replicate 16 0 };
      smi = record { 0 = replicate 16 0 };
      aes = None;
      smc = None;
    } };

    fn default() -> KeySet {
        KeySet {
            dki: 0,
            option: MasterOption::A,
            ac: Key16([0; 16]),
            smi: Key16([0; 16]),
            aes: None,
            smc: None,
        }
    }
}

/// A card's master keys of one suite.
#[derive(Clone, Copy, PartialEq, Eq, Debug)]
pub struct CardKeys {
    /// The suite that they are for.
    pub suite: Suite,

    /// For application cryptograms.
    pub ac: Key16,

    /// For secure messaging for integrity.
    pub smi: Key16,
}

/// The master keys of a card of this suite from those of its issuer; `None` if the suite is AES and the key set has no
/// AES keys. Computes two key schedules; for several cards, use one [`MasterCiphers`](crate::MasterCiphers).
pub fn card_keys(set: &KeySet, suite: Suite, pan: &Pan, psn: u8) -> Option<CardKeys>
    ensures { result ≡ card_keys set.now suite pan.now psn }
{
    let keys = LazyKeys::of(set, suite, pan, psn)?;
    Some(keys.pair())
}

/// A card's master key for secure messaging for confidentiality, by the key set's option, with triple DES whatever the
/// card's suite; `None` if the key set has none. Computes one key schedule.
pub fn card_smc(set: &KeySet, pan: &Pan, psn: u8) -> Option<Key16>
    ensures { result ≡ card_smc set.now pan.now psn }
{
    match &set.smc {
        Some(smc) => Some(master_key(set.option, smc, pan, psn)),
        None => None,
    }
}
