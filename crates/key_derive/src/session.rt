//! The session keys of a transaction: EMV 4.3 Book 2, Annex A1.3.1. Those with AES are this project's profile.

ghost use Rattle.std.specs.Prelude.{◌≡◌, ℕ, List, slice_set};
ghost use Rattle.issuer_base.specs.declared.request.Suite.{Suite};
ghost use Rattle.des_block.specs.Keyed.{HasKeyPair};
ghost use Rattle.key_derive.specs.SessionKey.{session_key, session_ac, session_sm, session_of};
ghost use Rattle.key_derive.specs.SuiteCipher.{HasCipherKey};

use crate::card::CardKeys;
use crate::half_block::with_zeros;
use crate::master::joined;
use aes_cipher::Aes;
use des_block::{Key16, Tdes};
use issuer_base::Suite;
use std::marker::Model;

/// The session key for the cryptograms of one transaction. It is small, so it moves with its request: whoever computes a
/// cryptogram under it computes its key schedules.
///
/// A contract sees its suite and the list of its sixteen bytes.
#[derive(Drop)]
pub struct SessionKey {
    suite: Suite,
    key: Key16,
}

impl Model for SessionKey {
    ghost use Rattle.key_derive.specs.SuiteKey.{SuiteKey};

    ghost Value = { SuiteKey };

    ghost view = { λ session. record { suite = session.suite; key = session.key.0 } };
}

impl SessionKey {
    /// The key of the transaction with this ATC, from the card's master keys, as `session_ac` computes it. Computes the
    /// key schedules of the master key.
    pub fn for_cryptograms(keys: &CardKeys, atc: u16) -> SessionKey
        ensures { result ≡ session_of keys.now atc }
    {
        SessionKey::of(keys.suite, session_ac(keys.suite, &keys.ac, atc))
    }

    /// The session key of this suite with these sixteen bytes.
    pub fn of(suite: Suite, key: Key16) -> SessionKey
        ensures { result ≡ record { suite = suite; key = key.0 } }
    {
        SessionKey { suite, key }
    }

    /// The suite of the key.
    pub fn suite(&self) -> Suite
        ensures { result ≡ self.now.suite }
    {
        self.suite
    }

    /// Its sixteen bytes.
    pub fn key(&self) -> &Key16
        ensures { result.now.0 ≡ self.now.key }
    {
        &self.key
    }
}

/// The block cipher of a suite under a card's master key.
#[derive(Clone, Copy)]
pub(crate) enum SuiteCipher {
    TripleDes(Tdes),
    Aes(Aes),
}

impl SuiteCipher {
    /// Computes the key schedule.
    pub(crate) fn new(suite: Suite, key: &Key16) -> SuiteCipher
        ensures { HasCipherKey result suite key.now.0 }
    {
        match suite {
            Suite::TripleDes => SuiteCipher::TripleDes(Tdes::new(key)),
            Suite::Aes => SuiteCipher::Aes(Aes::new(key.0)),
        }
    }

    /// The session key for cryptograms under this master key.
    pub(crate) fn session_ac(&self, atc: u16) -> Key16
        ensures { (suite : Suite) (mk : List ℕ) → HasCipherKey self.now suite mk → result.0 ≡ session_ac suite mk atc }
    {
        let [high, low] = atc.to_be_bytes();
        match self {
            SuiteCipher::TripleDes(cipher) => session_key(cipher, [high, low, 0, 0, 0, 0, 0, 0]),
            SuiteCipher::Aes(cipher) => Key16(cipher.encipher([
                high, low, 0, 0, 0, 0, 0, 0, 0, 0, 0, 0, 0, 0, 0, 0,
            ])),
        }
    }

    /// The session key for secure messaging under this master key.
    fn session_sm(&self, ac: &[u8; 8]) -> Key16
        ensures { (suite : Suite) (mk : List ℕ) → HasCipherKey self.now suite mk
            → result.0 ≡ session_sm suite mk ac.now }
    {
        match self {
            SuiteCipher::TripleDes(cipher) => session_key(cipher, *ac),
            SuiteCipher::Aes(cipher) => Key16(cipher.encipher(with_zeros(*ac))),
        }
    }
}

/// The session key for a transaction's cryptograms, from the card's master key of this suite and the ATC: for triple
/// DES EMV 4.3 Book 2, Annex A1.3.1; for AES this project's profile. Computes one key schedule.
#[inline(never)]
pub fn session_ac(suite: Suite, mk: &Key16, atc: u16) -> Key16
    ensures { result.0 ≡ session_ac suite mk.now.0 atc }
{
    SuiteCipher::new(suite, mk).session_ac(atc)
}

/// The session key for a transaction's secure messaging, from the card's master key of this suite and the application
/// cryptogram of the first GENERATE AC. Computes one key schedule.
pub fn session_sm(suite: Suite, mk: &Key16, ac: &[u8; 8]) -> Key16
    ensures { result.0 ≡ session_sm suite mk.now.0 ac.now }
{
    SuiteCipher::new(suite, mk).session_sm(ac)
}

fn session_key(master: &Tdes, value: [u8; 8]) -> Key16
    ensures { (mk : List ℕ) → HasKeyPair master.now mk → result.0 ≡ session_key mk value }
{
    let (left, right) = master.encipher_both(with_third(value, 0xF0), with_third(value, 0x0F));
    joined(left, right)
}

/// The block with its third byte replaced.
fn with_third(mut block: [u8; 8], byte: u8) -> [u8; 8]
    ensures { result ≡ slice_set block 2 byte }
{
    block[2] = byte;
    block
}
