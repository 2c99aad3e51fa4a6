//! A card's master keys, of which those for cryptograms can be cached with their key schedules.
ghost use Rattle.std.specs.Prelude.{◌≡◌, IsSome, Some};
ghost use Rattle.std.specs.Option.{option_map};
ghost use Rattle.key_derive.specs.declared.card.CardKeys.{CardKeys};
ghost use Rattle.key_derive.specs.CardSecret.{secrets_of, keys_in};
ghost use Rattle.key_derive.specs.SessionKey.{session_ac, session_of};

use crate::card::KeySet;
use crate::ciphers::MasterCiphers;
use crate::lazy::LazyKeys;
use crate::session::{SessionKey, SuiteCipher, session_ac};
use des_block::Key16;
use issuer_base::{Pan, Suite};
use std::marker::Model;

/// A card's master keys from one key set, with triple DES and possibly with AES, derived on demand.
/// [`CardSecrets::keep`] derives the key for application cryptograms of a suite once and caches its key schedule.
///
/// A contract sees the keys of both suites, which are the same before and after.
#[derive(Drop)]
pub struct CardSecrets {
    des: CachedKeys,
    aes: Option<CachedKeys>,
}

impl Model for CardSecrets {
    ghost use Rattle.key_derive.specs.CardSecret.{BothKeys};

    ghost Value = { BothKeys };

    ghost view = { λ secrets. record { des = secrets.des; aes = secrets.aes } };
}

impl CardSecrets {
    /// The master keys of a card from those of its issuer, of which none is derived yet. Computes no key schedule and
    /// enciphers nothing.
    #[inline(always)]
    pub fn of(set: &KeySet, pan: &Pan, psn: u8) -> CardSecrets
        ensures { result ≡ secrets_of set.now pan.now psn }
    {
        let des = CachedKeys::new(LazyKeys::of_des(set, pan, psn));
        let Some(keys) = LazyKeys::of_aes(set, pan, psn) else {
            return CardSecrets { des, aes: None };
        };
        let aes = Some(CachedKeys::new(keys));
        CardSecrets { des, aes }
    }

    /// The master keys of a suite, if there are any. This derives none.
    pub fn keys(&self, suite: Suite) -> Option<LazyKeys>
        ensures { result ≡ keys_in suite self.now }
    {
        match suite {
            Suite::TripleDes => Some(self.des.keys.copy()),
            Suite::Aes => Some(self.aes.as_ref()?.keys.copy()),
        }
    }

    /// The key for application cryptograms of a suite, if the card has keys of it. If it isn't cached, this computes the
    /// issuer's key schedule and enciphers two blocks of triple DES or one of AES.
    pub fn ac(&self, suite: Suite) -> Option<Key16>
        ensures { result ≡ option_map (λ keys. keys.ac) (keys_in suite self.now) }
    {
        match suite {
            Suite::TripleDes => Some(self.des.ac()),
            Suite::Aes => Some(self.aes.as_ref()?.ac()),
        }
    }

    /// The session key for the cryptograms of the transaction with this ATC in a suite that the card has keys of. If
    /// the master key is cached, this computes no key schedule; otherwise those of the issuer's and the card's master key.
    #[inline(never)]
    pub fn session(&self, suite: Suite, atc: u16) -> SessionKey
        requires { IsSome (keys_in suite self.now) }
        ensures { (keys : CardKeys) → keys_in suite self.now ≡ Some keys → result ≡ session_of keys atc }
    {
        let cached = match suite {
            Suite::TripleDes => &self.des,
            Suite::Aes => self.aes.as_ref().unwrap(),
        };
        SessionKey::of(cached.keys.suite(), cached.session_ac(atc))
    }

    /// Caches the key for application cryptograms of a suite, if the card has keys of it. If it isn't cached yet, this
    /// computes the key schedules of the issuer's and the card's master key.
    pub fn keep(&mut self, suite: Suite)
        ensures { self.new ≡ self.old }
    {
        match suite {
            Suite::TripleDes => self.des.keep(),
            Suite::Aes => {
                if let Some(keys) = &mut self.aes {
                    keys.keep();
                }
            }
        }
    }

    /// Caches the keys for application cryptograms of both suites, as [`CardSecrets::keep`] does. For a card of this
    /// key set, the issuer's key schedules aren't computed again.
    pub fn keep_by(&mut self, ciphers: &MasterCiphers)
        ensures { self.new ≡ self.old }
    {
        self.des.keep_by(ciphers);
        if let Some(keys) = &mut self.aes {
            keys.keep_by(ciphers);
        }
    }
}

/// A card's master keys of one suite, and the one for application cryptograms with its key schedule, if it is cached.
///
/// A contract sees the pair of keys.
#[derive(Drop)]
struct CachedKeys {
    keys: LazyKeys,
    cached: Option<CachedAc>,
}

/// The key for application cryptograms, and its key schedule.
#[derive(Drop)]
struct CachedAc {
    ac: Key16,
    cipher: SuiteCipher,
}

impl Model for CachedKeys {
    ghost use Rattle.std.specs.Prelude.{◌≡◌, IfSome};
    ghost use Rattle.key_derive.specs.declared.card.CardKeys.{CardKeys};
    ghost use Rattle.key_derive.specs.SuiteCipher.{HasCipherKey};

    ghost Value = { CardKeys };

    ghost view = { λ both. both.keys };

    ghost invariant = { λ both. IfSome both.cached (λ cached.
        (cached.ac ≡ both.keys.ac) × HasCipherKey cached.cipher both.keys.suite both.keys.ac.0) };
}

impl CachedKeys {
    #[inline(always)]
    fn new(keys: LazyKeys) -> CachedKeys
        ensures { result ≡ keys }
    {
        CachedKeys { keys, cached: None }
    }

    /// The key for application cryptograms.
    fn ac(&self) -> Key16
        ensures { result ≡ self.now.ac }
    {
        match &self.cached {
            Some(cached) => cached.ac,
            None => self.keys.ac(),
        }
    }

    /// The session key for the cryptograms of the transaction with this ATC.
    fn session_ac(&self, atc: u16) -> Key16
        ensures { result.0 ≡ session_ac self.now.suite self.now.ac.0 atc }
    {
        match &self.cached {
            Some(cached) => cached.cipher.session_ac(atc),
            None => session_ac(self.keys.suite(), &self.keys.ac(), atc),
        }
    }

    fn keep(&mut self)
        ensures { self.new ≡ self.old }
    {
        if self.cached.is_none() {
            let ac = self.keys.ac();
            self.keep_key(ac);
        }
    }

    fn keep_by(&mut self, ciphers: &MasterCiphers)
        ensures { self.new ≡ self.old }
    {
        if self.cached.is_none() {
            let ac = self.keys.ac_by(ciphers);
            self.keep_key(ac);
        }
    }

    /// Caches this key, which is the one for application cryptograms, with its key schedule.
    fn keep_key(&mut self, ac: Key16)
        requires { ac ≡ self.old.ac }
        ensures { self.new ≡ self.old }
    {
        let cipher = SuiteCipher::new(self.keys.suite(), &ac);
        self.cached = Some(CachedAc { ac, cipher });
    }
}
