//! A key for the MAC of a suite.

ghost use Rattle.std.specs.Prelude.{◌≡◌, ℕ, List};
ghost use Rattle.issuer_base.specs.declared.request.Suite.{Suite};
ghost use Rattle.aes_cipher.specs.Mac.{HasCmacKey};
ghost use Rattle.key_derive.specs.SuiteMac.{mac_of, HasMacKey};

use crate::half_block::first_half;
use aes_cipher::CmacKey;
use des_block::{Key16, Tdes};
use issuer_base::Suite;
use retail_mac::mac_under;

/// A key of sixteen bytes for the MAC of its suite, with its key schedules computed once.
#[derive(Clone, Copy)]
pub enum MacKey {
    /// For the retail MAC over triple DES.
    TripleDes(Tdes),

    /// For CMAC over AES, with its two subkeys.
    Aes(CmacKey),
}

impl MacKey {
    /// Computes the key schedules of a key in this suite.
    pub fn new(suite: Suite, key: &Key16) -> MacKey
        ensures { HasMacKey result suite key.now.0 }
    {
        if let Suite::Aes = suite {
            return MacKey::Aes(cmac_key(key));
        }
        MacKey::TripleDes(Tdes::new(key))
    }

    /// The MAC of a text, eight bytes.
    pub fn mac(&self, text: &[u8]) -> [u8; 8]
        ensures { (suite : Suite) (key : List ℕ) → HasMacKey self.now suite key → result ≡ mac_of suite key text.now }
    {
        match self {
            MacKey::TripleDes(cipher) => mac_under(cipher, text),
            MacKey::Aes(cipher) => first_half(cipher.cmac(text)),
        }
    }
}

/// The key for CMAC. In a function of its own, its memory isn't cleared where the suite is triple DES.
#[inline(never)]
fn cmac_key(key: &Key16) -> CmacKey
    ensures { HasCmacKey result key.now.0 }
{
    CmacKey::new(&key.0)
}
