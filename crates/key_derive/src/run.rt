//! The MAC of a suite, computed incrementally.

ghost use Rattle.std.specs.Prelude.{◌≡◌, ℕ, List, [], ◌++◌};
ghost use Rattle.issuer_base.specs.declared.request.Suite.{Suite};
ghost use Rattle.key_derive.specs.SuiteMac.{mac_of};
ghost use Rattle.key_derive.specs.SuiteRun.{IsRun};

use crate::half_block::first_half;
use aes_cipher::{CmacKey, CmacRun};
use des_block::Key16;
use issuer_base::Suite;
use retail_mac::MacRun;

/// The MAC of a suite over a text that comes in pieces of any lengths. Of the text only a block is buffered.
#[derive(Drop)]
pub enum SuiteRun {
    /// A retail MAC over triple DES.
    TripleDes(MacRun),

    /// A CMAC over AES.
    Aes(CmacRun),
}

impl SuiteRun {
    /// A run over no bytes yet. Computes the key schedules.
    pub fn new(suite: Suite, key: &Key16) -> SuiteRun
        ensures { IsRun result suite key.now.0 [] }
    {
        match suite {
            Suite::TripleDes => SuiteRun::TripleDes(MacRun::new(key)),
            Suite::Aes => SuiteRun::Aes(CmacRun::new(&CmacKey::new(&key.0))),
        }
    }

    /// Appends a piece to the text.
    pub fn update(&mut self, piece: &[u8])
        ensures { (suite : Suite) (key text : List ℕ) → IsRun self.old suite key text
            → IsRun self.new suite key (text ++ piece.now) }
    {
        match self {
            SuiteRun::TripleDes(run) => run.update(piece),
            SuiteRun::Aes(run) => run.update(piece),
        }
    }

    /// The MAC of the text. Afterwards the run is over no bytes, under the same key.
    pub fn take(&mut self) -> [u8; 8]
        ensures mac { (suite : Suite) (key text : List ℕ) → IsRun self.old suite key text
            → result ≡ mac_of suite key text }
        ensures again { (suite : Suite) (key text : List ℕ) → IsRun self.old suite key text
            → IsRun self.new suite key [] }
    {
        match self {
            SuiteRun::TripleDes(run) => run.take(),
            SuiteRun::Aes(run) => first_half(run.take()),
        }
    }
}
