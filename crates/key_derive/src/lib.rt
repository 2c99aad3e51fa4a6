//! The card's master keys and the session keys, and the MAC of a card's suite: EMV 4.3 Book 2, Annex A1. Those with AES are
//! this project's profile.
#![tactic(auto)]

mod card;
mod ciphers;
mod digits;
mod half_block;
mod kept;
mod key;
mod lazy;
mod master;
mod run;
mod session;

pub use card::{AesPair, CardKeys, KeySet, card_keys, card_smc};
pub use ciphers::MasterCiphers;
pub use digits::{decimal16, packed};
pub use half_block::{first_half, with_zeros};
pub use kept::CardSecrets;
pub use key::MacKey;
pub use lazy::LazyKeys;
pub use master::{aes_master, joined, master_key, option_a, option_b};
pub use run::SuiteRun;
pub use session::{SessionKey, session_ac, session_sm};
