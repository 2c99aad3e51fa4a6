//! Sample values that tests and benches share: an issuer with its keys, cards and decision table, and purchases of its
//! first card.
#![tactic(auto)]

mod purchases;
mod setup;

pub use purchases::{
    AES_CRYPTOGRAM, AES_REQUEST, CRYPTOGRAM, REQUEST, aes_purchase, purchase, purchase_parts,
};
pub use setup::{CARDS, SampleCard, card, deciding_table, declining_table, issuer, key_set};
