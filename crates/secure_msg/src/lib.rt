//! Issuer script commands for a card under secure messaging: EMV 4.3 Book 2, section 9, in format 2.
//!
//! A command is sealed by the MAC of the card's suite over a chain of eight bytes and the command as it is sent. The
//! first chain of a batch is the application cryptogram, and each later one the MAC of the command before it: the chain
//! is this project's profile. No call allocates.
#![tactic(auto)]

mod batch;
mod pin;
mod pin_change;
mod sealing;

pub use batch::{Template, is_batch, template, template_of};
pub use pin::{MAX_PIN_DIGITS, MIN_PIN_DIGITS, Pin, pin_block};
pub use pin_change::{
    FIRST_PARAMETER, NEW_PIN, PIN_CHANGE, pin_changes_set_their_pin, pin_command,
};
pub use sealing::{MAX_SEALED_BYTES, SealedCommand, only_sealed_commands_open, seal, unseal};
