//! A model of a card whose PIN its issuer can change, and what a PIN change sets on a card.
#![tactic(auto)]

mod block;
mod pin_card;
mod reading;

pub use pin_card::PinCard;
pub use reading::{last_pin, read_pin};
