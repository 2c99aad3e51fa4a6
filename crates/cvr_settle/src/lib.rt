//! What a card reports of the issuer script commands that the last reply carried to it.
#![tactic(auto)]

mod settlement;

pub use settlement::{Flight, Settled, settle};
