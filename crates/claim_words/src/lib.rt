//! The claims of callers on the ATCs of cards: exactly one caller wins a claim.
//!
//! Each card has a bit for each of its ATCs, and a word with its greatest recorded or kept ATC. A claim sets the
//! bit in one atomic step, and the caller that finds it clear has won. No call waits, and only `load` allocates.
#![tactic(auto)]

mod atc_claimed_once;
mod claim_words;
mod layout;
mod opening;
mod view;

pub use claim_words::{Claim, ClaimSeat, ClaimWords};
pub use layout::COUNTERS;
pub use view::{ClaimView, Claimed, Standing};
