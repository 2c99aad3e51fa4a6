//! The stored decisions of a card, so that a repeat of a request gets the first reply again.
//!
//! There is one slot for each residue of the ATC modulo the window. [`Kept::new`] allocates them all, so no later call
//! allocates.
#![tactic(auto)]

mod window;

pub use card_history::Decision as KeptEntry;
pub use window::Kept;
