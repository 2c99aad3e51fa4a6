//! The law of several machines for the records of cards: the laws of worlds hold of what counts, whichever machines go.
//!
//! This crate is all definitions. Its theorem is the contract of [`cards_keep_their_laws_on_machines`].
#![tactic(auto)]

mod law;

pub use law::cards_keep_their_laws_on_machines;
