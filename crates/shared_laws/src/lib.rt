//! What is sure of the answers to lines, those of one caller and those of several: the steps of a call on a line, and the
//! laws; definitions, and lemmas on them.
#![tactic(auto)]

mod checked;

pub use checked::Checked;
