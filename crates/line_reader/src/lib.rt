//! The lines of an input, read in chunks of any size into one buffer of fixed size.
#![tactic(auto)]

mod laws;
mod limits;
mod packed;
mod reader;
mod window;

pub use laws::lines_of_parts;
pub use limits::{BUFFER_BYTES, MAX_BUFFER_BYTES, MAX_BYTES, MAX_LINES, NEWLINE};
pub use packed::PackedLines;
pub use reader::{LineReader, NextLine};
