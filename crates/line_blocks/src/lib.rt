//! Lines of text that are written in blocks, and what is sure of an input whose lines are answered so.
#![tactic(auto)]

mod block;
mod served;

pub use block::{BLOCK_LINES, Block, FULL_LINES};
pub use served::Served;
