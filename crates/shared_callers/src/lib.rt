//! Lines dealt in turns to several callers of one host, which answer them concurrently, and the texts of their answers
//! in the order of the lines; and the laws of what several callers answer.
#![tactic(auto)]

mod close;
mod half_block;
mod lane;
mod lanes;
mod load;
mod part;
mod round;
mod texts;

pub use half_block::HALF_LINES;
pub use host_calls::{HostBack, LoadFault};
pub use lanes::Lanes;
