//! Sets of ATCs as bitmaps, one bit an ATC.
#![tactic(auto)]

mod counter_bits;

pub use counter_bits::{COUNTERS, CounterBits};
