//! The text of a shard's records in a store: a record is durable before it counts, and one that is in doubt is
//! truncated before the next is written.
#![tactic(auto)]

mod journal;
mod reading;
mod settling;

pub use journal::Journal;
pub use reading::read_from;
