//! The turns of a partition's bridge: what it is told, and what it says to do then.
//!
//! [`Partition::new`] allocates all memory; no later call allocates. [`Partition::take`] is exact: what it says and what it
//! is afterwards are functions of what it was and of the event. The laws of [`law`] say which events of `one_history` a
//! turn is, for every machine that the partition's bridge stands for.
#![tactic(auto)]

mod law;
mod link;
mod partition;
mod publisher;
mod reading;
mod serving;
mod speaker;
mod turns;

pub use law::each_turn_is_a_run;
pub use link::Link;
pub use partition::Partition;
pub use publisher::Publisher;
pub use speaker::Speaker;
