//! A world in memory that takes events one by one, and falls back to the first records of its shards.
#![tactic(auto)]

mod claims;
mod falling;
mod last_pin;
mod net;
mod shard;
mod world;

pub use world::{World, has_first_keys};
