//! The configuration: an issuer's shards, key sets, cards and decision table, as JSON.
#![tactic(auto)]

mod config;
mod elements;
mod fault;
mod front;
mod json_value;
mod parts;
mod words;

pub use config::{MAX_CONFIG_BYTES, read_config};
pub use fault::{ConfigFault, ConfigPart};
