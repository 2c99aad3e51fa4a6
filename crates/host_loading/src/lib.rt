//! The journals of an issuer's shards, loaded by one thread or by several, and the stores returned.
//!
//! Hosts of one caller and of several, clearing checks, exports and standbys load by these calls.
#![tactic(auto)]

mod loading;
mod loading_together;

pub use loading::{HostBack, Lists, load_all, take_lists, take_stores};
pub use loading_together::load_together;
pub use shard_book::LoadFault;
