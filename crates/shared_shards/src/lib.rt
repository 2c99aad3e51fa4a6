//! The shards of a host, at which callers take turns. The shard's log has each record that a call appends, and each
//! answer that reported that the store failed.
#![tactic(auto)]

mod lists;
mod locked_shard;
mod logs;
mod opening;
mod turns;

pub use locked_shard::LockedShard;
pub use logs::{LogHead, LogItem, SeenDisk};
pub use turns::{ShardSeat, ShardTurns};
