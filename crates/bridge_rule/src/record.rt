//! The records of a message.

use crate::opening::Text;

/// A record with its shard, and its index in the shard's journal.
#[derive(Drop)]
pub struct Placed {
    pub shard: u8,
    pub index: u64,
    pub text: Text,
}
