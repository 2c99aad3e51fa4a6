//! The lines of a feed: the records of journals, each with its shard and its index. No call allocates.
#![tactic(auto)]

mod laws;
mod limits;
mod read;
mod write;

pub use laws::a_line_has_one_head;
pub use limits::{FEED_ROOM, MOST_FEED_BYTES, PLACE_END};
pub use read::{FeedHead, read_head};
pub use write::write_feed_line;
