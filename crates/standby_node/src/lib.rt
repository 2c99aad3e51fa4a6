//! A standby: a node that takes the records of another host's feed into journals of its own. No call allocates.
#![tactic(auto)]

mod feed_lines;
mod laws;
mod line;
mod standby;

pub use feed_lines::FeedLines;
pub use laws::{a_line_does_one_thing, a_standby_follows_its_primary, a_stream_does_one_thing};
pub use line::FeedFault;
pub use standby::Standby;
