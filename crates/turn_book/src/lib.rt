//! Turns at shards: one caller at a time has a shard's value, and one atomic step counts each item of its log.
//!
//! A shard has a word that says whether its turn is taken, a word that counts its log's items, and a slot with its
//! value. A caller that enters a shard takes the value out and may append items to the log. It leaves with a value that
//! stands for the log.
#![tactic(auto)]

mod layout;
mod logs;
mod opening;
mod rule;
mod seat;
mod turns;
mod values;
mod view;

pub use logs::{Item, Log, Logged};
pub use opening::OpeningLogs;
pub use seat::TurnSeat;
pub use turns::{MAX_ITEMS, Turns};
pub use view::{Turn, TurnView};
