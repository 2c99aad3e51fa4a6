//! The world of many cards in one large run: cards at terminals, a network that loses, repeats, holds back and
//! spoils, and their issuer's host.
#![tactic(auto)]

mod handing;
mod house;
mod law;
mod moves;
mod opening;
mod player;
mod queue_line;
mod reply;
mod run;
mod setting;
mod summary;
mod totals;

pub use law::{every_played_world_is_genuine, every_played_world_is_in_order};
pub use run::play;
pub use summary::{SUMMARY_ROOM, Summary, write_summary};
