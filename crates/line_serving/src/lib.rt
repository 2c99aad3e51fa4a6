//! The lines of an input, taken one after another: request lines, answered by one caller or by several at once; clearing
//! lines, judged by the records on file; the lines of a feed, taken by a standby. What is printed is written in blocks.
#![tactic(auto)]

mod alone;
mod answer_block;
mod follower;
mod hosts;
mod journals;
mod judge;
mod loading;
mod serve;
mod together;

pub use alone::AloneHost;
pub use follower::{Followed, Follower};
pub use hosts::LineHost;
pub use journals::{LoadedShards, load_journals, load_shards};
pub use judge::Judge;
pub use loading::load_host;
pub use serve::Server;
