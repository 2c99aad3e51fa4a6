//! The turns of a partition's rule over an input of lines: each is answered by lines, and by a dot.
//!
//! All room is taken before the first turn, and where a bridge begins anew.
#![tactic(auto)]

mod desk;
mod ended;
mod output;
mod printer;
mod server;
mod window;

pub use ended::Ended;
pub use output::Output;
pub use printer::Printer;
pub use server::{Served, serve, serve_to};
