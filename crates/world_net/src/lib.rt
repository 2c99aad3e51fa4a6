//! Worlds: an issuer's host, its cards, its callers and the network between them, and the laws of every world.
#![tactic(auto)]

mod event;
mod generator;
mod law;
mod parts;

pub use event::Event;
pub use generator::fate;
pub use law::{
    every_card_runs_its_commands_in_order, every_legal_history_has_a_run, every_world_is_safe,
};
pub use parts::{Exchange, MadeRequest, OpenClaim};
