//! The names by which a seat of a shared table proves that all other seats were joined into it.
//!
//! This crate is almost all definitions: `specs/SeatNames.antt` says which names the seats of a table hold, and when a
//! seat is whole. Its theorem is the contract of [`a_whole_seat_is_alone`].
#![tactic(auto)]

mod law;
mod seat_name;

pub use law::a_whole_seat_is_alone;
pub use seat_name::SeatName;
