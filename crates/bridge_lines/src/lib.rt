//! The texts of the rule of replication: a stream's messages, and the lines between a node and the program that decides for it.
#![tactic(auto)]

mod action;
mod beginning;
mod event;
mod laws;
mod limits;
mod message;
mod records;
mod turn;
mod words;
mod writing;

pub use action::{Action, Counted, Cut, Why};
pub use beginning::{Beginning, Given};
pub use event::{Answered, Event};
pub use laws::{texts_are_read_exactly, turns_are_read_exactly};
pub use limits::{MAX_RECORDS, MOST_ACTION_BYTES, MOST_DIGITS, MOST_TURN_BYTES, NUMBER_END};
pub use message::Message;
pub use records::Records;
pub use turn::turn_end;
