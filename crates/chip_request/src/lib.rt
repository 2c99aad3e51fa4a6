//! Parsers for the lines of the host's input, and for the chip data of a request for a cryptogram's check (EMV 4.3
//! Book 3, Annexes A and B).
#![tactic(auto)]

mod form;
mod hex_digits;
mod line;
mod line_parts;
mod reading;
mod slots;

pub use line::{LineForm, LineKind, MAX_QUEUE_BYTES, read_line, read_line_into};
pub use reading::{RequestFault, read_request};
