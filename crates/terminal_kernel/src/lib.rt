//! What a terminal does with data objects: it reads a list of them (DOL), reads their values, and fills the list
//! (EMV 4.3 Book 3, section 5.4); the objects of a request, and its line. No call allocates.
#![tactic(auto)]

mod chip_text;
mod dol;
mod filling;
mod given;
mod law;
mod limits;
mod number;
mod requested;

pub use chip_text::{MAX_REQUEST_LINE, request_line};
pub use dol::{BadDol, DolEntry, read_dol};
pub use filling::fill;
pub use given::{BadData, Data, read_data};
pub use law::what_is_written_is_read;
pub use limits::{MAX_ENTRIES, MAX_FILLED_BYTES, MAX_OBJECTS, MAX_REQUEST_BYTES, MAX_VALUE_BYTES};
pub use requested::request_objects;
