//! The records of a journal as lines of text. Each record has one text, and a line is parsed as the record whose text
//! it is, or refused. No call allocates.
#![tactic(auto)]

mod digits;
mod laws;
mod limits;
mod pan;
mod read;
mod record_line;
mod write;

pub use laws::{a_text_has_one_reading, a_text_is_one_line, no_text_begins_another};
pub use limits::{
    LEAST_RECORD_BYTES, MOST_QUEUED_BYTES, MOST_RECORD_BYTES, RECORD_ROOM, VERSION_LINE,
};
pub use read::read_entry;
pub use write::{write_decided, write_entry};
