//! BER-TLV data objects, as in EMV 4.3 Book 3, Annex B: a cursor that returns the objects of a text, borrowed from it,
//! and a call that writes one. A tag has one to three bytes, a length one byte or 81 and one or 82 and two, and 00
//! bytes may occur before, between and after objects.
#![tactic(auto)]

mod cursor;
mod reading;
mod writing;

pub use cursor::{Object, Objects, TlvFault, objects_cover_the_text};
pub use reading::read_tag;
pub use writing::{Full, ROOM, put, tag_bytes};
