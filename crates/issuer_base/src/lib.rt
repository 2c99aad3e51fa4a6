//! The plain types of the issuer's authorisation host, and the traits of what lies outside it.
#![tactic(auto)]

mod answer;
mod chip_data;
mod command;
mod entry;
mod faults;
mod limits;
mod outside;
mod pan;
mod request;
mod words;

pub use answer::{Answer, MasterOption, Method, Refusal, Reply};
pub use chip_data::{are_decimal, has_profile, is_decimal};
pub use command::Command;
pub use entry::Entry;
pub use faults::{
    BadCommand, Full, NoMemory, NotEntry, QueueFull, ReadFault, StoreFail, WriteFault,
};
pub use limits::{
    BARE_COMMAND_BYTES, BARE_TEMPLATE_BYTES, KEPT_BYTES, MAX_BODY_BYTES, MAX_CALLERS,
    MAX_CARD_REQUESTS, MAX_CARDS, MAX_CHIP_BYTES, MAX_FAULTS_REPORTED, MAX_KEY_SETS,
    MAX_PAN_DIGITS, MAX_QUEUED, MAX_REPLY_BYTES, MAX_SHARDS, MAX_STATUS, MAX_STEPS,
    MAX_STORE_BYTES, MAX_TABLE_ROWS, MAX_TEMPLATE_BYTES, MAX_UNDONE, MAX_UNSYNCED_BYTES,
    MIN_PAN_DIGITS, OLD_WINDOW, WINDOW,
};
pub use outside::{Desk, DeskCall, DeskFault, Gate, OpenGate, Sink, Source, Store, write_all};
pub use pan::Pan;
pub use request::{Parts, Request, Suite};
pub use words::Words;
