//! The clearing check: lines of transaction certificates are compared with the decided records of journals, which are filed
//! by card and ATC; and the lines that it prints, for verdicts, open records and totals.
#![tactic(auto)]

mod atc_pages;
mod book;
mod filed;
mod filed_records;
mod lines;
mod presented;
mod presented_ahead;
mod verdict;

pub use book::Book;
pub use filed::Filed;
pub use filed_records::{FiledRecords, OpenRecord};
pub use lines::{write_open, write_total, write_verdict};
pub use presented_ahead::PresentedAhead;
pub use verdict::Verdict;
