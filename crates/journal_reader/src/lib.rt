//! The records of journals, read again from their stores one after another: filed for a clearing check, or written as the
//! lines of a feed. Laws say what a clearing check accounts for, and what an export makes of a standby.
#![tactic(auto)]

mod accounts;
mod block;
mod copies;
mod export;
mod filing;
mod reader;

pub use accounts::every_approval_is_accounted_for;
pub use copies::an_export_makes_a_standby_its_primary;
pub use export::{ExportFault, Exporter};
pub use filing::{FilingFault, NotFiled, file_journals};
pub use reader::{RecordFault, RecordReader};
