//! The issuer's decision table: its rows, and the row that decides a request.
#![tactic(auto)]

mod row;
mod table;

pub use row::{MAX_AMOUNT, TableRow, tells_approval};
pub use table::{Table, decide, first_bad_row};
