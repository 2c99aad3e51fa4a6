//! The row: what the host holds of each of an issuer's cards.
#![tactic(auto)]

mod accepting;
mod reply;
mod row;
mod scripts;

pub use accepting::{Accepted, answer_parts};
pub use issuer_setup::{CardInfo, Cards, CardsFault, Issuer, IssuerFault, KeySets, ShardCount};
pub use row::{Known, Outcome, Row};
pub use scripts::Launch;
