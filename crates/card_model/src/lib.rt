//! A model of the issuer's chip card, as far as its host can observe it: requests with application cryptograms, issuer
//! authentication, and issuer script commands under secure messaging. EMV 4.3 Book 2, sections 8 and 9; Book 3,
//! sections 6.5 and 10.
#![tactic(auto)]

mod card;
mod terminal;

pub use card::{Card, LAST_COUNTER, MOST_COUNTED};
pub use terminal::Terminal;
