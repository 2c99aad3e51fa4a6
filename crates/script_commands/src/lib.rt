//! Issuer script commands before they are sealed, as a journal, a line and a sealed command encode them: EMV 4.3 Book
//! 3, section 6.5. No call allocates.
#![tactic(auto)]

mod reading;

pub use reading::{command_of_parts, commands_have_one_text, read_command};
