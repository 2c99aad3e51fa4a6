//! An issuer and its host from a desk: the configuration is read, the journals are opened and loaded, and the cards
//! shown, each by a printed line. Laws say by which records a card is answered, and what the decision table decides.
#![tactic(auto)]

mod card_line;
mod config;
mod deciding;
mod isolation;
mod journals;
mod migrated;
mod showing;

pub use config::read_issuer;
pub use deciding::{
    a_repeat_is_answered_without_the_table, every_approval_is_within_a_row_that_approves,
};
pub use isolation::{
    a_card_is_answered_by_its_own_records, several_callers_answer_a_card_by_its_own_records,
};
pub use journals::{Journals, Loaded, NoHost, load_alone, no_host, open_journals, stop_of_load};
pub use migrated::a_repeat_of_a_migrated_record_is_kept;
pub use showing::show;
