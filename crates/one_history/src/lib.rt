//! One history over several machines: what counts in a stream, the machines that read it, and the law of every run.
//!
//! This crate is all definitions. Its theorems are the contracts of functions that do nothing.
#![tactic(auto)]

mod law;

pub use law::{
    machines_keep_any_rule, machines_make_one_history, only_the_next_counts,
    ten_events_reach_a_reply, who_follows_truncates_nothing,
};
