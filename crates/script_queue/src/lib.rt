//! The issuer script commands that are queued for a card, oldest first.
//!
//! [`Queue::new`] allocates the room for all of them, so no later call allocates.
#![tactic(auto)]

mod queue;

pub use queue::Queue;
