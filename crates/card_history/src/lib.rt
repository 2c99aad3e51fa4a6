//! What a shard's history states of its cards, and what a shard may answer to a line.
//!
//! This crate is almost all definitions. `specs/Records.antt` defines what a shard's history states of a card, and
//! `specs/Scripts.antt` which of its issuer script commands are done and which go with the next reply.
//! `specs/Turns.antt` defines what may be answered to a line, and the history afterwards; `specs/LegalRecords.antt`
//! which record is a valid successor. The law of a card's commands is the contract of
//! [`every_card_gets_its_commands_in_order`].
#![tactic(auto)]

mod card_view;
mod decision;
mod law;

pub use card_view::CardView;
pub use decision::{Asked, Decision};
pub use law::every_card_gets_its_commands_in_order;
