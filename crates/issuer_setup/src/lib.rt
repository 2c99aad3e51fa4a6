//! What an issuer is set up with: its shards, its key sets, its cards with their master keys, and its decision table.
#![tactic(auto)]

mod card;
mod card_id;
mod cards;
mod issuer;
mod kept_keys;
mod key_sets;
mod shard_count;

pub use card::CardInfo;
pub use cards::{Cards, CardsFault};
pub use issuer::{Issuer, IssuerFault};
pub use kept_keys::KeySlot;
pub use key_sets::KeySets;
pub use shard_count::ShardCount;
