//! A shard over a store: the rows of its cards, and the journal of its records.
#![tactic(auto)]

mod accepting;
mod adopting;
mod ahead;
mod answers;
mod loading;
mod migrating;
mod newline;
mod reading;
mod replay;
mod rows;
mod shard;
mod taking;

pub use ahead::look_up_record;
pub use answers::add_answer;
pub use newline::{first_newline, has_newline};
pub use replay::{LoadFault, Version};
pub use shard::{LoadBack, Shard};
pub use taking::TakeFault;
