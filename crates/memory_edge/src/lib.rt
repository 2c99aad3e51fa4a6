//! What lies outside the host, in memory: a desk, its inputs and journals, and an output. They fail at listed calls, and
//! a journal exposes what a crash may leave.
#![tactic(auto)]

mod failing_calls;
mod kept_disk;
mod memory_desk;
mod memory_sink;
mod memory_source;
mod memory_store;

pub use failing_calls::FailingCalls;
pub use memory_desk::{MemoryDesk, NEW_JOURNAL_ROOM};
pub use memory_sink::MemorySink;
pub use memory_source::MemorySource;
pub use memory_store::{ImageFault, MemoryStore};
