//! What lies outside the host: the program's process, the desk, the stores of a shard's records and the output over files,
//! and a store in memory.
#![tactic(auto)]

mod copy;
mod file_desk;
mod file_sink;
mod file_source;
mod file_store;
mod locked_journal;
mod named_call;
mod process;
mod retry;
mod room_store;

pub use copy::copy_from;
pub use file_desk::FileDesk;
pub use file_sink::FileSink;
pub use file_source::FileSource;
pub use file_store::FileStore;
pub use named_call::NamedCall;
pub use process::{Process, StartFault};
pub use room_store::RoomStore;
