//! The rule by which a partition's bridge on one machine reads the stream, answers, and takes over.
//!
//! [`Bridge::new`] allocates all memory; no later call allocates. Each method's contract says which event of
//! `one_history` it is, for every machine that the bridge stands for.
#![tactic(auto)]

mod bridge;
mod held;
mod law;
mod limits;
mod log;
mod opening;
mod reading;
mod record;
mod role;
mod serving;

pub use bridge::Bridge;
pub use held::{Held, Place};
pub use law::{
    a_host_records_after_what_is_known, a_mark_changes_nothing, a_position_is_kept,
    others_change_nothing, what_is_known_is_published,
};
pub use limits::{INDEX_END, LOGS, NAME_ROOM, TEXT_ROOM};
pub use log::{Log, Step};
pub use opening::{Name, Opening, Text, copied, copied_text, is_same_name};
pub use reading::Diverged;
pub use record::Placed;
pub use role::{Role, Turn};
pub use serving::Full;
