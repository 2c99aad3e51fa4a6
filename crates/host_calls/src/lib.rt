//! The host of several callers over stores: each caller has a pass of its own, claims an ATC, and takes its turn at
//! the shard.
//!
//! `Authorises` of `call_steps` says what a line may be answered, and `IsClosed` what is known once all passes are
//! joined and the host is closed. [`Solo`] is the host of one caller, of the crate `one_caller`.
#![tactic(auto)]

mod answering;
mod close;
mod finish;
mod host;
mod load;
mod pass;
mod pre_check;
mod recorded;
mod share;

pub use card_history::CardView;
pub use host::Host;
pub use host_loading::{HostBack, LoadFault};
pub use one_caller::{Solo, every_run_is_one_history};
pub use pass::Pass;
pub use shared_laws::Checked;
