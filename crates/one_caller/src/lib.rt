//! The host of one caller over stores: a shard for each store, and the answer to each line.
//!
//! `specs/Turns.antt` states what a line may be answered, `specs/OneHistory.antt` what holds after any run of turns:
//! it is the contract of [`every_run_is_one_history`]. `specs/Runs.antt` states what a crash may leave meanwhile, and
//! `specs/Restarts.antt` that it loads again: it is the contract of [`every_image_loads_again`].
#![tactic(auto)]

mod law;
mod restart;
mod solo;

pub use law::every_run_is_one_history;
pub use restart::every_image_loads_again;
pub use solo::Solo;
