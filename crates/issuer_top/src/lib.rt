//! The whole run of the program, by the command that its words ask for, over any desk and sink; and how it ends: what its
//! status and its last line say of all that the run saw.
#![tactic(auto)]

mod clear;
mod ended;
mod ending;
mod export;
mod filling;
mod opening;
mod pin;
mod play;
mod restart;
mod run;
mod show;
mod standby;
mod stopping;
mod top_call;

pub use ended::Ended;
pub use one_caller::every_image_loads_again;
pub use restart::{
    a_crash_leaves_a_standby_a_prefix_of_its_primary, every_image_of_a_standby_loads_again,
};
pub use top_call::issue;
