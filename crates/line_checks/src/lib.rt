//! The checks of a line by an issuer's cards and keys. The result is what the line asks, with its card's number and
//! keys, or the first fault.
#![tactic(auto)]

mod card;
mod checked;
mod in_lanes;
mod line;
mod lines_ahead;
mod looked_up;
mod request;

pub use checked::{CheckedCommand, CheckedLine, CheckedOrder, CheckedRequest, CheckedStatus};
pub use in_lanes::check_in_lanes;
pub use line::{check_line, look_up};
pub use lines_ahead::{LinesAhead, MOST_AHEAD};
pub use looked_up::{CryptogramVerdict, LookedUp, LookedUpRequest};
pub use request::{check_request, look_up_request, refusal_of};
