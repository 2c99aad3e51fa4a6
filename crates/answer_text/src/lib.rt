//! The text that the host prints: a line for each answer, and the last line of a run that stops with an error.
#![tactic(auto)]

mod answer_line;
mod bytes_line;
mod card_words;
mod count_line;
mod queue_line;
mod stop_line;
mod words;

pub use answer_line::write_answer;
pub use bytes_line::write_bytes;
pub use card_words::put_card;
pub use count_line::write_count;
pub use queue_line::write_queue;
pub use stop_line::{Stop, write_stop};
pub use words::{LINE_ROOM, put, put_number};
