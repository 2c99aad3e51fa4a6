//! The words of a run: the command that they are, and its names and numbers.
#![tactic(auto)]

mod pin_words;
mod words;

pub use pin_words::PinWords;
pub use words::{
    ClearWords, DolTexts, ExportWords, ServeWords, ShowWords, StandbyWords, Task, WorldSize,
    read_words,
};
