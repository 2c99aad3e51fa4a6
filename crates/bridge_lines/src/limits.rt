//! The limits of messages and lines.

/// How many records a message has at most.
pub const MAX_RECORDS: usize = 100;

/// How many digits a number of a message or a line has at most.
pub const MOST_DIGITS: usize = 18;

/// No number of a message or a line is as great: each has 18 digits at most.
pub const NUMBER_END: u64 = 1_000_000_000_000_000_000;

/// How many bytes the lines of an event have at most: those of a message.
pub const MOST_TURN_BYTES: usize = 131_072;

/// How many bytes the lines of an action have at most: those of a message that is published.
pub const MOST_ACTION_BYTES: usize = 131_072;
