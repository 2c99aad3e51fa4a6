//! The limits of a feed line.

/// The capacity of the buffer for a feed line.
pub const FEED_ROOM: usize = 544;

/// The greatest length of a feed line, with its newline: a shard of two digits, an index of nineteen, and the longest
/// record.
pub const MOST_FEED_BYTES: usize = 524;

/// No record's index is as great.
pub const PLACE_END: u64 = 1 << 63;
