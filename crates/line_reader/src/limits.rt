//! The byte that ends a line, and the limits of an input of lines.

/// The byte that ends a line.
pub const NEWLINE: u8 = b'\n';

/// The most lines of an input.
pub const MAX_LINES: u32 = 1_048_576;

/// The most bytes of an input.
pub const MAX_BYTES: u64 = 2_147_483_648;

/// The least size in bytes of the buffer, through which all of an input goes.
pub const BUFFER_BYTES: usize = 2_097_152;

/// The greatest size in bytes of the buffer.
pub const MAX_BUFFER_BYTES: usize = 8_388_608;
