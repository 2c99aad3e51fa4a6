//! The lengths, in bytes, of the texts of records and their parts.

use issuer_base::MAX_BODY_BYTES;

/// The first line of a journal of version 2.
pub const VERSION_LINE: [u8; 3] = *b"v2\n";

/// The capacity of the buffer for the text of a record.
pub const RECORD_ROOM: usize = 512;

/// The least length of a record's text: that of a status.
pub const LEAST_RECORD_BYTES: usize = 28;

/// The greatest length of a record's text: that of a decided request with the longest reply.
pub const MOST_RECORD_BYTES: usize = 501;

/// The length of the text of a queued command has at most: that of a command with the longest data.
pub const MOST_QUEUED_BYTES: usize = 163;

/// How many bytes a request.
pub(crate) const REQUEST_BYTES: usize = 85;

/// The length of an account number.
pub(crate) const PAN_BYTES: usize = 10;

/// How many digits an account number has with its padding.
pub(crate) const PAN_DIGITS: usize = 2 * PAN_BYTES;

/// The greatest length of a script command: its header and its data.
pub(crate) const COMMAND_BYTES: usize = 4 + MAX_BODY_BYTES;
