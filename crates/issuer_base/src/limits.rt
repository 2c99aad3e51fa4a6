//! The limits that several crates share.

/// How many shards an issuer has at most.
pub const MAX_SHARDS: u8 = 16;

/// How many key sets an issuer has at most.
pub const MAX_KEY_SETS: usize = 16;

/// How many callers share a host at most.
pub const MAX_CALLERS: u8 = 16;

/// How many cards an issuer has at most.
pub const MAX_CARDS: usize = 4_096;

/// How many rows a decision table has at most.
pub const MAX_TABLE_ROWS: usize = 64;

/// How many bytes the chip data of a request line have at most.
pub const MAX_CHIP_BYTES: usize = 1_024;

/// How many bytes of a line are read at most: no valid line is longer, and the bytes after them change no answer.
pub const KEPT_BYTES: usize = 2 * MAX_CHIP_BYTES + 3;

/// The greatest status of a card; 0 is the status of a card that was given none.
pub const MAX_STATUS: u8 = 9;

/// How far below a card's greatest ATC its window ends: an ATC that far below is too old.
pub const WINDOW: u16 = 256;

/// The window to which the records of a journal of version 1 are held.
pub const OLD_WINDOW: u16 = 64;

/// How many undone commands a card's queue holds at most.
pub const MAX_UNDONE: u8 = 64;

/// How many digits an account number has at least.
pub const MIN_PAN_DIGITS: usize = 8;

/// How many digits an account number has at most.
pub const MAX_PAN_DIGITS: usize = 19;

/// How many bytes of a reply go to the card at most.
pub const MAX_REPLY_BYTES: usize = 160;

/// How many bytes the data of a script command have at most.
pub const MAX_BODY_BYTES: usize = 64;

/// How many bytes a script template has at most, tag and length counted in.
pub const MAX_TEMPLATE_BYTES: usize = 128;

/// How many commands may ever be queued for a card: their numbers have four bytes, and end before the last such number.
pub const MAX_QUEUED: u32 = 4_294_967_295;

/// How many bytes a script template takes beside its commands: tag 72 and its length, tag 9F18 and its length, and a
/// number of four bytes.
pub const BARE_TEMPLATE_BYTES: usize = 2 + 3 + 4;

/// How many bytes a sealed command takes in a template beside its data: tag 86 and its length, a head of four bytes,
/// Lc, and a MAC of eight bytes.
pub const BARE_COMMAND_BYTES: usize = 2 + 4 + 1 + 8;

/// How many requests a card makes at most: its ATC has two bytes, and is 1 in the first request.
pub const MAX_CARD_REQUESTS: u32 = 65_535;

/// How many steps a world of cards takes at most.
pub const MAX_STEPS: u32 = 200_000;

/// How many bytes a store holds at most.
pub const MAX_STORE_BYTES: u64 = 1 << 62;

/// How many bytes the migration of a journal appends at most before it syncs them, and how many bytes at the end of a
/// journal are rewritten as it is opened: so whatever a failed sync may have lost is written again.
pub const MAX_UNSYNCED_BYTES: usize = 65_536;

/// How many faults of its store a shard reports at most; it counts no further.
pub const MAX_FAULTS_REPORTED: u64 = 1 << 62;
