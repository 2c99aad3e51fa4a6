//! The limits of lists and of data objects.

/// How many entries a DOL has at most.
pub const MAX_ENTRIES: usize = 64;

/// How many bytes a filled DOL has at most: what one command carries to a card.
pub const MAX_FILLED_BYTES: usize = 252;

/// How many data objects are given at most.
pub const MAX_OBJECTS: usize = 64;

/// How many bytes the value of a given data object has at most.
pub const MAX_VALUE_BYTES: usize = 64;

/// How many bytes the data objects of a request have at most.
pub const MAX_REQUEST_BYTES: usize = 125;
