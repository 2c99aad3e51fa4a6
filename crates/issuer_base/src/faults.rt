//! The faults of one value each.
use std::alloc::{AllocError, AllocFailed};

/// Out of memory.
#[derive(Clone, Copy, PartialEq, Eq, Debug)]
pub struct NoMemory;

impl From<AllocError> for NoMemory {
    fn from(_error: AllocError) -> NoMemory {
        NoMemory
    }
}

impl<T: Drop> From<AllocFailed<T>> for NoMemory {
    fn from(_failed: AllocFailed<T>) -> NoMemory {
        NoMemory
    }
}

/// A source failed while it was read: the fault lies with the source.
#[derive(Clone, Copy, PartialEq, Eq, Debug)]
pub struct ReadFault;

/// A sink failed while it was written to: the fault lies with the sink.
#[derive(Clone, Copy, PartialEq, Eq, Debug)]
pub struct WriteFault;

/// A store failed: the fault lies with the store.
#[derive(Clone, Copy, PartialEq, Eq, Debug)]
pub struct StoreFail;

/// A collection of fixed capacity is full.
#[derive(Clone, Copy, PartialEq, Eq, Debug)]
pub struct Full;

/// A card's command queue is full: it holds as many undone commands as it may.
#[derive(Clone, Copy, PartialEq, Eq, Debug)]
pub struct QueueFull;

/// The bytes are those of no script command that the host sends.
#[derive(Clone, Copy, PartialEq, Eq, Debug)]
pub struct BadCommand;

/// The bytes are those of no record.
#[derive(Clone, Copy, PartialEq, Eq, Debug)]
pub struct NotEntry;
