//! Why a record of another host isn't taken.

/// Why a shard doesn't take a record.
#[derive(Clone, Copy, PartialEq, Eq, Debug)]
pub enum TakeFault {
    /// The record is no valid successor of the shard's records: it is of another issuer or another shard, or it was
    /// changed, or it comes out of order.
    NotLegal,

    /// The store failed: the record is in doubt.
    StoreFault,
}
