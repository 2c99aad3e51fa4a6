//! The answers of a host that wait until their records count.

/// Where a record is: its shard and its index there.
#[derive(Clone, Copy)]
pub struct Place {
    pub shard: u8,
    pub index: u64,
}

/// What waits: a reply, by its number, or none; and the record that has to count before it goes, or none.
#[derive(Clone, Copy)]
pub struct Held {
    pub reply: Option<u64>,
    pub place: Option<Place>,
}
