//! Records by the name of a barrier.
ghost use Rattle.std.specs.Prelude.{◌≡◌, ◌≤◌, [], length, vec_capacity, IfOk};
ghost use Rattle.bridge_lines.specs.declared.limits.TheConstants.{MAX_RECORDS};

use crate::limits::MAX_RECORDS;
use arrayvec::ArrayVec;
use bridge_rule::{Name, Placed};
use issuer_base::NoMemory;
use std::alloc::Global;

/// The records of a message, by the name of a barrier. The sequence tells messages apart, and no more.
#[derive(Drop)]
pub struct Records {
    pub name: Name,
    pub sequence: u64,
    /// At most [`MAX_RECORDS`], for which there is room.
    pub records: Vec<Placed>,
    ghost room: { MAX_RECORDS ≤ vec_capacity records },
    ghost most: { length records.items ≤ MAX_RECORDS },
}

impl Records {
    /// No records, and room for those of a message. No other call allocates.
    pub fn new(alloc: Global) -> Result<Records, NoMemory>
        ensures { IfOk result (λ records. (records.name.items ≡ []) × (records.sequence ≡ 0) × (records.records.items ≡ [])) }
    {
        Ok(Records {
            name: ArrayVec::new(),
            sequence: 0,
            records: Vec::with_capacity(alloc, MAX_RECORDS)?,
        })
    }
}
