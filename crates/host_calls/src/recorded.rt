//! The ATCs that loaded shards have recorded.
ghost use Rattle.std.specs.Prelude.{length, IfOk};
ghost use Rattle.issuer_setup.specs.IssuerSetup.{Setup};
ghost use Rattle.host_calls.specs.RecordedCounters.{AreStanding, AreRecordedOf};

use issuer_base::{NoMemory, Store};
use shard_book::Shard;
use std::alloc::Global;

/// All recorded ATCs of the cards of these shards, each once, with the number of its card.
pub(crate) fn list_recorded<S: Store>(
    alloc: Global,
    shards: &[Shard<S>],
) -> Result<Vec<(u32, u16)>, NoMemory>
    ensures { (issuer : Setup) → AreStanding issuer shards.now
        → IfOk result (λ list. AreRecordedOf issuer shards.now (length shards.now) list.items) }
{
    let mut list = Vec::new(alloc);
    for shard in shards {
        shard.recorded(&mut list)?;
    }
    Ok(list)
}
