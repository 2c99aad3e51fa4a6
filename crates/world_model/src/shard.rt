//! The shards of a world's host.
ghost use Rattle.std.specs.Prelude.{◌≡◌, List, [], ◌∷◌, ◌++◌, None, Some, is_some, IsOk, OnOk, OnErr};
ghost use Rattle.world_net.specs.WorldState.{no_shard};
ghost use Rattle.world_model.specs.FallBack.{truncated};

use issuer_base::{Entry, NoMemory};
use std::alloc::Global;
use std::marker::Model;
use world_net::Exchange;

/// A shard of a host in a world: its records, and the decision that is in doubt.
#[derive(Drop)]
pub(crate) struct ShardRecords {
    history: Vec<Entry>,

    /// The decision that was written last, if it is in doubt whether the store has it.
    doubt: Option<Exchange>,
}

impl Model for ShardRecords {
    ghost use Rattle.world_net.specs.WorldState.{ShardState};

    ghost Value = { ShardState };

    ghost view = { λ shard. record { history = shard.history.items; doubt = shard.doubt } };
}

impl ShardRecords {
    /// A shard without records.
    pub(crate) fn new(alloc: Global) -> ShardRecords
        ensures { result ≡ no_shard }
    {
        ShardRecords {
            history: Vec::new(alloc),
            doubt: None,
        }
    }

    /// The records, the first at 0.
    pub(crate) fn history(&self) -> &[Entry]
        ensures { result.now ≡ self.now.history }
    {
        self.history.as_slice()
    }

    /// Whether a decision is in doubt.
    pub(crate) fn is_doubtful(&self) -> bool
        ensures { result ≡ is_some self.now.doubt }
    {
        self.doubt.is_some()
    }

    /// A copy of the decision in doubt.
    pub(crate) fn doubt(&self) -> Option<Exchange>
        ensures { result ≡ self.now.doubt }
    {
        let doubt = self.doubt.as_ref()?;
        Some(doubt.copy())
    }

    /// Appends a record; a decision in doubt is dropped. If memory runs out, nothing changes.
    pub(crate) fn add(&mut self, entry: Entry) -> Result<(), NoMemory>
        ensures added { OnOk result (self.new ≡ record { history = self.old.history ++ entry ∷ []; doubt = None }) }
        ensures unchanged { OnErr result (self.new ≡ self.old) }
    {
        self.history.push(entry)?;
        self.doubt = None;
        Ok(())
    }

    /// Sets the decision in doubt, or none.
    pub(crate) fn set_doubt(&mut self, doubt: Option<Exchange>)
        ensures { self.new ≡ record { history = self.old.history; doubt = doubt } }
    {
        self.doubt = doubt;
    }

    /// Truncates the records to the first `count`; a decision in doubt is dropped.
    pub(crate) fn truncate(&mut self, count: usize)
        ensures { self.new ≡ truncated self.old count }
    {
        self.history.truncate(count);
        self.set_doubt(None);
    }
}
