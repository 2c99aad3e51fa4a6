//! A disk in memory that records each change.
ghost use Rattle.std.specs.Prelude.{◌≡◌, ◌≤◌, length, IfOk, OnErr, OnOk};
ghost use Rattle.memory_edge.specs.KeptDisk.{all_safe, appended, cut_to, goes_to, opened_disk};

use std::alloc::{AllocError, Global};
use std::marker::Model;

/// A change of a disk.
#[derive(Drop)]
pub(crate) enum Change {
    Appended(Vec<u8>),
    Cut(usize),
    Synced,
}

/// The bytes of a disk, the length of their durable prefix, and each change since it was opened.
///
/// A change is recorded before it is made, so that nothing changes if memory runs out.
#[derive(Drop)]
pub(crate) struct KeptDisk {
    alloc: Global,
    opening: Vec<u8>,
    changes: Vec<Change>,
    bytes: Vec<u8>,
    safe: usize,
}

impl Model for KeptDisk {
    ghost use Rattle.issuer_base.specs.Stores.{Disk};
    ghost use Rattle.memory_edge.specs.KeptDisk.{all_safe, moments_before, IsKept};

    ghost Value = { Disk };

    ghost view = { λ d. record {
      past = moments_before (all_safe d.opening.items) d.changes.items;
      now = record { bytes = d.bytes.items; safe = d.safe };
    } };

    ghost invariant = { λ d. IsKept d.opening.items d.changes.items (record { bytes = d.bytes.items; safe = d.safe }) };
}

impl KeptDisk {
    /// A disk with these bytes, all of them durable.
    pub(crate) fn new(alloc: Global, bytes: Vec<u8>) -> Result<KeptDisk, AllocError>
        ensures { IfOk result (λ disk. disk ≡ opened_disk bytes.items) }
    {
        let opening = bytes.clone()?;
        let safe = bytes.len();
        Ok(KeptDisk {
            alloc,
            opening,
            changes: Vec::new(alloc),
            bytes,
            safe,
        })
    }

    /// The present bytes.
    pub(crate) fn bytes(&self) -> &[u8]
        ensures { result.now ≡ self.now.now.bytes }
    {
        &self.bytes
    }

    /// The length of their durable prefix.
    pub(crate) fn safe(&self) -> usize
        ensures safe { result ≡ self.now.now.safe }
        ensures within { self.now.now.safe ≤ length self.now.now.bytes }
    {
        self.safe
    }

    /// Appends a piece.
    pub(crate) fn append(&mut self, piece: &[u8]) -> Result<(), AllocError>
        ensures ok { OnOk result (self.new ≡ goes_to self.old (appended piece.now self.old.now)) }
        ensures err { OnErr result (self.new ≡ self.old) }
    {
        let kept = piece.to_vec(self.alloc)?;
        self.bytes.reserve(piece.len())?;
        self.changes.push(Change::Appended(kept))?;
        self.bytes.extend_from_slice(piece).unwrap();
        Ok(())
    }

    /// Truncates the bytes to a length, and makes them durable.
    pub(crate) fn cut(&mut self, len: usize) -> Result<(), AllocError>
        requires { len ≤ length self.old.now.bytes }
        ensures ok { OnOk result (self.new ≡ goes_to self.old (cut_to len self.old.now)) }
        ensures err { OnErr result (self.new ≡ self.old) }
    {
        self.changes.push(Change::Cut(len))?;
        self.safe = len;
        self.bytes.truncate(len);
        Ok(())
    }

    /// Makes all bytes durable.
    pub(crate) fn sync(&mut self) -> Result<(), AllocError>
        ensures ok { OnOk result (self.new ≡ goes_to self.old (all_safe self.old.now.bytes)) }
        ensures err { OnErr result (self.new ≡ self.old) }
    {
        let whole = self.bytes.len();
        self.changes.push(Change::Synced)?;
        self.safe = whole;
        Ok(())
    }
}
