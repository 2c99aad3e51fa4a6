//! A store in memory that exposes what a crash may leave.
ghost use Rattle.std.specs.Prelude.{◌≡◌, ◌⊎◌, ◌+◌, ◌-◌, ◌<◌, ◌≤◌, ◌↔◌, true, length, take, drop, min, Some, is_err, IfOk, IfSome, IsNone, OnErr, OnOk};
ghost use Rattle.std.specs.Io.{ReadsAtMost};
ghost use Rattle.std.proofs.Common.{refl};
ghost use Rattle.issuer_base.specs.OutsideFaults.{CountsFaults};
ghost use Rattle.memory_edge.specs.OutsideMemory.{is_next_listed};
ghost use Rattle.issuer_base.specs.Stores.{AppendsToBytes, AppendsToDisk, CutsBytes, CutsDisk, KeepsDisk, MayLeave, SyncsDisk};
ghost use Rattle.memory_edge.specs.MemoryStores.{after_append, after_cut, after_read, after_starved, after_sync, append_fails, called, front_taken, is_too_long, opened_store, taken, EndsAs};

use crate::failing_calls::FailingCalls;
use crate::kept_disk::KeptDisk;
use issuer_base::{MAX_STORE_BYTES, NoMemory, Store, StoreFail};
use std::alloc::{AllocError, Global};
use std::marker::Model;
use store_edge::copy_from;

/// Out of memory: the image could not be allocated.
#[derive(Clone, Copy, PartialEq, Eq, Debug)]
pub struct ImageFault;

impl From<AllocError> for ImageFault {
    fn from(_error: AllocError) -> ImageFault {
        ImageFault
    }
}

/// A store in memory that fails at the listed calls, and records each change.
///
/// Its reads, appends, truncations and syncs are counted together from 0. A call that runs out of
/// memory fails too, and has a count of its own.
#[derive(Drop)]
pub struct MemoryStore {
    alloc: Global,
    disk: KeptDisk,
    room: usize,
    calls: FailingCalls,
    starved: u64,
}

impl Model for MemoryStore {
    ghost use Rattle.std.specs.Prelude.{◌≤◌, length};
    ghost use Rattle.memory_edge.specs.MemoryStores.{StoreState};

    ghost Value = { StoreState };

    ghost view = { λ s. record { disk = s.disk; room = s.room; calls = s.calls; starved = s.starved } };

    ghost invariant = { λ s. s.disk.now.safe ≤ length s.disk.now.bytes };
}

impl MemoryStore {
    /// A store with these bytes, all of them durable, and room for so many in all.
    ///
    /// It fails at the listed calls, counted from 0, and where an append goes past its room.
    pub fn new(
        alloc: Global,
        bytes: Vec<u8>,
        room: usize,
        fails: Vec<u64>,
    ) -> Result<MemoryStore, NoMemory>
        ensures { IfOk result (λ store. store ≡ opened_store bytes.items room fails.items) }
    {
        let disk = KeptDisk::new(alloc, bytes)?;
        Ok(MemoryStore {
            alloc,
            disk,
            room,
            calls: FailingCalls::new(fails),
            starved: 0,
        })
    }

    /// What a crash now may leave with this length: `None` exactly where the length is below the
    /// durable length or above the store's.
    pub fn image(&self, len: u64) -> Result<Option<Vec<u8>>, ImageFault>
        ensures none { IfOk result (λ image. IsNone image ↔ ((len < self.now.disk.now.safe)
            ⊎ (length self.now.disk.now.bytes < len))) }
        ensures left { IfOk result (λ image. IfSome image (λ left. MayLeave self.now.disk.now left.items)) }
        ensures length { IfOk result (λ image. IfSome image (λ left. length left.items ≡ len)) }
    {
        let bytes = self.disk.bytes();
        if len < self.disk.safe() as u64 || len > bytes.len() as u64 {
            return Ok(None);
        }
        Ok(Some(bytes[..len as usize].to_vec(self.alloc)?))
    }

    /// How many calls failed because memory ran out, saturating at 2^64 - 1.
    pub fn starved(&self) -> u64
        ensures { result ≡ self.now.starved }
    {
        self.starved
    }

    // Whether an append of this piece goes past the room, or past what any store holds.
    fn is_too_long(&self, piece: &[u8]) -> bool
        ensures { result ≡ is_too_long self.now piece.now }
    {
        let size = self.disk.bytes().len() as u64 + piece.len() as u64;
        size > self.room as u64 || size > MAX_STORE_BYTES
    }

    // Whether the next call fails, if it appends this piece.
    fn append_fails(&self, piece: &[u8]) -> bool
        ensures { result ≡ append_fails self.now piece.now }
    {
        self.calls.is_next_listed() || self.is_too_long(piece)
    }

    // The prefix of its piece that an append appends where it fails.
    fn front_taken<'a>(&self, piece: &'a [u8]) -> &'a [u8]
        ensures { result.now ≡ front_taken self.now piece.now }
    {
        let free = self.room.saturating_sub(self.disk.bytes().len());
        &piece[..(piece.len() / 2).min(free)]
    }

    // The prefix of its piece that the next append appends.
    fn taken<'a>(&self, piece: &'a [u8]) -> &'a [u8]
        ensures { result.now ≡ taken self.now piece.now }
    {
        if self.append_fails(piece) {
            self.front_taken(piece)
        } else {
            piece
        }
    }

    // Counts a call that fails or not.
    fn end_call(&mut self, fails: bool) -> Result<(), StoreFail>
        ensures called { self.new ≡ called self.old fails self.old.disk }
        ensures failed { is_err result ≡ fails }
        ensures count { CountsFaults self.old.calls.faults self.new.calls.faults fails }
    {
        self.calls.count_call();
        if fails {
            self.calls.count_fault();
            return Err(StoreFail);
        }
        Ok(())
    }

    // Counts a call that ran out of memory.
    fn starve(&mut self) -> Result<(), StoreFail>
        ensures starved { self.new ≡ after_starved self.old }
        ensures failed { is_err result ≡ true }
        ensures count { CountsFaults self.old.calls.faults self.new.calls.faults true }
    {
        self.calls.count_call();
        self.calls.count_fault();
        self.starved = self.starved.saturating_add(1);
        Err(StoreFail)
    }
}

impl Store for MemoryStore {
    ghost size = { λ s. length s.disk.now.bytes };

    ghost bytes = { λ s. Some s.disk.now.bytes };

    ghost disk = { λ s. Some s.disk };

    ghost faults = { λ s. s.calls.faults };

    ghost told_size = { λ s. refl };

    ghost told_alike = { λ _ _. tt };

    ghost told_bytes = { λ s. refl };

    fn len(&self) -> u64 {
        self.disk.bytes().len() as u64
    }

    /// Fails exactly at a listed call, and else reads as many bytes as there are and fit.
    fn read_at(&mut self, at: u64, into: &mut [u8]) -> Result<usize, StoreFail>
        requires { 0 < length into.old }
        ensures bound { ReadsAtMost result into.new }
        ensures given { IfOk result (λ n. take n into.new ≡ take n (drop at self.old.disk.now.bytes)) }
        ensures full { IfOk result (λ n. n ≡ min (length self.old.disk.now.bytes - at) (length into.old)) }
        ensures disk { KeepsDisk self.old.disk self.new.disk }
        ensures failed { is_err result ≡ is_next_listed self.old.calls }
        ensures after { self.new ≡ after_read self.old }
        ensures count { CountsFaults self.old.calls.faults self.new.calls.faults (is_err result) }
    {
        if self.calls.count_call() {
            self.calls.count_fault();
            return Err(StoreFail);
        }
        Ok(copy_from(self.disk.bytes(), at, into))
    }

    /// Fails at a listed call, where the piece goes past the room, and where memory runs out. In the
    /// first two cases it appends the first half of the piece, as far as there is room.
    fn append(&mut self, piece: &[u8]) -> Result<(), StoreFail>
        ensures limit { OnOk result (length self.new.disk.now.bytes ≤ MAX_STORE_BYTES) }
        ensures size { OnOk result (length self.new.disk.now.bytes
            ≡ length self.old.disk.now.bytes + length piece.now) }
        ensures size_err { OnErr result (length self.old.disk.now.bytes ≤ length self.new.disk.now.bytes) }
        ensures bytes { AppendsToBytes piece.now (is_err result) self.old.disk.now.bytes self.new.disk.now.bytes }
        ensures disk { AppendsToDisk piece.now (is_err result) self.old.disk self.new.disk }
        ensures count { CountsFaults self.old.calls.faults self.new.calls.faults (is_err result) }
        ensures ends { EndsAs self.old self.new (is_err result) (after_append self.old piece.now)
            (append_fails self.old piece.now) }
    {
        let fails = self.append_fails(piece);
        let taken = self.taken(piece);
        match self.disk.append(taken) {
            Ok(()) => self.end_call(fails),
            Err(_) => self.starve(),
        }
    }

    /// Fails at a listed call and where memory runs out, and then changes nothing.
    fn cut(&mut self, len: u64) -> Result<(), StoreFail>
        requires { len ≤ length self.old.disk.now.bytes }
        ensures size { OnOk result (length self.new.disk.now.bytes ≡ len) }
        ensures size_err { OnErr result ((length self.new.disk.now.bytes ≡ length self.old.disk.now.bytes)
            ⊎ (length self.new.disk.now.bytes ≡ len)) }
        ensures bytes { CutsBytes len (is_err result) self.old.disk.now.bytes self.new.disk.now.bytes }
        ensures disk { CutsDisk len (is_err result) self.old.disk self.new.disk }
        ensures count { CountsFaults self.old.calls.faults self.new.calls.faults (is_err result) }
        ensures ends { EndsAs self.old self.new (is_err result) (after_cut self.old len)
            (is_next_listed self.old.calls) }
    {
        if self.calls.is_next_listed() {
            return self.end_call(true);
        }
        match self.disk.cut(len as usize) {
            Ok(()) => self.end_call(false),
            Err(_) => self.starve(),
        }
    }

    /// Fails at a listed call and where memory runs out, and then changes nothing.
    fn sync(&mut self) -> Result<(), StoreFail>
        ensures size { length self.new.disk.now.bytes ≡ length self.old.disk.now.bytes }
        ensures bytes { self.new.disk.now.bytes ≡ self.old.disk.now.bytes }
        ensures disk { SyncsDisk (is_err result) self.old.disk self.new.disk }
        ensures count { CountsFaults self.old.calls.faults self.new.calls.faults (is_err result) }
        ensures ends { EndsAs self.old self.new (is_err result) (after_sync self.old) (is_next_listed self.old.calls) }
    {
        if self.calls.is_next_listed() {
            return self.end_call(true);
        }
        match self.disk.sync() {
            Ok(()) => self.end_call(false),
            Err(_) => self.starve(),
        }
    }
}
