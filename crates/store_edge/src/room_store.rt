//! A store in memory that exposes its bytes and its room.
ghost use Rattle.std.specs.Prelude.{◌≡◌, ◌+◌, ◌-◌, ◌<◌, ◌≤◌, ◌++◌, [], min, nat_lt, length, take, drop, Some, is_err, IfOk, IsOk, OnErr, OnOk};
ghost use Rattle.std.specs.Io.{ReadsAtMost};
ghost use Rattle.issuer_base.specs.OutsideFaults.{CountsFaults};
ghost use Rattle.std.proofs.Common.{refl};

use crate::copy::copy_from;
use issuer_base::{MAX_STORE_BYTES, NoMemory, Store, StoreFail};
use std::alloc::Global;
use std::marker::Model;

/// A store in memory with room for so many bytes, which fails past its room and nowhere else.
///
/// It exposes its room. It allocates all of that at first, so that no later call allocates. It
/// doesn't expose what a crash may leave.
#[derive(Drop)]
pub struct RoomStore {
    bytes: Vec<u8>,
    room: usize,
    faults: u64,
}

impl Model for RoomStore {
    ghost use Rattle.std.specs.Prelude.{◌≤◌, vec_len, vec_capacity};
    ghost use Rattle.issuer_base.specs.declared.limits.TheConstants.{MAX_STORE_BYTES};
    ghost use Rattle.store_edge.specs.RoomStores.{RoomState};

    ghost Value = { RoomState };

    ghost view = { λ s. record { held = s.bytes.items; room = s.room; faults = s.faults } };

    ghost invariant = { λ s. (vec_len s.bytes ≤ s.room) × (s.room ≤ vec_capacity s.bytes)
        × (s.room ≤ MAX_STORE_BYTES) };
}

impl RoomStore {
    /// An empty store. A room above [`MAX_STORE_BYTES`] is refused.
    pub fn new(alloc: Global, room: usize) -> Result<RoomStore, NoMemory>
        ensures { IfOk result (λ store. store ≡ record { held = []; room = room; faults = 0 }) }
    {
        if room as u64 > MAX_STORE_BYTES {
            return Err(NoMemory);
        }
        let bytes = Vec::with_capacity(alloc, room)?;
        Ok(RoomStore {
            bytes,
            room,
            faults: 0,
        })
    }
}

impl Store for RoomStore {
    ghost size = { λ s. length s.held };

    ghost bytes = { λ s. Some s.held };

    ghost room = { λ s. Some s.room };

    ghost faults = { λ s. s.faults };

    ghost told_size = { λ s. refl };

    ghost told_alike = { λ _ _. tt };

    ghost told_bytes = { λ s. tt };

    fn len(&self) -> u64 {
        self.bytes.len() as u64
    }

    /// Gives as many bytes as there are and as fit, and never fails.
    fn read_at(&mut self, at: u64, into: &mut [u8]) -> Result<usize, StoreFail>
        requires { 0 < length into.old }
        ensures bound { ReadsAtMost result into.new }
        ensures given { IfOk result (λ n. take n into.new ≡ take n (drop at self.old.held)) }
        ensures full { IfOk result (λ n. n ≡ min (length self.old.held - at) (length into.old)) }
        ensures ok { IsOk result }
        ensures same { self.new ≡ self.old }
    {
        Ok(copy_from(&self.bytes, at, into))
    }

    /// Fails exactly where the piece goes past the room, and then takes none of it.
    fn append(&mut self, piece: &[u8]) -> Result<(), StoreFail>
        ensures limit { OnOk result (length self.new.held ≤ MAX_STORE_BYTES) }
        ensures bytes { OnOk result (self.new.held ≡ self.old.held ++ piece.now) }
        ensures err { OnErr result (self.new.held ≡ self.old.held) }
        ensures fails { is_err result ≡ nat_lt self.old.room (length self.old.held + length piece.now) }
        ensures room { self.new.room ≡ self.old.room }
        ensures count { CountsFaults self.old.faults self.new.faults (is_err result) }
    {
        if piece.len() > self.room - self.bytes.len() {
            self.faults = self.faults.saturating_add(1);
            return Err(StoreFail);
        }
        self.bytes.extend_from_slice(piece).unwrap();
        Ok(())
    }

    /// Never fails.
    fn cut(&mut self, len: u64) -> Result<(), StoreFail>
        requires { len ≤ length self.old.held }
        ensures ok { IsOk result }
        ensures cut { self.new ≡ record self.old { held = take len self.old.held } }
    {
        self.bytes.truncate(len as usize);
        Ok(())
    }

    /// Never fails.
    fn sync(&mut self) -> Result<(), StoreFail>
        ensures ok { IsOk result }
        ensures same { self.new ≡ self.old }
    {
        Ok(())
    }
}
