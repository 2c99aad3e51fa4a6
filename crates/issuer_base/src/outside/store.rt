//! The trait of what keeps a shard's records: bytes that grow at their end. A crash leaves the durable ones.
ghost use Rattle.std.specs.Prelude.{◌≡◌, ◌⊎◌, ℕ, ◌+◌, ◌<◌, ◌≤◌, List, length, take, drop, Option, None, Some, is_err, IfOk, IfSome, OnErr, OnOk};
ghost use Rattle.std.specs.Io.{ReadsAtMost};
ghost use Rattle.issuer_base.specs.OutsideFaults.{CountsFaults};
ghost use Rattle.issuer_base.specs.Stores.{AppendsToBytes, AppendsToDisk, BothTold, CutsBytes, CutsDisk, Disk, KeepsDisk, SyncsDisk, WorksWithin};

use crate::faults::StoreFail;
use crate::limits::MAX_STORE_BYTES;

/// Bytes that outlive the program: they are read anywhere, and change at their end alone.
///
/// A crash leaves a prefix of the bytes that has at least the durable ones; a sync makes all of
/// them durable. An implementor exposes its disk, its bytes alone or neither, and counts its
/// faults: the count never falls, and a call fails only if the fault count increased.
pub trait Store {
    // How many bytes it has.
    ghost size: { Self → ℕ };

    // Its bytes, `None` where the store doesn't expose them.
    ghost bytes: { Self → Option (List ℕ) } = { λ _. None };

    // Its past moments and the present one, from which follows what a crash may leave; `None` where it exposes none.
    ghost disk: { Self → Option Disk } = { λ _. None };

    // The size up to which no call fails but an append past it; `None` where the store states none.
    ghost room: { Self → Option ℕ } = { λ _. None };

    // How many of its calls failed, counted up to 2^64 - 1.
    ghost faults: { Self → ℕ };

    /// How many bytes it has, the durable ones included.
    fn len(&self) -> u64
        ensures size { result ≡ size self.now }
        ensures safe { IfSome (disk self.now) (λ told. told.now.safe ≤ length told.now.bytes) };

    /// Reads bytes from offset `at` on into a prefix of `into`, and returns how many.
    ///
    /// At least one is read if `at` is below the length, and none if it isn't.
    fn read_at(&mut self, at: u64, into: &mut [u8]) -> Result<usize, StoreFail>
        requires { 0 < length into.old }
        ensures bound { ReadsAtMost result into.new }
        ensures some { at < size self.old → IfOk result (λ n. 0 < n) }
        ensures none { size self.old ≤ at → IfOk result (λ n. n ≡ 0) }
        ensures given { IfOk result (λ n. IfSome (bytes self.old) (λ told. take n into.new ≡ take n (drop at told))) }
        ensures size { size self.new ≡ size self.old }
        ensures bytes { bytes self.new ≡ bytes self.old }
        ensures disk { BothTold KeepsDisk (disk self.old) (disk self.new) }
        ensures room { WorksWithin 0 (is_err result) (size self.old) (room self.old) (room self.new) }
        ensures count { CountsFaults (faults self.old) (faults self.new) (is_err result) };

    /// Appends a piece. A fault may leave a prefix of it appended.
    ///
    /// A piece that would go past [`MAX_STORE_BYTES`] is a fault.
    fn append(&mut self, piece: &[u8]) -> Result<(), StoreFail>
        ensures limit { OnOk result (size self.new ≤ MAX_STORE_BYTES) }
        ensures size { OnOk result (size self.new ≡ size self.old + length piece.now) }
        ensures size_err { OnErr result (size self.old ≤ size self.new) }
        ensures bytes { BothTold (AppendsToBytes piece.now (is_err result)) (bytes self.old) (bytes self.new) }
        ensures disk { BothTold (AppendsToDisk piece.now (is_err result)) (disk self.old) (disk self.new) }
        ensures room { WorksWithin (length piece.now) (is_err result) (size self.old) (room self.old) (room self.new) }
        ensures count { CountsFaults (faults self.old) (faults self.new) (is_err result) };

    /// Truncates the bytes to a length, and makes them durable. A fault may leave them truncated or not.
    fn cut(&mut self, len: u64) -> Result<(), StoreFail>
        requires { len ≤ size self.old }
        ensures size { OnOk result (size self.new ≡ len) }
        ensures size_err { OnErr result ((size self.new ≡ size self.old) ⊎ (size self.new ≡ len)) }
        ensures bytes { BothTold (CutsBytes len (is_err result)) (bytes self.old) (bytes self.new) }
        ensures disk { BothTold (CutsDisk len (is_err result)) (disk self.old) (disk self.new) }
        ensures room { WorksWithin 0 (is_err result) (size self.old) (room self.old) (room self.new) }
        ensures count { CountsFaults (faults self.old) (faults self.new) (is_err result) };

    /// Makes all bytes durable.
    fn sync(&mut self) -> Result<(), StoreFail>
        ensures size { size self.new ≡ size self.old }
        ensures bytes { bytes self.new ≡ bytes self.old }
        ensures disk { BothTold (SyncsDisk (is_err result)) (disk self.old) (disk self.new) }
        ensures room { WorksWithin 0 (is_err result) (size self.old) (room self.old) (room self.new) }
        ensures count { CountsFaults (faults self.old) (faults self.new) (is_err result) };

    // Exposed bytes are as many as the size.
    ghost told_size: { (store : Self) → IfSome (bytes store) (λ told. size store ≡ length told) };

    // Of the stores of one type all expose their bytes, or none does.
    ghost told_alike: { (one other : Self) → BothTold (λ _ _. Unit {0}) (bytes one) (bytes other) };

    // A store that exposes its disk exposes its bytes, which are those of the present moment.
    ghost told_bytes: { (store : Self) → IfSome (disk store) (λ told. bytes store ≡ Some told.now.bytes) };
}
