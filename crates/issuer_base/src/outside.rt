//! The traits of what lies outside the host: inputs, the output, and the desk that opens inputs and journals by name.
ghost use Rattle.std.specs.Prelude.{◌≡◌, ℕ, ◌<◌, List, [], length, Option, None, Some, is_err, IfOk, IfSome, IsErr, OnErr};
ghost use Rattle.std.specs.Io.{ReadsAtMost, WritesAtMost};
ghost use Rattle.std.specs.Io.KnownBytes.{ReadConsumes, WriteAppends};
ghost use Rattle.issuer_base.specs.OutsideFaults.{CountsFaults};
ghost use Rattle.issuer_base.specs.Sink.{WritesAll};
ghost use Rattle.issuer_base.specs.Tells.{Tells};
ghost use Rattle.issuer_base.specs.Desk.{FailedCall, is_fault, last_after};
ghost use Rattle.issuer_base.specs.declared.outside.DeskCall.TheVariants.{Log, Read};
ghost use Rattle.issuer_base.specs.declared.outside.DeskFault.TheVariants.{NoMemory};

mod gate;
mod store;

use crate::faults::{ReadFault, WriteFault};
pub use gate::{Gate, OpenGate};
use std::alloc::AllocError;
pub use store::Store;

/// Bytes that are read in order.
///
/// An implementor may expose its unread bytes to contracts. It counts its faults: the count never
/// falls, and a read fails only if the fault count increased.
pub trait Source {
    // The unread bytes, `None` where the source doesn't expose them.
    ghost left: { Self → Option (List ℕ) } = { λ _. None };

    // How many of its calls failed, counted up to 2^64 - 1.
    ghost faults: { Self → ℕ };

    /// Reads the next bytes into a prefix of `into`, and returns how many.
    ///
    /// `Ok(0)` is the end of the input. A fault consumes no byte.
    fn read(&mut self, into: &mut [u8]) -> Result<usize, ReadFault>
        requires { 0 < length into.old }
        ensures bound { ReadsAtMost result into.new }
        ensures bytes { ReadConsumes (left self.old) (left self.new) result into.new }
        ensures count { CountsFaults (faults self.old) (faults self.new) (is_err result) };
}

/// A destination of bytes, written piece by piece.
///
/// An implementor may expose what it holds, and counts its faults as a [`Source`] does.
pub trait Sink {
    // The bytes that it holds, `None` where the sink doesn't expose them.
    ghost held: { Self → Option (List ℕ) } = { λ _. None };

    // How many of its calls failed, counted up to 2^64 - 1.
    ghost faults: { Self → ℕ };

    /// Writes a prefix of the piece, at least one byte, and returns its length.
    ///
    /// Writing none is a fault, and a fault writes none.
    fn write(&mut self, piece: &[u8]) -> Result<usize, WriteFault>
        requires { 0 < length piece.now }
        ensures some { IfOk result (λ n. 0 < n) }
        ensures bound { WritesAtMost result piece.now }
        ensures bytes { WriteAppends (held self.old) (held self.new) result piece.now }
        ensures count { CountsFaults (faults self.old) (faults self.new) (is_err result) };
}

/// Why a desk gave no input or journal.
#[derive(Clone, Copy, PartialEq, Eq, Debug)]
pub enum DeskFault {
    /// The fault is the desk's: no input has the name, or what has it could not be opened.
    Fault,
    /// Out of memory.
    NoMemory,
}

impl From<AllocError> for DeskFault {
    ghost from_gives = { λ _ fault. fault ≡ NoMemory };

    fn from(_error: AllocError) -> DeskFault {
        DeskFault::NoMemory
    }
}

/// The two calls of a desk.
#[derive(Clone, Copy)]
pub enum DeskCall {
    /// To open an input.
    Read,
    /// To open a journal.
    Log,
}

/// Opens inputs and journals by their names.
pub trait Desk {
    type Input: Source;

    type Journal: Store + Send;

    // The input under a name: `None` where the desk doesn't expose it, and else the bytes, if there is an input.
    ghost holds: { Self → List ℕ → Option (Option (List ℕ)) } = { λ _ _. None };

    // The bytes of the journal under a name, `None` where the desk exposes none; empty before the journal exists.
    ghost logs: { Self → List ℕ → Option (List ℕ) } = { λ _ _. None };

    // How many of its calls answered `Fault`, counted up to 2^64 - 1.
    ghost faults: { Self → ℕ };

    // Its last call that answered `Fault`, none at first.
    ghost last_fault: { Self → Option FailedCall };

    /// Opens the input under a name, at its start and with no fault counted.
    ///
    /// A name without an input is a fault. What the names hold doesn't change.
    fn read(&mut self, name: &str) -> Result<Self::Input, DeskFault>
        ensures input { IfOk result (λ input. Tells (holds self.old name.now) (Self.Input.left input)) }
        ensures absent { holds self.old name.now ≡ Some None → IsErr result }
        ensures new { IfOk result (λ input. Self.Input.faults input ≡ 0) }
        ensures kept { holds self.new ≡ holds self.old }
        ensures kept_logs { logs self.new ≡ logs self.old }
        ensures count { CountsFaults (faults self.old) (faults self.new) (is_fault result) }
        ensures last { last_fault self.new ≡ last_after Read name.now (is_fault result) (last_fault self.old) };

    /// Opens the journal under a name, with no fault counted and no past moment. A journal that doesn't exist yet is an
    /// empty one.
    ///
    /// What the other names hold doesn't change. If the call fails, neither does what this name holds.
    fn log(&mut self, name: &str) -> Result<Self::Journal, DeskFault>
        ensures journal { IfOk result (λ journal. IfSome (logs self.old name.now)
            (λ held. Self.Journal.bytes journal ≡ Some held)) }
        ensures untouched { IfOk result (λ journal. IfSome (Self.Journal.disk journal) (λ disk. disk.past ≡ [])) }
        ensures new { IfOk result (λ journal. Self.Journal.faults journal ≡ 0) }
        ensures kept { holds self.new ≡ holds self.old }
        ensures others { (other : List ℕ) → (other ≡ name.now → ⊥) → logs self.new other ≡ logs self.old other }
        ensures refused { OnErr result (logs self.new ≡ logs self.old) }
        ensures count { CountsFaults (faults self.old) (faults self.new) (is_fault result) }
        ensures last { last_fault self.new ≡ last_after Log name.now (is_fault result) (last_fault self.old) };
}

/// Writes a whole piece, in as many calls as the sink needs for it.
///
/// After a fault the sink has a proper prefix of the piece.
pub fn write_all<W: Sink>(out: &mut W, piece: &[u8]) -> Result<(), WriteFault>
    ensures bytes { WritesAll (W.held out.old) (W.held out.new) result piece.now }
    ensures count { CountsFaults (W.faults out.old) (W.faults out.new) (is_err result) }
{
    let mut written = 0;
    while written < piece.len() {
        written += out.write(&piece[written..])?;
    }
    Ok(())
}
