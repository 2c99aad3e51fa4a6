//! A desk over inputs and journals in memory.
ghost use Rattle.std.specs.Prelude.{◌≡◌, ◌⊎◌, [], ◌∷◌, ◌++◌, false, true, None, Some, IfOk, OnOk, OnErr, IsNone, IsErrOf, string_bytes};
ghost use Rattle.std.specs.Option.{option_copied, option_map};
ghost use Rattle.issuer_base.specs.Desk.{is_fault};
ghost use Rattle.issuer_base.specs.OutsideFaults.{CountsFaults};
ghost use Rattle.memory_edge.specs.OutsideMemory.{after_call, is_next_listed};
ghost use Rattle.issuer_base.specs.declared.outside.DeskCall.TheVariants.{Log, Read};
ghost use Rattle.issuer_base.specs.declared.outside.DeskFault.TheVariants.{Fault};
ghost use Rattle.memory_edge.specs.MemoryDesks.{after_open, bytes_under, empty_desk, input_under, journal_under, logs_under, source_over, store_over, store_under};

use crate::failing_calls::FailingCalls;
use crate::memory_source::MemorySource;
use crate::memory_store::MemoryStore;
use issuer_base::{Desk, DeskCall, DeskFault, NoMemory};
use std::alloc::{AllocError, Global};
use std::marker::Model;
use store_edge::NamedCall;

/// The room, in bytes, of a journal that a [`MemoryDesk`] was not given.
pub const NEW_JOURNAL_ROOM: usize = 1_048_576;

/// A desk over inputs and journals in memory, which fails at the listed calls.
///
/// A name may be opened again, since each call returns a copy.
#[derive(Drop)]
pub struct MemoryDesk {
    alloc: Global,
    inputs: Vec<NamedInput>,
    journals: Vec<NamedJournal>,
    calls: FailingCalls,
    last_fault: Option<NamedCall>,
}

impl Model for MemoryDesk {
    ghost use Rattle.memory_edge.specs.MemoryDesks.{DeskState};

    ghost Value = { DeskState };

    ghost view = { λ d. record {
      inputs = d.inputs.items;
      journals = d.journals.items;
      calls = d.calls;
      last_fault = d.last_fault;
    } };
}

/// An input of a desk in memory.
#[derive(Drop)]
struct NamedInput {
    name: String,
    bytes: Vec<u8>,
    fails: Vec<u64>,
}

impl Model for NamedInput {
    ghost use Rattle.std.specs.Prelude.{string_bytes};
    ghost use Rattle.memory_edge.specs.MemoryDesks.{HeldInput};

    ghost Value = { HeldInput };

    ghost view = { λ i. record { name = string_bytes i.name; bytes = i.bytes.items; fails = i.fails.items } };
}

impl NamedInput {
    fn open(&self) -> Result<MemorySource, AllocError>
        ensures { IfOk result (λ source. source ≡ source_over self.now) }
    {
        let bytes = self.bytes.clone()?;
        let fails = self.fails.clone()?;
        Ok(MemorySource::new(bytes, fails))
    }
}

/// A journal of a desk in memory.
#[derive(Drop)]
struct NamedJournal {
    name: String,
    bytes: Vec<u8>,
    room: usize,
    fails: Vec<u64>,
}

impl Model for NamedJournal {
    ghost use Rattle.std.specs.Prelude.{string_bytes};
    ghost use Rattle.memory_edge.specs.MemoryDesks.{HeldJournal};

    ghost Value = { HeldJournal };

    ghost view = { λ j.
        record { name = string_bytes j.name; bytes = j.bytes.items; room = j.room; fails = j.fails.items } };
}

impl NamedJournal {
    fn open(&self, alloc: Global) -> Result<MemoryStore, NoMemory>
        ensures { IfOk result (λ store. store ≡ store_over (Some self.now)) }
    {
        let bytes = self.bytes.clone()?;
        let fails = self.fails.clone()?;
        MemoryStore::new(alloc, bytes, self.room, fails)
    }
}

impl MemoryDesk {
    /// A desk with no entries, whose calls fail where they are listed: `read` and `log` are counted
    /// together from 0.
    pub fn new(alloc: Global, fails: Vec<u64>) -> MemoryDesk
        ensures { result ≡ empty_desk fails.items }
    {
        MemoryDesk {
            alloc,
            inputs: Vec::new(alloc),
            journals: Vec::new(alloc),
            calls: FailingCalls::new(fails),
            last_fault: None,
        }
    }

    /// Adds an input under a name. It replaces an earlier one, which stays allocated.
    ///
    /// Its reads fail where they are listed, counted from 0 in each source over it.
    pub fn input(&mut self, name: String, bytes: Vec<u8>, fails: Vec<u64>) -> Result<(), NoMemory>
        ensures ok { OnOk result (self.new ≡ record self.old {
          inputs = self.old.inputs
              ++ record { name = string_bytes name; bytes = bytes.items; fails = fails.items } ∷ [];
        }) }
        ensures err { OnErr result (self.new ≡ self.old) }
    {
        let held = NamedInput { name, bytes, fails };
        self.inputs.push(held).map_err(AllocError::from)?;
        Ok(())
    }

    /// Adds a journal under a name. It replaces an earlier one, which stays allocated.
    ///
    /// It has room for so many bytes in all, and its store's calls fail where they are listed, counted
    /// from 0 in each store over it.
    pub fn journal(
        &mut self,
        name: String,
        bytes: Vec<u8>,
        room: usize,
        fails: Vec<u64>,
    ) -> Result<(), NoMemory>
        ensures ok { OnOk result (self.new ≡ record self.old {
          journals = self.old.journals
              ++ record { name = string_bytes name; bytes = bytes.items; room = room; fails = fails.items } ∷ [];
        }) }
        ensures err { OnErr result (self.new ≡ self.old) }
    {
        let held = NamedJournal {
            name,
            bytes,
            room,
            fails,
        };
        self.journals.push(held).map_err(AllocError::from)?;
        Ok(())
    }

    // A store over the journal under a name, or over a new one.
    fn store(&self, name: &str) -> Result<MemoryStore, NoMemory>
        ensures { IfOk result (λ store. store ≡ store_under self.now.journals name.now) }
    {
        match last_journal(&self.journals, name) {
            Some(journal) => journal.open(self.alloc),
            None => {
                let (bytes, fails) = (Vec::new(self.alloc), Vec::new(self.alloc));
                MemoryStore::new(self.alloc, bytes, NEW_JOURNAL_ROOM, fails)
            }
        }
    }

    // Counts a failed call, and stores it with its name.
    fn fail(&mut self, call: DeskCall, name: String) -> DeskFault
        ensures fault { result ≡ Fault }
        ensures failed { self.new ≡ record self.old {
          calls = after_call self.old.calls true;
          last_fault = Some (record { call = call; name = string_bytes name });
        } }
        ensures count { CountsFaults self.old.calls.faults self.new.calls.faults true }
    {
        self.calls.count_call();
        self.calls.count_fault();
        self.last_fault = Some(NamedCall { call, name });
        DeskFault::Fault
    }
}

impl Desk for MemoryDesk {
    type Input = MemorySource;

    type Journal = MemoryStore;

    ghost holds = { λ d. bytes_under d.inputs };

    ghost logs = { λ d. logs_under d.journals };

    ghost faults = { λ d. d.calls.faults };

    ghost last_fault = { λ d. d.last_fault };

    /// Answers `Fault` exactly at a listed call and where there is no input under the name, unless memory runs out.
    ///
    /// A call that runs out of memory is not counted, and leaves the desk as it was.
    fn read(&mut self, name: &str) -> Result<MemorySource, DeskFault>
        ensures ok { OnOk result (is_next_listed self.old.calls ≡ false) }
        ensures given { IfOk result (λ input. option_map source_over (input_under self.old.inputs name.now)
            ≡ Some input) }
        ensures fault { IsErrOf result DeskFault.Fault
            → (is_next_listed self.old.calls ≡ true) ⊎ IsNone (input_under self.old.inputs name.now) }
        ensures after { self.new ≡ after_open Read name.now result self.old }
        ensures count { CountsFaults self.old.calls.faults self.new.calls.faults (is_fault result) }
    {
        let asked = String::from_str(self.alloc, name)?;
        if !self.calls.is_next_listed()
            && let Some(input) = last_input(&self.inputs, name)
        {
            let opened = input.open()?;
            self.calls.count_call();
            return Ok(opened);
        }
        Err(self.fail(DeskCall::Read, asked))
    }

    /// Answers `Fault` exactly at a listed call, unless memory runs out.
    ///
    /// A call that runs out of memory is not counted, and leaves the desk as it was.
    fn log(&mut self, name: &str) -> Result<MemoryStore, DeskFault>
        ensures ok { OnOk result (is_next_listed self.old.calls ≡ false) }
        ensures given { IfOk result (λ journal. journal ≡ store_under self.old.journals name.now) }
        ensures fault { IsErrOf result DeskFault.Fault → is_next_listed self.old.calls ≡ true }
        ensures after { self.new ≡ after_open Log name.now result self.old }
        ensures count { CountsFaults self.old.calls.faults self.new.calls.faults (is_fault result) }
    {
        let asked = String::from_str(self.alloc, name)?;
        if self.calls.is_next_listed() {
            return Err(self.fail(DeskCall::Log, asked));
        }
        match self.store(name) {
            Ok(opened) => {
                self.calls.count_call();
                Ok(opened)
            }
            Err(NoMemory) => Err(DeskFault::NoMemory),
        }
    }
}

// The last input that was added under the name.
fn last_input<'a>(inputs: &'a [NamedInput], name: &str) -> Option<&'a NamedInput>
    ensures { option_copied result ≡ input_under inputs.now name.now }
{
    inputs
        .iter()
        .rev()
        .find(|input| input.name.as_str() == name)
}

// The last journal that was added under the name.
fn last_journal<'a>(journals: &'a [NamedJournal], name: &str) -> Option<&'a NamedJournal>
    ensures { option_copied result ≡ journal_under journals.now name.now }
{
    journals
        .iter()
        .rev()
        .find(|journal| journal.name.as_str() == name)
}
