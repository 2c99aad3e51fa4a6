//! A desk whose inputs and journals are files.
ghost use Rattle.std.specs.Prelude.{◌≡◌, true, None, Some, IfOk, string_bytes};
ghost use Rattle.issuer_base.specs.OutsideFaults.{CountsFaults};
ghost use Rattle.issuer_base.specs.declared.outside.DeskFault.TheVariants.{Fault};

use crate::file_source::FileSource;
use crate::file_store::FileStore;
use crate::locked_journal::{FileId, open_locked_journal};
use crate::named_call::NamedCall;
use issuer_base::{Desk, DeskCall, DeskFault};
use std::fs::File;

/// Opens files by their paths. It exposes nothing of what they hold, and counts its faults.
#[derive(Drop)]
pub struct FileDesk {
    rt: HostRuntime,
    /// The directory that was synced last.
    synced: Option<FileId>,
    faults: u64,
    last_fault: Option<NamedCall>,
}

impl FileDesk {
    /// A desk over the file system, with no fault counted.
    pub fn new(rt: HostRuntime) -> FileDesk
        ensures { (result.faults ≡ 0) × (result.last_fault ≡ None) }
    {
        FileDesk {
            rt,
            synced: None,
            faults: 0,
            last_fault: None,
        }
    }

    /// Counts a failed call, and stores it with its name.
    fn fail(&mut self, call: DeskCall, name: String) -> DeskFault
        ensures fault { result ≡ Fault }
        ensures last { self.new.last_fault ≡ Some (record { call = call; name = string_bytes name }) }
        ensures count { CountsFaults self.old.faults self.new.faults true }
    {
        self.faults = self.faults.saturating_add(1);
        self.last_fault = Some(NamedCall { call, name });
        DeskFault::Fault
    }
}

impl Desk for FileDesk {
    type Input = FileSource;

    type Journal = FileStore;

    ghost faults = { λ d. d.faults };

    ghost last_fault = { λ d. d.last_fault };

    /// Opens the file at this path for reading.
    fn read(&mut self, name: &str) -> Result<FileSource, DeskFault> {
        let asked = String::from_str(self.rt.alloc(), name)?;
        match File::open(&self.rt, name) {
            Ok(file) => Ok(FileSource::over(file)),
            Err(_) => Err(self.fail(DeskCall::Read, asked)),
        }
    }

    /// Opens the file at this path for reading and writing, and creates it if it doesn't exist.
    ///
    /// A file that it creates can be read and written by its owner alone, since records hold full card
    /// numbers. The file is locked for as long as the store over it lives: a second `log` of it, of this
    /// program or of another, is a fault. So is a symbolic link, and a file that everyone may write. A file
    /// that may only be read is opened all the same, and each write to it is a fault.
    ///
    /// The file and its directory were synced when this returns, but nothing was written to the file: its
    /// last bytes are rewritten once the store is changed or synced.
    fn log(&mut self, name: &str) -> Result<FileStore, DeskFault> {
        let asked = String::from_str(self.rt.alloc(), name)?;
        match open_locked_journal(&self.rt, name, &mut self.synced) {
            Ok(store) => Ok(store),
            Err(_) => Err(self.fail(DeskCall::Log, asked)),
        }
    }
}
