//! The program's process.
ghost use Rattle.std.specs.Prelude.{◌≡◌};

use crate::file_desk::FileDesk;
use crate::file_source::FileSource;
use crate::file_store::FileStore;
use issuer_base::{NoMemory, Words};
use std::fs::File;
use std::io::ErrorKind;
use std::{env, io};

/// A device without bytes.
const EMPTY_DEVICE: &str = "/dev/null";

/// Why the program can't start.
#[derive(Clone, Copy)]
pub enum StartFault {
    /// `/dev/null` can't be opened.
    NoDevice,
    /// No memory is left for the arguments.
    NoMemory,
}

/// The program's process: its arguments, and handles that protect the standard descriptors.
#[derive(Drop)]
pub struct Process {
    words: Words,
    _held: [File; 3],
}

impl Process {
    /// Opens the handles and reads the arguments.
    pub fn start(rt: &HostRuntime) -> Result<Process, StartFault> {
        let Ok(held) = hold_standard_descriptors(rt) else {
            return Err(StartFault::NoDevice);
        };
        match read_words(rt) {
            Ok(words) => Ok(Process { words, _held: held }),
            Err(NoMemory) => Err(StartFault::NoMemory),
        }
    }

    /// The command-line arguments without the program's name, or none if one of them isn't text.
    pub fn words(&self) -> &Words
        ensures { result.now ≡ self.now.words }
    {
        &self.words
    }

    /// Closes the files of a run, and the handles.
    pub fn end(
        self,
        _desk: FileDesk,
        _config: Option<FileSource>,
        _requests: Option<FileSource>,
        _olds: Vec<FileStore>,
        _stores: Vec<FileStore>,
    ) {}
}

/// Handles of the empty device, which replace the standard descriptors that are closed.
///
/// A file that is opened gets the lowest free descriptor. While these are held, no configuration, request file or
/// journal becomes the standard input, output or error output. The handles are read-only, so a write to an output
/// that was closed is a fault.
fn hold_standard_descriptors(rt: &HostRuntime) -> io::Result<[File; 3]> {
    Ok([
        File::open(rt, EMPTY_DEVICE)?,
        File::open(rt, EMPTY_DEVICE)?,
        File::open(rt, EMPTY_DEVICE)?,
    ])
}

/// The command-line arguments, or none if one of them isn't text.
fn read_words(rt: &HostRuntime) -> Result<Words, NoMemory> {
    let mut words = Words::new(rt.alloc());
    match env::args(rt) {
        Ok(args) => {
            for word in args.skip(1) {
                words.push(word.as_str())?;
            }
        }
        Err(error) if error.kind() == ErrorKind::OutOfMemory => return Err(NoMemory),
        Err(_) => {}
    }
    Ok(words)
}
