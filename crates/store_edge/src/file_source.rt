//! An input that is a file.
ghost use Rattle.std.specs.Prelude.{◌≡◌};

use crate::retry;
use issuer_base::{ReadFault, Source};
use std::fs::File;

/// A file that is read in order. It exposes nothing of its bytes, and counts its faults.
#[derive(Drop)]
pub struct FileSource {
    file: File,
    faults: u64,
}

impl FileSource {
    /// A source over a file that is open for reading, at its start.
    pub(crate) fn over(file: File) -> FileSource
        ensures { result.faults ≡ 0 }
    {
        FileSource { file, faults: 0 }
    }
}

impl Source for FileSource {
    ghost faults = { λ s. s.faults };

    fn read(&mut self, into: &mut [u8]) -> Result<usize, ReadFault> {
        match retry::read(&mut self.file, into) {
            Ok(count) => Ok(count),
            Err(_) => {
                self.faults = self.faults.saturating_add(1);
                Err(ReadFault)
            }
        }
    }
}
