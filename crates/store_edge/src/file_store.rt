//! A store over a file.
ghost use Rattle.std.specs.Prelude.{◌≡◌, ◌⊎◌, ◌+◌, ◌≤◌, true, length, IfOk, OnOk};
ghost use Rattle.issuer_base.specs.OutsideFaults.{CountsFaults};

use crate::retry;
use issuer_base::{MAX_STORE_BYTES, MAX_UNSYNCED_BYTES, Store, StoreFail};
use std::fs::File;
use std::io;
use std::io::ErrorKind;

/// A file as a store. It exposes nothing of its bytes, and counts its faults.
///
/// It caches its length: the file's at first, then changed by its own writes and truncations. It writes nothing until
/// a call changes or syncs it, so a file that is only read stays as it is.
#[derive(Drop)]
pub struct FileStore {
    file: File,
    len: u64,
    is_end_sure: bool,
    faults: u64,
}

impl FileStore {
    /// A store over a file that is open for reading, and for writing if it is to change.
    pub(crate) fn over(file: File) -> io::Result<FileStore>
        ensures { IfOk result (λ store. store.faults ≡ 0) }
    {
        let len = file.metadata()?.len();
        Ok(FileStore {
            file,
            len,
            is_end_sure: len == 0,
            faults: 0,
        })
    }

    /// Counts a fault, and returns it.
    fn fault(&mut self) -> StoreFail
        ensures len { self.new.len ≡ self.old.len }
        ensures count { CountsFaults self.old.faults self.new.faults true }
    {
        self.faults = self.faults.saturating_add(1);
        StoreFail
    }
}

impl Store for FileStore {
    ghost size = { λ s. s.len };

    ghost faults = { λ s. s.faults };

    ghost told_size = { λ s. tt };

    ghost told_alike = { λ _ _. tt };

    ghost told_bytes = { λ s. tt };

    fn len(&self) -> u64 {
        self.len
    }

    fn read_at(&mut self, at: u64, into: &mut [u8]) -> Result<usize, StoreFail> {
        if at >= self.len {
            return Ok(0);
        }
        match retry::read_at(&self.file, into, at) {
            Ok(count) if count > 0 => Ok(count),
            _ => Err(self.fault()),
        }
    }

    fn append(&mut self, piece: &[u8]) -> Result<(), StoreFail> {
        if !self.is_end_sure && sync_file(&self.file, self.len, &mut self.is_end_sure).is_err() {
            return Err(self.fault());
        }
        match write_behind(&self.file, &mut self.len, piece) {
            Ok(()) => Ok(()),
            Err(_) => Err(self.fault()),
        }
    }

    fn cut(&mut self, len: u64) -> Result<(), StoreFail> {
        match set_length(&self.file, &mut self.len, len, &mut self.is_end_sure) {
            Ok(()) => Ok(()),
            Err(_) => Err(self.fault()),
        }
    }

    fn sync(&mut self) -> Result<(), StoreFail> {
        match sync_file(&self.file, self.len, &mut self.is_end_sure) {
            Ok(()) => Ok(()),
            Err(_) => Err(self.fault()),
        }
    }
}

/// Appends a piece, and adds to the length the bytes that were written.
fn write_behind(file: &File, len: &mut u64, piece: &[u8]) -> io::Result<()>
    ensures limit { OnOk result (len.new ≤ MAX_STORE_BYTES) }
    ensures ok { OnOk result (len.new ≡ len.old + length piece.now) }
    ensures err { len.old ≤ len.new }
{
    if *len > MAX_STORE_BYTES || piece.len() as u64 > MAX_STORE_BYTES - *len {
        return Err(ErrorKind::FileTooLarge.into());
    }
    let mut written = 0;
    while written < piece.len() {
        let count = retry::write_at(file, &piece[written..], *len)?;
        if count == 0 {
            return Err(ErrorKind::WriteZero.into());
        }
        written += count;
        *len += count as u64;
    }
    Ok(())
}

/// Sets the length of a file, and syncs it.
fn set_length(file: &File, len: &mut u64, new_len: u64, is_end_sure: &mut bool) -> io::Result<()>
    ensures ok { OnOk result (len.new ≡ new_len) }
    ensures err { (len.new ≡ len.old) ⊎ (len.new ≡ new_len) }
{
    file.set_len(new_len)?;
    *len = new_len;
    sync_file(file, new_len, is_end_sure)
}

/// Syncs a file of this length. Before the first sync that succeeds it rewrites the file's end.
fn sync_file(file: &File, len: u64, is_end_sure: &mut bool) -> io::Result<()> {
    if !*is_end_sure {
        rewrite_end(file, len)?;
    }
    file.sync_all()?;
    *is_end_sure = true;
    Ok(())
}

/// Rewrites the last bytes of a file of this length as they are, so that the sync that follows makes them durable.
///
/// After a failed sync, the system may drop what it could not write from its list, and the next sync
/// succeeds without it. At most one record of a journal is in doubt, or one step of its migration, and
/// it is the last.
///
/// It is a function of its own, so that other syncs don't pay for its buffer.
#[inline(never)]
fn rewrite_end(file: &File, len: u64) -> io::Result<()> {
    if len == 0 {
        return Ok(());
    }
    let mut end = [0; MAX_UNSYNCED_BYTES];
    let count = len.min(MAX_UNSYNCED_BYTES as u64);
    let end = &mut end[..count as usize];
    retry::read_exact_at(file, end, len - count)?;
    retry::write_all_at(file, end, len - count)
}
