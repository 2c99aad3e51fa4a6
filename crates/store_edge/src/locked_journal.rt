//! Journals as files: opened or created, locked, and durable in their directory.
ghost use Rattle.std.specs.Prelude.{◌≡◌, IfOk};

use crate::file_store::FileStore;
use std::fs::{File, Metadata};
use std::io::ErrorKind;
use std::os::unix::fs::{MetadataExt, OpenOptionsExt};
use std::path::Path;
use std::{fs, io};

/// The mode of a created journal: its owner reads and writes it.
const OWNER_ALONE: u32 = 0o600;

/// The bit of a mode by which everyone may write the file.
const WRITTEN_BY_ALL: u32 = 0o002;

/// A file of the system, by whatever path or handle it is reached.
#[derive(Clone, Copy, PartialEq, Eq)]
pub(crate) struct FileId {
    device: u64,
    inode: u64,
}

impl FileId {
    fn of(metadata: &Metadata) -> FileId {
        FileId {
            device: metadata.dev(),
            inode: metadata.ino(),
        }
    }
}

/// A file that was opened as a journal.
#[derive(Drop)]
struct Opened {
    file: File,

    /// Whether this call created it.
    is_new: bool,
}

/// A store over the file at this path, locked, with its bytes and its entry in the directory synced.
///
/// The directory is synced unless it is the one that was synced last, and the file was there before.
pub(crate) fn open_locked_journal(
    rt: &HostRuntime,
    name: &str,
    synced: &mut Option<FileId>,
) -> io::Result<FileStore>
    ensures { IfOk result (λ store. store.faults ≡ 0) }
{
    let Opened { file, is_new } = open_or_create(rt, name)?;
    file.try_lock()?;
    refuse_foreign(rt, name, &file)?;
    file.sync_all()?;
    sync_directory(rt, name, is_new, synced)?;
    FileStore::over(file)
}

/// Opens the file at this path for reading and writing, or creates it.
///
/// A file that may not be written is opened for reading alone. So an old journal may be one that nobody may change, and
/// the first write to any other is a fault.
fn open_or_create(rt: &HostRuntime, name: &str) -> io::Result<Opened> {
    match File::options().read(true).write(true).open(rt, name) {
        Ok(file) => Ok(Opened {
            file,
            is_new: false,
        }),
        Err(error) => match error.kind() {
            ErrorKind::NotFound => Ok(Opened {
                file: create(rt, name)?,
                is_new: true,
            }),
            ErrorKind::PermissionDenied | ErrorKind::ReadOnlyFilesystem => Ok(Opened {
                file: File::open(rt, name)?,
                is_new: false,
            }),
            _ => Err(error),
        },
    }
}

/// Creates the file at this path, for its owner alone. A path that is there by now, or a link to nothing, is refused.
fn create(rt: &HostRuntime, name: &str) -> io::Result<File> {
    File::options()
        .read(true)
        .write(true)
        .create_new(true)
        .mode(OWNER_ALONE)
        .open(rt, name)
}

/// Refuses a file that the path names by a symbolic link, or doesn't name any more, or that isn't a regular one, or that
/// everyone may write.
fn refuse_foreign(rt: &HostRuntime, name: &str, file: &File) -> io::Result<()> {
    let opened = file.metadata()?;
    let named = fs::symlink_metadata(rt, name)?;
    let is_named = FileId::of(&named) == FileId::of(&opened);
    if is_named && opened.is_file() && opened.mode() & WRITTEN_BY_ALL == 0 {
        Ok(())
    } else {
        Err(ErrorKind::PermissionDenied.into())
    }
}

/// Syncs the directory of this path, unless it is the one that was synced last and the path's file is not new.
fn sync_directory(
    rt: &HostRuntime,
    name: &str,
    is_new: bool,
    synced: &mut Option<FileId>,
) -> io::Result<()> {
    let path = match Path::new(name).parent() {
        Some(directory) if !directory.as_str().is_empty() => directory,
        _ => Path::new("."),
    };
    let directory = File::open(rt, path)?;
    let id = FileId::of(&directory.metadata()?);
    if is_new || *synced != Some(id) {
        directory.sync_all()?;
        *synced = Some(id);
    }
    Ok(())
}
