//! System calls that are retried where a signal interrupts them, or where they have to wait.
ghost use Rattle.std.specs.Io.{ReadsAtMost, WritesAtMost};

use std::fs::File;
use std::io::{ErrorKind, Read, Write};
use std::os::unix::fs::FileExt;
use std::time::Duration;
use std::{io, thread};

/// How often a call is tried that signals interrupt each time. The last interruption is its fault.
const MAX_TRIES: u32 = 1_000;

/// How long it waits for an output that can take nothing now, in milliseconds.
const PAUSE: u64 = 1;

/// Reads the next bytes of a file.
pub(crate) fn read(file: &mut File, into: &mut [u8]) -> io::Result<usize>
    ensures { ReadsAtMost result into.new }
{
    for _ in 1..MAX_TRIES {
        match file.read(into) {
            Err(error) if error.kind() == ErrorKind::Interrupted => {}
            done => return done,
        }
    }
    file.read(into)
}

/// Reads the bytes at an offset of a file.
pub(crate) fn read_at(file: &File, into: &mut [u8], at: u64) -> io::Result<usize>
    ensures { ReadsAtMost result into.new }
{
    for _ in 1..MAX_TRIES {
        match file.read_at(into, at) {
            Err(error) if error.kind() == ErrorKind::Interrupted => {}
            done => return done,
        }
    }
    file.read_at(into, at)
}

/// Writes a prefix of the piece at an offset of a file.
pub(crate) fn write_at(file: &File, piece: &[u8], at: u64) -> io::Result<usize>
    ensures { WritesAtMost result piece.now }
{
    for _ in 1..MAX_TRIES {
        match file.write_at(piece, at) {
            Err(error) if error.kind() == ErrorKind::Interrupted => {}
            done => return done,
        }
    }
    file.write_at(piece, at)
}

/// Reads the bytes at an offset of a file until `into` is full.
pub(crate) fn read_exact_at(file: &File, into: &mut [u8], at: u64) -> io::Result<()> {
    let mut given = 0;
    while given < into.len() {
        let count = read_at(file, &mut into[given..], at.saturating_add(given as u64))?;
        if count == 0 {
            return Err(ErrorKind::UnexpectedEof.into());
        }
        given += count;
    }
    Ok(())
}

/// Writes the whole piece at an offset of a file.
pub(crate) fn write_all_at(file: &File, piece: &[u8], at: u64) -> io::Result<()> {
    let mut written = 0;
    while written < piece.len() {
        let count = write_at(file, &piece[written..], at.saturating_add(written as u64))?;
        if count == 0 {
            return Err(ErrorKind::WriteZero.into());
        }
        written += count;
    }
    Ok(())
}

/// Writes a prefix of the piece to the standard output, and passes it on to the system.
///
/// Where the output can take nothing at once, as a full pipe that another process made non-blocking, it waits.
pub(crate) fn write_out(rt: &HostRuntime, piece: &[u8]) -> io::Result<usize>
    ensures { WritesAtMost result piece.now }
{
    for _ in 0..u64::MAX {
        match write_now(rt, piece) {
            Err(error) if error.kind() == ErrorKind::WouldBlock => thread::sleep(
                rt,
                Duration::from_millis(PAUSE),
            ),
            done => return done,
        }
    }
    write_now(rt, piece)
}

/// Writes a prefix of the piece to the standard output, if it can take some at once.
fn write_now(rt: &HostRuntime, piece: &[u8]) -> io::Result<usize>
    ensures { WritesAtMost result piece.now }
{
    let mut writer = io::writer(rt);
    for _ in 1..MAX_TRIES {
        match writer.write(piece) {
            Err(error) if error.kind() == ErrorKind::Interrupted => {}
            done => return done,
        }
    }
    writer.write(piece)
}
