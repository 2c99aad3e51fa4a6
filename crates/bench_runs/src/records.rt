//! The records of a journal, parsed and written repeatedly.

use journal_rec::{read_entry, write_entry};

/// Parses all lines `times` times, and returns how many of them are those of records.
pub(crate) fn read_all(lines: &[Vec<u8>], times: u64) -> u64 {
    let mut count = 0;
    for _ in 0..times {
        count = read_each(lines);
    }
    count
}

/// Parses all lines `times` times, and writes the records. Returns how many lines are those of records, and are written
/// unchanged.
pub(crate) fn write_all(lines: &[Vec<u8>], times: u64) -> u64 {
    let mut count = 0;
    for _ in 0..times {
        count = write_each(lines);
    }
    count
}

fn read_each(lines: &[Vec<u8>]) -> u64 {
    let mut count = 0u64;
    for line in lines {
        if read_entry(line.as_slice()).is_ok() {
            count = count.wrapping_add(1);
        }
    }
    count
}

fn write_each(lines: &[Vec<u8>]) -> u64 {
    let mut count = 0u64;
    for line in lines {
        let line = line.as_slice();
        if let Ok(entry) = read_entry(line) {
            if write_entry(&entry).as_slice().starts_with(line) {
                count = count.wrapping_add(1);
            }
        }
    }
    count
}
