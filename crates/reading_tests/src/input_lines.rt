//! The lines of inputs that are read in chunks of several sizes, and of one that fails.

use issuer_base::KEPT_BYTES;
use line_reader::{LineReader, NextLine};
use memory_edge::MemorySource;
use std::test::Fail;

/// A text of lines: a byte, and how often it occurs in its line.
const LINES: [(u8, usize); 7] = [
    (b'a', 2),
    (b'b', 0),
    (b'c', KEPT_BYTES - 1),
    (b'd', KEPT_BYTES),
    (b'e', 5_000),
    (b'f', 140_000),
    (b'g', 1),
];

#[test]
fn lines_are_the_same_in_pieces_of_any_size(rt: HostRuntime) -> Result<(), Fail> {
    for step in [1, 100, 1_000_000] {
        let mut text = Vec::new(rt.alloc());
        for (byte, count) in LINES {
            let line = vec![in rt.alloc(); byte; count]?;
            text.extend_from_slice(&line)?;
            text.push(b'\n')?;
        }
        text.extend_from_slice(b"last")?;
        let mut source = MemorySource::with_step(text, vec![in rt.alloc()]?, step);
        let mut reader = LineReader::new(rt.alloc())?;
        for (byte, count) in LINES {
            assert_eq!(rt; reader.next_line(&mut source), NextLine::Line);
            let line = reader.line();
            assert_eq!(rt; line.len(), count.min(KEPT_BYTES));
            for kept in line {
                assert_eq!(rt; *kept, byte);
            }
        }
        assert_eq!(rt; reader.next_line(&mut source), NextLine::Rest);
        assert_eq!(rt; reader.line(), b"last".as_slice());
        assert_eq!(rt; reader.next_line(&mut source), NextLine::End);
        assert_eq!(rt; reader.number(), 8);
    }
    Ok(())
}

#[test]
fn a_fault_ends_the_lines(rt: HostRuntime) -> Result<(), Fail> {
    let text = Vec::from_slice(rt.alloc(), b"one\ntw")?;
    let mut source = MemorySource::with_step(text, vec![in rt.alloc(); 2]?, 3);
    let mut reader = LineReader::new(rt.alloc())?;
    assert_eq!(rt; reader.next_line(&mut source), NextLine::Line);
    assert_eq!(rt; reader.line(), b"one".as_slice());
    assert!(rt; !reader.has_line());
    assert_eq!(rt; reader.next_line(&mut source), NextLine::Fault);
    assert_eq!(rt; reader.number(), 1);
    Ok(())
}
