//! An input that comes in small chunks.
ghost use Rattle.std.specs.Prelude.{◌≡◌};

use issuer_base::{ReadFault, Source};

/// A text, repeated `times` times, in chunks of at most `piece` bytes, whose reads fail after
/// `reads`.
#[derive(Clone, Copy, Drop)]
pub(crate) struct Pieces {
    pub(crate) text: &'static str,
    pub(crate) at: usize,
    pub(crate) times: u32,
    pub(crate) piece: usize,
    pub(crate) reads: u64,
    pub(crate) faults: u64,
}

impl Pieces {
    pub(crate) fn new(text: &'static str, times: u32, piece: usize, reads: u64) -> Pieces
        ensures { result.faults ≡ 0 }
    {
        Pieces {
            text,
            at: text.len(),
            times,
            piece,
            reads,
            faults: 0,
        }
    }
}

impl Source for Pieces {
    ghost faults = { λ s. s.faults };

    fn read(&mut self, into: &mut [u8]) -> Result<usize, ReadFault> {
        if self.reads == 0 {
            self.faults = self.faults.saturating_add(1);
            return Err(ReadFault);
        }
        self.reads -= 1;
        if self.at >= self.text.len() {
            if self.times == 0 {
                return Ok(0);
            }
            self.times -= 1;
            self.at = 0;
        }
        let rest = &self.text.as_bytes()[self.at..];
        let count = rest.len().min(self.piece).min(into.len());
        into[..count].copy_from_slice(&rest[..count]);
        self.at += count;
        Ok(count)
    }
}
