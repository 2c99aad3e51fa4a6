//! The standard output as a sink.
ghost use Rattle.std.specs.Prelude.{◌≡◌};

use crate::retry;
use issuer_base::{Sink, WriteFault};

/// The standard output. It exposes nothing of its bytes, and counts its faults.
#[derive(Drop)]
pub struct FileSink {
    rt: HostRuntime,
    faults: u64,
}

impl FileSink {
    /// A sink over the standard output, with no fault counted.
    pub fn new(rt: HostRuntime) -> FileSink
        ensures { result.faults ≡ 0 }
    {
        FileSink { rt, faults: 0 }
    }
}

impl Sink for FileSink {
    ghost faults = { λ s. s.faults };

    fn write(&mut self, piece: &[u8]) -> Result<usize, WriteFault> {
        match retry::write_out(&self.rt, piece) {
            Ok(count) if count > 0 => Ok(count),
            _ => {
                self.faults = self.faults.saturating_add(1);
                Err(WriteFault)
            }
        }
    }
}
