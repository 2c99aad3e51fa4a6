//! How a run ends.
ghost use Rattle.std.specs.Prelude.{◌≡◌};
ghost use Rattle.issuer_top.specs.Status.{status_of};
ghost use Rattle.issuer_top.specs.Stopping.{written_ending};

use answer_text::Stop;
use issuer_base::WriteFault;

/// How a run ends.
#[derive(Clone, Copy)]
pub enum Ending {
    /// All lines were answered, checked or taken, all cards were shown, all records were exported, a world was played,
    /// a DOL was filled, or a change of a PIN was written.
    Done,
    /// The run stopped early, and wrote its last line.
    Stopped(Stop),
    /// The sink failed.
    WriteFault,
}

/// The status of a run that ended so.
pub fn status_of(ending: Ending) -> u8
    ensures { result ≡ status_of ending }
{
    match ending {
        Ending::Done => 0,
        Ending::Stopped(stop) => stop.status(),
        Ending::WriteFault => 4,
    }
}

/// How a run ends whose text was written, or not.
pub fn end_writing(written: Result<(), WriteFault>) -> Ending
    ensures { result ≡ written_ending written }
{
    match written {
        Ok(()) => Ending::Done,
        Err(WriteFault) => Ending::WriteFault,
    }
}
