//! The last line of a run that stops.
ghost use Rattle.issuer_base.specs.OutsideFaults.{CountsFaults};
ghost use Rattle.issuer_top.specs.Stopping.{StopsBy, EndsServing, is_broken};

use crate::ending::Ending;
use answer_text::{Stop, write_stop};
use arrayvec::ArrayVec;
use issuer_base::{Sink, WriteFault, write_all};
use line_blocks::Served;

/// Writes the last line of a run that stops, and says how the run ends.
pub fn stop_with<W: Sink>(stop: Stop, out: &mut W) -> Ending
    ensures ended { StopsBy (W.held out.old) (W.held out.new) stop result }
    ensures count { CountsFaults (W.faults out.old) (W.faults out.new) (is_broken result) }
{
    let mut text = ArrayVec::new();
    write_stop(&stop, &mut text);
    match write_all(out, text.as_slice()) {
        Ok(()) => Ending::Stopped(stop),
        Err(WriteFault) => Ending::WriteFault,
    }
}

/// Writes the last line where serving stopped early, and says how the run ends.
pub fn end_serving<W: Sink>(served: Served, out: &mut W) -> Ending
    ensures { EndsServing (W.held out.old) (W.held out.new) (W.faults out.old) (W.faults out.new) served result }
{
    match served {
        Served::All => Ending::Done,
        Served::ReadFault => stop_with(Stop::ReadFault, out),
        Served::WriteFault => Ending::WriteFault,
        Served::TooLong { line } => stop_with(Stop::TooLong { line }, out),
    }
}
