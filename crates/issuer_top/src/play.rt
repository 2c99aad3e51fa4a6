//! A world that is played, and the text of what it came to.
ghost use Rattle.command_line.specs.Command.{IsSize};
ghost use Rattle.issuer_top.specs.Played.{ways_to_play, PlaysBy};
ghost use Rattle.issuer_top.specs.Seen.{seen_by};
ghost use Rattle.issuer_top.specs.Stopping.{GivesText};
ghost use Rattle.issuer_top.specs.Ways.{Ends};
ghost use Rattle.world_play.specs.SummaryText.{summary_text};

use crate::ended::Ended;
use crate::ending::{Ending, end_writing};
use crate::run::Run;
use crate::stopping::stop_with;
use answer_text::Stop;
use arrayvec::ArrayVec;
use command_line::WorldSize;
use desk_host::Journals;
use issuer_base::{Desk, NoMemory, Sink, write_all};
use std::alloc::Global;
use world_play::{Summary, play, write_summary};

impl<D: Desk> Run<D> {
    /// Plays a world of this size, and writes the text of what it came to.
    pub fn play<W: Sink>(self, size: WorldSize, out: &mut W) -> Ended<D>
        requires { IsSize size.cards size.steps }
        ensures { let seen = seen_by D.Desk D.Input.Source D.Journal.Store W.Sink self.desk result out.old out.new in
            Ends (ways_to_play size.cards size.steps size.seed seen) result.status seen }
    {
        let alloc = self.alloc;
        let ending = play_world(alloc, size, out);
        self.ended(ending, None, None, Journals::none(alloc))
    }
}

/// Plays a world of this size, writes the text of what it came to, and says how the run ends.
fn play_world<W: Sink>(alloc: Global, size: WorldSize, out: &mut W) -> Ending
    requires { IsSize size.cards size.steps }
    ensures { PlaysBy size.cards size.steps size.seed (W.held out.old) (W.held out.new) (W.faults out.old)
        (W.faults out.new) result }
{
    match play(alloc, size.cards, size.steps, size.seed) {
        Ok(summary) => print_summary(&summary, out),
        Err(NoMemory) => stop_with(Stop::NoMemory, out),
    }
}

/// Writes the text of a summary, and says how the run ends.
fn print_summary<W: Sink>(summary: &Summary, out: &mut W) -> Ending
    ensures { GivesText (W.held out.old) (W.held out.new) (W.faults out.old) (W.faults out.new)
        (summary_text summary.now) result }
{
    let mut text = ArrayVec::new();
    write_summary(summary, &mut text);
    end_writing(write_all(out, text.as_slice()))
}
