//! The top call.
ghost use Rattle.std.specs.Prelude.{◌≡◌, ℕ, List, []};
ghost use Rattle.issuer_setup.specs.IssuerSetup.{Setup};
ghost use Rattle.desk_host.specs.Configuration.{HasSoundParts};
ghost use Rattle.line_serving.specs.Hosts.{callers_of, IsReady, HasServed, IsIdle};
ghost use Rattle.command_line.specs.Command.{IsGroup};
ghost use Rattle.command_line.specs.Pairs.{request_file};
ghost use Rattle.issuer_top.specs.Clearing.{RunsClear};
ghost use Rattle.issuer_top.specs.Exporting.{RunsExport};
ghost use Rattle.issuer_top.specs.Opening.{SaysIssuer};
ghost use Rattle.issuer_top.specs.PinChanges.{RunsPin};
ghost use Rattle.issuer_top.specs.Refusing.{RunsAlone};
ghost use Rattle.issuer_top.specs.Seen.{IsSameDesk, seen_by};
ghost use Rattle.issuer_top.specs.Serving.{RunsServe, ways_to_serve};
ghost use Rattle.issuer_top.specs.Showing.{RunsShow};
ghost use Rattle.issuer_top.specs.Standing.{RunsStandby};
ghost use Rattle.issuer_top.specs.Tasks.{DoesTask};
ghost use Rattle.issuer_top.specs.Ways.{Ends};

use crate::ended::Ended;
use crate::opening::{open_issuer, stop_of};
use crate::run::Run;
use crate::stopping::end_serving;
use answer_text::Stop;
use command_line::{ServeWords, Task, read_words};
use desk_host::{Journals, Loaded};
use issuer_base::{Desk, Gate, NoMemory, Sink, Words};
use issuer_setup::Issuer;
use line_serving::{LineHost, Server, load_host};
use std::sync::Wait;
use std::thread::Threads;

/// Does all that the program does: reads the words and the configuration, loads the journals, and answers each line of
/// the request file, by one caller or by several at once, shows all cards, checks the lines of a clearing file, writes
/// the records of the journals as a feed, or takes those of another host's feed; or plays a world of its own, fills a
/// DOL, or writes a change of a PIN.
///
/// The gate is told of each request line by its number, from 1: before it is answered and once it is. It may wait for
/// the gate.
pub fn issue<R, D, W, G>(rt: &R, words: &Words, desk: D, out: &mut W, gate: &G) -> Ended<D>
where
    R: AllocGlobal + Threads + Wait + Sync,
    D: Desk,
    D::Journal: Send,
    W: Sink,
    G: Gate + Sync,

    // Where the words are the command to serve: what the status says of the desk, all that was opened, and what was
    // written; and when all lines are answered. So for each command.
    ensures serve { RunsServe words.now result.status
        (seen_by D.Desk D.Input.Source D.Journal.Store W.Sink desk result out.old out.new) }
    ensures show { RunsShow words.now result.status
        (seen_by D.Desk D.Input.Source D.Journal.Store W.Sink desk result out.old out.new) }
    ensures clear { RunsClear words.now result.status
        (seen_by D.Desk D.Input.Source D.Journal.Store W.Sink desk result out.old out.new) }
    ensures export { RunsExport words.now result.status
        (seen_by D.Desk D.Input.Source D.Journal.Store W.Sink desk result out.old out.new) }
    ensures standby { RunsStandby words.now result.status
        (seen_by D.Desk D.Input.Source D.Journal.Store W.Sink desk result out.old out.new) }
    ensures pin { RunsPin words.now result.status
        (seen_by D.Desk D.Input.Source D.Journal.Store W.Sink desk result out.old out.new) }

    // To play a world, to fill a DOL, and words that are no command: these need no desk.
    ensures alone { RunsAlone words.now result.status
        (seen_by D.Desk D.Input.Source D.Journal.Store W.Sink desk result out.old out.new) }
{
    let run = Run {
        alloc: rt.alloc(),
        desk,
    };
    Serving { rt, gate }.do_task(run, words, out)
}

/// What lines are served with: threads, and the gate that is told of each line.
#[derive(Drop)]
struct Serving<'a, R, G> {
    rt: &'a R,
    gate: &'a G,
}

impl<R, G> Serving<'_, R, G>
where
    R: AllocGlobal + Threads + Wait + Sync,
    G: Gate + Sync,
{
    /// Reads the words, and does what they ask for.
    fn do_task<D, W>(&self, run: Run<D>, words: &Words, out: &mut W) -> Ended<D>
    where
        D: Desk,
        D::Journal: Send,
        W: Sink,
        ensures { DoesTask words.now result.status
            (seen_by D.Desk D.Input.Source D.Journal.Store W.Sink run.desk result out.old out.new) }
    {
        match read_words(words) {
            Some(Task::Serve(names)) => self.serve(run, names, out),
            Some(Task::Show(names)) => run.show(names, out),
            Some(Task::Play(size)) => run.play(size, out),
            Some(Task::Fill(texts)) => run.fill(&texts, out),
            Some(Task::Pin(order)) => run.change_pin(order, out),
            Some(Task::Clear(names)) => run.clear(names, out),
            Some(Task::Export(names)) => run.export(names, out),
            Some(Task::Standby(names)) => run.stand_by(names, out),
            None => run.refuse(out),
        }
    }

    /// Reads the configuration, loads the journals, and answers all lines of the request file.
    fn serve<D, W>(&self, mut run: Run<D>, names: ServeWords<'_>, out: &mut W) -> Ended<D>
    where
        D: Desk,
        D::Journal: Send,
        W: Sink,
        requires { IsGroup names.callers }
        ensures { let seen = seen_by D.Desk D.Input.Source D.Journal.Store W.Sink run.desk result out.old out.new in
            Ends (ways_to_serve names.entry.config.now (request_file names.entry) names.entry.journal.now seen)
            result.status seen }
    {
        match open_issuer(run.alloc, &mut run.desk, names.config) {
            Ok((issuer, config)) => self.serve_issuer(run, issuer, config, names, out),
            Err(none) => run.not_opened(none, out),
        }
    }

    /// Loads the journals of an issuer, and answers all lines of the request file.
    fn serve_issuer<D, W>(
        &self,
        mut run: Run<D>,
        issuer: Issuer,
        config: D::Input,
        names: ServeWords<'_>,
        out: &mut W,
    ) -> Ended<D>
    where
        D: Desk,
        D::Journal: Send,
        W: Sink,
        requires { IsGroup names.callers }
        ensures { (given : D)
            → let seen = seen_by D.Desk D.Input.Source D.Journal.Store W.Sink given result out.old out.new in
            SaysIssuer seen names.entry.config.now issuer
            → HasSoundParts issuer → IsSameDesk D.Desk given run.desk → D.logs run.desk ≡ D.logs given
            → Ends (ways_to_serve names.entry.config.now (request_file names.entry) names.entry.journal.now seen)
            result.status seen }
    {
        let (rt, desk) = (self.rt, &mut run.desk);
        match load_host(rt, run.alloc, desk, names.journal, issuer, names.callers) {
            Ok(loaded) => self.serve_requests(run, loaded, config, names.requests, out),
            Err(none) => run.not_loaded(none, config, out),
        }
    }

    /// Answers all lines of the request file under this name.
    fn serve_requests<D, W>(
        &self,
        mut run: Run<D>,
        loaded: Loaded<LineHost<D::Journal>, D::Journal>,
        config: D::Input,
        name: &str,
        out: &mut W,
    ) -> Ended<D>
    where
        D: Desk,
        D::Journal: Send,
        W: Sink,
        requires idle { IsIdle loaded.host 0 }
        ensures { (given : D) (config journal : List ℕ) (issuer : Setup)
            → let seen = seen_by D.Desk D.Input.Source D.Journal.Store W.Sink given result out.old out.new in
            SaysIssuer seen config issuer
            → IsReady issuer journal (D.logs given) loaded.olds.items loaded.host
            → HasServed loaded.host [] [] [] loaded.host
            → HasSoundParts issuer → IsSameDesk D.Desk given run.desk
            → Ends (ways_to_serve config (record { name = name.now; callers = callers_of loaded.host }) journal seen)
            result.status seen }
    {
        let Loaded { mut host, olds } = loaded;
        let mut server = match Server::new(run.alloc, &host) {
            Ok(server) => server,
            Err(NoMemory) => {
                let stores = host.close();
                return run.stop(Stop::NoMemory, Some(config), Journals { olds, stores }, out);
            }
        };
        let mut requests = match run.desk.read(name) {
            Ok(requests) => requests,
            Err(fault) => {
                let stores = host.close();
                return run.stop(stop_of(fault), Some(config), Journals { olds, stores }, out);
            }
        };
        let served = server.serve(self.rt, self.gate, &mut host, &mut requests, out);
        let ending = end_serving(served, out);
        let stores = host.close();
        run.ended(
            ending,
            Some(config),
            Some(requests),
            Journals { olds, stores },
        )
    }
}
