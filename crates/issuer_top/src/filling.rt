//! A DOL that is filled from data objects.
ghost use Rattle.std.specs.Prelude.{◌≡◌, ◌≤◌, length, IfOk};
ghost use Rattle.std.specs.Result.{result_map_both};
ghost use Rattle.answer_text.specs.AnswerText.{bytes_text};
ghost use Rattle.issuer_top.specs.Filling.{filling, ways_to_fill, FillsBy};
ghost use Rattle.issuer_top.specs.Seen.{seen_by};
ghost use Rattle.issuer_top.specs.Stopping.{GivesText};
ghost use Rattle.issuer_top.specs.Ways.{Ends};
ghost use Rattle.terminal_kernel.specs.declared.limits.TheConstants.{MAX_FILLED_BYTES};

use crate::ended::Ended;
use crate::ending::{Ending, end_writing};
use crate::run::Run;
use crate::stopping::stop_with;
use answer_text::{Stop, write_bytes};
use arrayvec::ArrayVec;
use command_line::DolTexts;
use desk_host::Journals;
use issuer_base::{Desk, Sink, write_all};
use terminal_kernel::{BadData, BadDol, MAX_FILLED_BYTES, fill, read_data, read_dol};

impl<D: Desk> Run<D> {
    /// Fills a DOL, and writes the line of its bytes.
    pub fn fill<W: Sink>(self, texts: &DolTexts, out: &mut W) -> Ended<D>
        ensures { let seen = seen_by D.Desk D.Input.Source D.Journal.Store W.Sink self.desk result out.old out.new in
            Ends (ways_to_fill texts.now.dol.items texts.now.data.items seen) result.status seen }
    {
        let ending = fill_dol(texts, out);
        let journals = Journals::none(self.alloc);
        self.ended(ending, None, None, journals)
    }
}

/// Fills a DOL, writes the line of its bytes, and says how the run ends.
fn fill_dol<W: Sink>(texts: &DolTexts, out: &mut W) -> Ending
    ensures { FillsBy (filling texts.now.dol.items texts.now.data.items) (W.held out.old) (W.held out.new)
        (W.faults out.old) (W.faults out.new) result }
{
    match filled_bytes(texts) {
        Ok(filled) => print_filled(filled.as_slice(), out),
        Err(stop) => stop_with(stop, out),
    }
}

/// The bytes of the filled DOL. An error of the DOL is found before one of the data.
fn filled_bytes(texts: &DolTexts) -> Result<ArrayVec<u8, MAX_FILLED_BYTES>, Stop>
    ensures bytes { result_map_both (λ filled. filled.items) (λ stop. stop) result
        ≡ filling texts.now.dol.items texts.now.data.items }
    ensures short { IfOk result (λ filled. length filled.items ≤ MAX_FILLED_BYTES) }
{
    let dol = match read_dol(texts.dol.as_slice()) {
        Ok(dol) => dol,
        Err(BadDol { at }) => return Err(Stop::BadDol { at }),
    };
    let given = match read_data(texts.data.as_slice()) {
        Ok(given) => given,
        Err(BadData { at }) => return Err(Stop::BadData { at }),
    };
    Ok(fill(dol.as_slice(), &given))
}

/// Writes the line of a filled DOL, and says how the run ends.
fn print_filled<W: Sink>(filled: &[u8], out: &mut W) -> Ending
    requires { length filled.now ≤ MAX_FILLED_BYTES }
    ensures { GivesText (W.held out.old) (W.held out.new) (W.faults out.old) (W.faults out.new)
        (bytes_text filled.now) result }
{
    let mut text = ArrayVec::new();
    write_bytes(filled, &mut text);
    end_writing(write_all(out, text.as_slice()))
}
