//! Whole lines of a feed that are read ahead of their turns.
ghost use Rattle.std.specs.Prelude.{◌≡◌, ◌↔◌, ◌<◌, ◌≤◌, [], ◌∷◌, ◌++◌, length, vec_capacity, IfOk, IsSome, IsTrue};
ghost use Rattle.line_checks.specs.declared.lines_ahead.TheConstants.{MOST_AHEAD};
ghost use Rattle.standby_node.specs.KeptTexts.{HaveTexts};

use crate::line::{ReadLine, add_answers, look_up_line};
use arpc_methods::{AnswerBatch, MadeAhead};
use feed_text::MOST_FEED_BYTES;
use issuer_base::{NoMemory, Refusal};
use issuer_setup::Issuer;
use line_checks::{LookedUp, MOST_AHEAD, check_in_lanes};
use line_reader::PackedLines;
use std::alloc::Global;

/// Whole lines of a feed that were read ahead of their turns, at most [`MOST_AHEAD`], and what was looked up for each.
#[derive(Drop)]
pub struct FeedLines {
    lines: Vec<ReadLine>,

    /// For each line the text of its record, with its newline. Of a line without a record no text counts.
    record_texts: PackedLines<MOST_FEED_BYTES>,
    found: Vec<Result<LookedUp, Refusal>>,

    /// The answers of the records, by the indices of the lines, once they are checked.
    answers: AnswerBatch,
    ghost room: { MOST_AHEAD ≤ vec_capacity lines },
    ghost room_found: { MOST_AHEAD ≤ vec_capacity found },
    ghost room_texts: { MOST_AHEAD ≤ record_texts.room },
    ghost each: { length record_texts.lines ≡ length lines.items },
    ghost have_texts: { HaveTexts lines.items record_texts.lines },
}

impl FeedLines {
    ghost use Rattle.std.specs.Prelude.{slice_get, Some};
    ghost use Rattle.feed_text.specs.declared.limits.TheConstants.{MOST_FEED_BYTES};
    ghost use Rattle.line_reader.specs.Lines.{ended};
    ghost use Rattle.standby_node.specs.declared.line.ReadLine.{ReadLine};
    ghost use Rattle.standby_node.specs.KeptTexts.{HasText};
    ghost use Rattle.standby_node.specs.ReadLines.{AreMade, AreReady, IsFormed, IsNoneAhead};

    /// No lines. Only this call allocates.
    pub fn new(alloc: Global) -> Result<FeedLines, NoMemory>
        ensures { IfOk result IsNoneAhead }
    {
        let lines = Vec::with_capacity(alloc, MOST_AHEAD)?;
        let found = Vec::with_capacity(alloc, MOST_AHEAD)?;
        let record_texts = PackedLines::new(alloc, MOST_AHEAD)?;
        Ok(FeedLines {
            lines,
            record_texts,
            found,
            answers: AnswerBatch::new(),
        })
    }

    /// Whether there are as many lines as there may be.
    pub fn is_full(&self) -> bool
        ensures { IsTrue result ↔ (MOST_AHEAD ≤ length self.now.lines.items) }
    {
        self.lines.len() >= MOST_AHEAD
    }

    /// The lines, in their order.
    pub(crate) fn lines(&self) -> &[ReadLine]
        ensures { result.now ≡ self.now.lines.items }
    {
        self.lines.as_slice()
    }

    /// What was looked up for each.
    pub(crate) fn found(&self) -> &[Result<LookedUp, Refusal>]
        ensures { result.now ≡ self.now.found.items }
    {
        self.found.as_slice()
    }

    /// The issuer authentication data that were made for the record of the line at this index, if they were.
    pub(crate) fn made(&self, place: usize) -> Option<MadeAhead>
        ensures { IsSome result ↔ (place < self.now.answers.made) }
    {
        self.answers.get(place)
    }

    /// The text of the record of the line at this index, with its newline.
    pub(crate) fn text(&self, place: usize) -> &[u8]
        requires { place < length self.now.lines.items }
        ensures { (line : ReadLine) → slice_get self.now.lines.items place ≡ Some line → HasText line result.now }
    {
        self.record_texts.line(place)
    }

    /// Adds a line that was read, with the text of its record without the newline, and looks the record up.
    pub(crate) fn add(&mut self, issuer: &Issuer, line: ReadLine, text: &[u8])
        requires ready { AreReady issuer.now self.old }
        requires room { length self.old.lines.items < MOST_AHEAD }
        requires form { IsFormed issuer.now line }
        requires text { HasText line (ended text.now) × (length text.now < MOST_FEED_BYTES) }
        ensures added { self.new.lines.items ≡ self.old.lines.items ++ line ∷ [] }
        ensures ready { AreReady issuer.now self.new }
    {
        self.found.push_reserved(look_up_line(issuer, &line));
        self.record_texts.add_ended(text);
        self.lines.push_reserved(line);
    }

    /// Checks the cryptograms of the requests together, and makes the issuer authentication data of their records, if
    /// there are enough of them.
    pub(crate) fn check(&mut self, issuer: &Issuer)
        requires ready { AreReady issuer.now self.old }
        requires few { length self.old.lines.items ≤ MOST_AHEAD }
        ensures ready { AreReady issuer.now self.new }
        ensures lines { self.new.lines.items ≡ self.old.lines.items }
        ensures made { AreMade issuer.now self.new }
    {
        check_in_lanes(issuer, self.found.as_mut_slice());
        add_answers(
            issuer,
            self.lines.as_slice(),
            self.found.as_slice(),
            &mut self.answers,
        );
        self.answers.make();
    }

    /// Removes all.
    pub(crate) fn clear(&mut self)
        ensures { IsNoneAhead self.new }
    {
        self.lines.clear();
        self.record_texts.clear();
        self.found.clear();
        self.answers.clear();
    }
}
