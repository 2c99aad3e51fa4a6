//! Reads the records of a journal's next lines ahead, so that the cryptograms of their requests are checked together.
ghost use Rattle.std.specs.Prelude.{◌≡◌, ◌↔◌, ◌≤◌, ◌<◌, ℕ, [], ◌∷◌, ◌++◌, length, slice_get, take, drop, Some, IsSome};
ghost use Rattle.std.specs.List.{AllZip};
ghost use Rattle.arpc_methods.specs.Batch.{answers_at};
ghost use Rattle.arpc_methods.specs.declared.batch.TheConstants.{FEWEST_IN_LANES};
ghost use Rattle.issuer_base.specs.declared.entry.Entry.{Entry};
ghost use Rattle.line_checks.specs.declared.lines_ahead.TheConstants.{MOST_AHEAD};
ghost use Rattle.shard_book.specs.Answers.{answer_of};
ghost use Rattle.shard_book.specs.LineAhead.{IsLineAhead};
ghost use Rattle.shard_book.specs.ReadAhead.{IsLookedUp, AreLookedUp, AreNext, IsNoRecord};

use crate::answers::add_answer;
use crate::newline::next_newline;
use arpc_methods::{AnswerBatch, MadeAhead};
use issuer_base::{Entry, NoMemory, Refusal};
use issuer_setup::Issuer;
use journal_rec::read_entry;
use line_checks::{
    CheckedCommand, CheckedOrder, CheckedStatus, LinesAhead, LookedUp, MOST_AHEAD, look_up_request,
};
use std::alloc::Global;
use std::marker::Model;

/// The records of lines that were read ahead, what was looked up for each, and the issuer authentication data that were
/// made for them, if any.
///
/// A contract sees the lists of records and look-ups, and how many data are made.
#[derive(Drop)]
pub(crate) struct Ahead {
    entries: Vec<Entry>,
    found: LinesAhead,
    answers: AnswerBatch,
}

impl Model for Ahead {
    ghost use Rattle.std.specs.Prelude.{◌≤◌, vec_capacity};
    ghost use Rattle.line_checks.specs.declared.lines_ahead.TheConstants.{MOST_AHEAD};
    ghost use Rattle.shard_book.specs.ReadAhead.{ReadAhead};

    ghost Value = { ReadAhead };

    ghost view = { λ ahead. record {
      entries = ahead.entries.items;
      found = ahead.found;
      made = ahead.answers.made;
    } };

    ghost invariant = { λ ahead. MOST_AHEAD ≤ vec_capacity ahead.entries };
}

impl Ahead {
    /// No records, and room for those of [`MOST_AHEAD`] lines. No other call allocates.
    pub(crate) fn new(alloc: Global) -> Result<Ahead, NoMemory> {
        let entries = Vec::with_capacity(alloc, MOST_AHEAD)?;
        let found = LinesAhead::new(alloc)?;
        Ok(Ahead {
            entries,
            found,
            answers: AnswerBatch::new(),
        })
    }

    /// How many records there are.
    pub(crate) fn len(&self) -> usize
        ensures { result ≡ length self.now.entries }
    {
        self.entries.len()
    }

    /// The records, in the order of their lines.
    pub(crate) fn entries(&self) -> &[Entry]
        ensures { result.now ≡ self.now.entries }
    {
        self.entries.as_slice()
    }

    /// What was looked up for the record with this index.
    pub(crate) fn found(&self, index: usize) -> &Result<LookedUp, Refusal>
        requires { index < length self.now.found }
        ensures { slice_get self.now.found index ≡ Some result.now }
    {
        self.found.get(index).unwrap()
    }

    /// The issuer authentication data that were made for the record with this index, if they were.
    pub(crate) fn made(&self, index: usize) -> Option<MadeAhead>
        ensures { IsSome result ↔ (index < self.now.made) }
    {
        self.answers.get(index)
    }

    /// Reads up to [`MOST_AHEAD`] whole lines of a text from an offset on, as far as they are those of records, in place of
    /// what was read before. The card of each record is looked up, the cryptograms of their requests are checked together,
    /// and their issuer authentication data made together, if there are enough of them: [`FEWEST_IN_LANES`]. Returns the
    /// offset of their end.
    pub(crate) fn read(&mut self, issuer: &Issuer, text: &[u8], from: usize) -> usize
        requires { from ≤ length text.now }
        ensures next { AreNext text.now from self.new.entries result }
        ensures found { AreLookedUp issuer.now self.new }
        ensures none { self.new.entries ≡ [] → (count : ℕ) → IsLineAhead (drop from text.now) count
            → IsNoRecord (take count (drop from text.now)) }
        ensures made { FEWEST_IN_LANES ≤ answers_at (answer_of issuer.now) self.new.entries self.new.found
            → self.new.made ≡ length self.new.entries }
    {
        self.entries.clear();
        self.found.clear();
        let end = self.read_lines(issuer, text, from);
        self.found.check(issuer);
        add_answers(
            issuer,
            self.entries.as_slice(),
            &self.found,
            &mut self.answers,
        );
        self.answers.make();
        end
    }

    /// Reads the lines into the empty lists.
    fn read_lines(&mut self, issuer: &Issuer, text: &[u8], from: usize) -> usize
        requires from { from ≤ length text.now }
        requires empty { (self.old.entries ≡ []) × (self.old.found ≡ []) }
        ensures next { AreNext text.now from self.new.entries result }
        ensures found { AreLookedUp issuer.now self.new }
        ensures none { self.new.entries ≡ [] → (count : ℕ) → IsLineAhead (drop from text.now) count
            → IsNoRecord (take count (drop from text.now)) }
    {
        let mut end = from;
        'lines: while self.len() < MOST_AHEAD {
            let Some(length) = next_newline(text, end) else {
                return end;
            };
            let Ok(entry) = read_entry(&text[end..end + length]) else {
                return end;
            };
            self.add(issuer, entry);
            end += length + 1;
        }
        end
    }

    /// Adds a record and what is looked up for it.
    fn add(&mut self, issuer: &Issuer, entry: Entry)
        requires entries { length self.old.entries < MOST_AHEAD }
        requires found { length self.old.found < MOST_AHEAD }
        ensures added { self.new.entries ≡ self.old.entries ++ entry ∷ [] }
        ensures found { AreLookedUp issuer.now self.old → AreLookedUp issuer.now self.new }
    {
        self.found.add(look_up_record(issuer, &entry));
        self.entries.push_reserved(entry);
    }
}

/// Adds the answers of records, for which this was looked up, to none.
fn add_answers(issuer: &Issuer, entries: &[Entry], found: &LinesAhead, batch: &mut AnswerBatch)
    requires { AllZip (IsLookedUp issuer.now) entries.now found.now }
    ensures all { length batch.new.answers ≡ length entries.now }
    ensures count { batch.new.count ≡ answers_at (answer_of issuer.now) entries.now found.now }
{
    batch.clear();
    for index in 0..found.len() {
        add_answer(issuer, &entries[index], found.get(index).unwrap(), batch);
    }
}

/// Looks up the card of a record, and where the card's keys are for the request of a decision. It uses no key.
pub fn look_up_record(issuer: &Issuer, entry: &Entry) -> Result<LookedUp, Refusal>
    ensures { IsLookedUp issuer.now entry.now result }
{
    match entry {
        Entry::Decided { request, .. } => {
            let sought = look_up_request(issuer, *request)?;
            Ok(LookedUp::Request(sought))
        }
        Entry::Queued { pan, psn, command } => {
            let card = issuer.card(pan, *psn).ok_or(Refusal::UnknownCard)?;
            Ok(LookedUp::Order(CheckedOrder::Command(CheckedCommand {
                pan: *pan,
                psn: *psn,
                command: command.copy(),
                card,
            })))
        }
        Entry::Status { pan, psn, status } => {
            let card = issuer.card(pan, *psn).ok_or(Refusal::UnknownCard)?;
            Ok(LookedUp::Order(CheckedOrder::Status(CheckedStatus {
                pan: *pan,
                psn: *psn,
                status: *status,
                card,
            })))
        }
    }
}
