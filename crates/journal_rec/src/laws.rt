//! Laws of the texts of records, for code that stores them one after another.
ghost use Rattle.std.specs.Prelude.{◌≡◌, ◌≤◌, ℕ, List, [], ◌++◌, All, length};
ghost use Rattle.issuer_base.specs.declared.command.Command.{Command};
ghost use Rattle.issuer_base.specs.declared.entry.Entry.{Entry};
ghost use Rattle.issuer_base.specs.declared.entry.Entry.TheVariants.{Queued};
ghost use Rattle.journal_rec.specs.RecordText.{IsLine, IsUnbroken, text_of, texts_of};
ghost use Rattle.journal_rec.specs.Record.{IsRecord};

use crate::limits::{LEAST_RECORD_BYTES, MOST_QUEUED_BYTES, MOST_RECORD_BYTES};

/// The text of a record is one line.
pub fn a_text_is_one_line()
    ensures line { (entry : Entry) → IsRecord entry → IsLine (text_of entry) }
    ensures least { (entry : Entry) → IsRecord entry → LEAST_RECORD_BYTES ≤ length (text_of entry) }
    ensures most { (entry : Entry) → IsRecord entry → length (text_of entry) ≤ MOST_RECORD_BYTES }
    ensures most_queued { (pan : List ℕ) (psn : ℕ) (command : Command) → IsRecord (Queued pan psn command)
        → length (text_of (Queued pan psn command)) ≤ MOST_QUEUED_BYTES }
{}

/// No record's text is a proper prefix of another's: if it is a prefix, the records are the same and nothing follows.
pub fn no_text_begins_another()
    ensures { (entry other : Entry) (rest : List ℕ) → IsRecord entry → IsRecord other
        → text_of entry ++ rest ≡ text_of other → (entry ≡ other) × (rest ≡ []) }
{}

/// A text of records, and then a torn last line or none, has only one reading.
pub fn a_text_has_one_reading()
    ensures { (entries others : List Entry) (rest other_rest : List ℕ) → All IsRecord entries → All IsRecord others
        → IsUnbroken rest → IsUnbroken other_rest
        → texts_of entries ++ rest ≡ texts_of others ++ other_rest → (entries ≡ others) × (rest ≡ other_rest) }
{}
