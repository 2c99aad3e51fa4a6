//! The law of the definitions of this crate.
ghost use Rattle.std.specs.Prelude.{◌≡◌, ℕ, ◌++◌, List};
ghost use Rattle.line_reader.specs.Lines.{lines, last_line, IsLinesAndRest};

/// The lines of a text are its whole lines, and then its last line without a newline, if that isn't
/// empty.
///
/// The function does nothing: its clauses are laws of every text.
pub fn lines_of_parts()
    ensures lines { (text : List ℕ) (whole : List (List ℕ)) (rest : List ℕ)
        → IsLinesAndRest text whole rest → lines text ≡ whole ++ last_line rest }

    // A text splits into whole lines and a remainder in only one way.
    ensures only { (text : List ℕ) (whole others : List (List ℕ)) (rest last : List ℕ)
        → IsLinesAndRest text whole rest → IsLinesAndRest text others last
        → (whole ≡ others) × (rest ≡ last) }
{}
