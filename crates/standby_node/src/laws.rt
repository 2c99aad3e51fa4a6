//! Laws of feeds, and of a standby that is fed by a primary.
ghost use Rattle.std.specs.Prelude.{◌≡◌, ℕ, List, All};
ghost use Rattle.issuer_base.specs.declared.entry.Entry.{Entry};
ghost use Rattle.issuer_setup.specs.IssuerSetup.{Setup};
ghost use Rattle.standby_node.specs.FeedLines.{IsBadLine, TakesLine};
ghost use Rattle.standby_node.specs.Primary.{AreLegal, ArePrefixes, IsPrimary, IsPrimaryLine};
ghost use Rattle.standby_node.specs.Streams.{StopsBadly, TakesLines, TakesStream};

/// A line makes one list of histories of others, or it is bad.
pub fn a_line_does_one_thing()
    ensures one { (issuer : Setup) (histories after other : List (List Entry)) (line : List ℕ)
        → TakesLine issuer histories line after → TakesLine issuer histories line other → after ≡ other }
    ensures not_bad { (issuer : Setup) (histories after : List (List Entry)) (line : List ℕ)
        → TakesLine issuer histories line after → IsBadLine issuer histories line → ⊥ }
{}

/// A stream makes one list of histories of its opening ones, or it has one first bad line.
pub fn a_stream_does_one_thing()
    ensures one { (issuer : Setup) (opening histories others : List (List Entry)) (stream : List ℕ)
        → TakesStream issuer opening stream histories → TakesStream issuer opening stream others
        → histories ≡ others }
    ensures not_bad { (issuer : Setup) (opening histories others : List (List Entry)) (stream : List ℕ) (number : ℕ)
        → TakesStream issuer opening stream histories → StopsBadly issuer opening stream number others → ⊥ }
    ensures first { (issuer : Setup) (opening histories others : List (List Entry)) (stream : List ℕ)
        (number other : ℕ)
        → StopsBadly issuer opening stream number histories → StopsBadly issuer opening stream other others
        → (number ≡ other) × (histories ≡ others) }
{}

/// If each line is that of a primary's record at its index, and the opening histories are prefixes of the primary's, so
/// are those that the lines make; and if the primary's are legal, no line is bad.
pub fn a_standby_follows_its_primary()
    ensures prefixes { (issuer : Setup) (primary opening histories : List (List Entry)) (lines : List (List ℕ))
        → IsPrimary primary → All (IsPrimaryLine primary) lines → ArePrefixes opening primary
        → TakesLines issuer opening lines histories → ArePrefixes histories primary }
    ensures none_bad { (issuer : Setup) (primary histories : List (List Entry)) (line : List ℕ)
        → IsPrimary primary → AreLegal issuer primary → IsPrimaryLine primary line → ArePrefixes histories primary
        → IsBadLine issuer histories line → ⊥ }
{}
