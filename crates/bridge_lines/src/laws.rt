//! Laws of the texts and the lines of this crate.
ghost use Rattle.std.specs.Prelude.{◌≡◌, ◌↔◌, ℕ, List, Some, length, ◌++◌};
ghost use Rattle.bridge_lines.specs.Texts.{Said, Says};
ghost use Rattle.bridge_lines.specs.Reading.{message_in};
ghost use Rattle.bridge_lines.specs.News.{News, Tells};
ghost use Rattle.bridge_lines.specs.TurnReading.{news_in, turn_end};

/// What is read of a text is what it says, and what a text says is read of it. So a text says one message at most.
///
/// The contract is a theorem on every text; the function does nothing.
pub fn texts_are_read_exactly()
    ensures { (text : List ℕ) (said : Said) → (message_in text ≡ Some said) ↔ Says text said }
{}

/// What is read of a turn's lines is what they tell, and what they tell is read of them. Such a turn ends where its lines
/// do, whatever follows. So bytes begin with one turn at most.
///
/// The contract is a theorem on every turn; the function does nothing.
pub fn turns_are_read_exactly()
    ensures news { (turn : List ℕ) (news : News) → (news_in turn ≡ Some news) ↔ Tells turn news }
    ensures ends { (turn more : List ℕ) (news : News) → Tells turn news → turn_end (turn ++ more) ≡ Some (length turn) }
{}
