//! Who carries out what a partition says.
ghost use Rattle.std.specs.Prelude.{List, [], ◌∷◌, ◌++◌};
ghost use Rattle.bridge_lines.specs.Acts.{Act, act_of};

use bridge_lines::Action;

/// What carries out actions, or passes them on, in their order.
pub trait Speaker {
    // Since it was as at first, these actions were said, and it is as it is then.
    ghost says: { Self → Self → List Act → Type 0 };

    /// One more action is said.
    fn say(&mut self, action: &Action)
        ensures { (start : Self) (said : List Act) → says start self.old said
            → says start self.new (said ++ act_of action.now ∷ []) };
}
