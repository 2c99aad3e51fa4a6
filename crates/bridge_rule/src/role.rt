//! What a bridge is at: it follows, it waits for its barrier, or it serves.
ghost use Rattle.std.specs.Prelude.{◌≡◌};
ghost use Rattle.bridge_rule.specs.Roles.{turn_of};

use crate::opening::Opening;

/// What a bridge is at.
#[derive(Drop)]
pub enum Role {
    /// It follows, and wasn't told all of its journals yet: it reads no message before it was.
    Untold,
    /// It follows.
    Following,
    /// It has made this barrier, and waits until that counts.
    Beginning(Opening),
    /// It serves by this barrier.
    Serving(Opening),
}

/// What a barrier that counts makes of a bridge.
#[derive(Clone, Copy)]
pub enum Turn {
    /// It follows as before.
    Nothing,
    /// It serves: its host begins.
    Starts,
    /// It served: its host is killed, and the bridge is told what the journals have beyond what it knows.
    Ends,
    /// Another machine's barrier came before its own.
    Yields,
}

impl Role {
    /// What this barrier makes of the bridge, if it counts.
    pub(crate) fn turn(&self, opening: &Opening) -> Turn
        ensures { result ≡ turn_of self.now opening.now }
    {
        match self {
            Role::Untold => Turn::Nothing,
            Role::Following => Turn::Nothing,
            Role::Serving(_) => Turn::Ends,
            Role::Beginning(own) => {
                if own.is_same(opening) {
                    Turn::Starts
                } else {
                    Turn::Yields
                }
            }
        }
    }
}
