//! The laws of every played run.
ghost use Rattle.std.specs.Prelude.{ℕ};
ghost use Rattle.world_play.specs.declared.summary.Summary.{Summary};
ghost use Rattle.world_play.specs.Play.{State, IsAfter, ComesTo};
ghost use Rattle.world_play.specs.Genuine.{CanBePlayed, EndsGenuineRun, CountsInOrder};

/// After each step of a played run, its cards and the histories of its host are those at the end of a genuine run of
/// worlds.
///
/// The contract is a theorem on every number of cards and steps that may be played, and every seed; the function does
/// nothing.
pub fn every_played_world_is_genuine()
    ensures { (cards seed steps : ℕ) (state : State) → CanBePlayed cards steps → IsAfter cards seed steps state
        → EndsGenuineRun cards state }
{}

/// What a played run comes to is in order: no card's scripts are halted, and the cards ran all commands that the host
/// counts as done.
///
/// The contract is a theorem on every number of cards and steps that may be played, and every seed; the function does
/// nothing.
pub fn every_played_world_is_in_order()
    ensures { (cards steps seed : ℕ) (summary : Summary) → CanBePlayed cards steps → ComesTo cards steps seed summary
        → CountsInOrder summary }
{}
