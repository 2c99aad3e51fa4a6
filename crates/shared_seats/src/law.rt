//! The law of whole seats.
ghost use Rattle.std.specs.Prelude.{◌≡◌, ◌≢◌, ℕ, List, []};
ghost use mathlib.Core.Option.{some};
ghost use lib.ListN.{get_elem?};
ghost use Rattle.shared_seats.specs.declared.seat_name.SeatName.{SeatName};
ghost use Rattle.shared_seats.specs.SeatNames.{AreNamed, IsWhole};

/// If one of a table's seats is whole, no other seat of the table holds a name.
///
/// The contract is a theorem on the names of all seats of a table; the function does nothing.
pub fn a_whole_seat_is_alone()
    ensures { (seats : List (List SeatName)) (seat other : ℕ) (names others : List SeatName)
        → AreNamed seats → get_elem? seats seat ≡ some names → IsWhole names
        → other ≢ seat → get_elem? seats other ≡ some others → others ≡ [] }
{}
