//! A caller's handle for turns.
ghost use Rattle.std.specs.Prelude.{◌≡◌, [], ◌∷◌};

use crate::view::TurnView;
use atomic_table::{Badge, Seat};
use std::mem;

/// One caller's handle for turns, and what it knows. It has no bytes, and ends by `join` or `close`.
pub struct TurnSeat<I, B> {
    badge: Badge<TurnView<I, B>>,
}

impl<I, B> TurnSeat<I, B> {
    ghost use Rattle.turn_book.specs.Seats.{view_of};

    /// Wraps a seat of the table, which holds no slot.
    pub(crate) fn of<V>(seat: Seat<Option<V>, TurnView<I, B>>) -> TurnSeat<I, B>
        requires { seat.me.1 ≡ [] }
        ensures { (result.badge.table_id ≡ seat.table_id) × (result.badge.views ≡ seat.me.0 ∷ []) }
    {
        TurnSeat {
            badge: seat.into_badge(),
        }
    }

    /// Takes out the table's seat for a step. It must be put back.
    pub(crate) fn take<V>(&mut self) -> Seat<Option<V>, TurnView<I, B>>
        requires { self.old.badge.views ≡ view_of self.old ∷ [] }
        ensures { (result.table_id ≡ self.old.badge.table_id) × (result.me ≡ (view_of self.old, [])) }
    {
        mem::replace(&mut self.badge, Badge::blank()).into_seat()
    }

    /// Puts the table's seat back, which holds no slot.
    pub(crate) fn put<V>(&mut self, seat: Seat<Option<V>, TurnView<I, B>>)
        requires { seat.me.1 ≡ [] }
        ensures { (self.new.badge.table_id ≡ seat.table_id) × (self.new.badge.views ≡ seat.me.0 ∷ []) }
    {
        self.badge = seat.into_badge();
    }

    /// Unwraps the table's seat, and ends this one.
    pub(crate) fn into_seat<V>(self) -> Seat<Option<V>, TurnView<I, B>>
        requires { self.badge.views ≡ view_of self ∷ [] }
        ensures { (result.table_id ≡ self.badge.table_id) × (result.me ≡ (view_of self, [])) }
    {
        let TurnSeat { badge } = self;
        badge.into_seat()
    }
}
