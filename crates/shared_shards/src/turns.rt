//! The turns that callers take at the shards of a host.
ghost use Rattle.std.specs.Prelude.{◌≡◌, ◌<◌, ◌≤◌, ℕ, IfOk, IfErr, Ok, length, IsTrue, map};
ghost use Rattle.card_history.specs.declared.decision.Asked.TheVariants.{Decide};
ghost use Rattle.shared_seats.specs.SeatNames.{IsWhole};
ghost use Rattle.line_checks.specs.AtHand.{IsRequestAtHand, IsOrderAtHand};
ghost use Rattle.line_checks.specs.Reading.{checked};
ghost use Rattle.turn_book.specs.Logs.{items_at, with_items, IsFront, StandFor};
ghost use Rattle.turn_book.specs.Seats.{view_of};
ghost use Rattle.turn_book.specs.TurnRule.{between};
ghost use Rattle.turn_book.specs.TurnViews.{times, first_view, entered, free, parent_view, child_view, joined};
ghost use Rattle.shared_shards.specs.Opening.{AreJustLoaded, AreOpeningLogs};
ghost use Rattle.shared_shards.specs.Turned.{DecidesInTurn, OrdersInTurn, ShowsInTurn, added_in, log_after, counted_if};

use crate::lists::{Spare, hold_all, release_all, take_lists};
use crate::locked_shard::{Call, Called, LockedShard};
use crate::logs::{LogHead, LogItem};
use crate::opening::{opening_logs, start};
use card_history::CardView;
use issuer_base::{Answer, Store};
use issuer_setup::Issuer;
use line_checks::{CheckedOrder, CheckedRequest};
use shard_book::Shard;
use std::alloc::Global;
use std::snapshot::Snapshot;
use std::sync::{Mutex, Wait};
use turn_book::{TurnSeat, Turns};

/// A caller's handle for its turns. It has no bytes, and ends by `join` or `close`.
pub type ShardSeat = TurnSeat<LogItem, LogHead>;

/// The shards of a host, which callers share.
pub struct ShardTurns<S: Store> {
    pub(crate) turns: Turns<LockedShard<S>, LogItem, LogHead>,

    // Room for the shards that `close` returns, so that `close` doesn't allocate. The lock is never taken.
    pub(crate) spare: Mutex<Spare<S>>,
}

impl<S: Store> ShardTurns<S> {
    ghost use Rattle.shared_shards.specs.ShardSeats.{opening_in, AreTurnsOf, IsSeatOf, IsInside, StandsIn};
    ghost use Rattle.shared_shards.specs.ShardSeats.{StandForLogs};

    /// The turns at the shards of this issuer, which were loaded from these old stores and stores, in order, and the
    /// first seat. Each shard's log opens with the records of the history that it was loaded with. Only if an
    /// allocation fails, the shards come back in order.
    pub fn load(
        alloc: Global,
        issuer: &Issuer,
        olds: &Snapshot<Vec<S>>,
        stores: &Snapshot<Vec<S>>,
        shards: Vec<Shard<S>>,
    ) -> Result<(ShardTurns<S>, ShardSeat), Vec<Shard<S>>>
        requires { AreJustLoaded issuer.now olds.now.value.items stores.now.value.items shards.items }
        ensures opening { IfOk result (λ made. AreOpeningLogs issuer.now
            olds.now.value.items stores.now.value.items shards.items (opening_in made.0)) }
        ensures turns { IfOk result (λ made. AreTurnsOf issuer.now made.0) }
        ensures seat { IfOk result
            (λ made. IsSeatOf made.0 made.1 × (view_of made.1 ≡ first_view (opening_in made.0))) }
        ensures refused { IfErr result (λ back. back.items ≡ shards.items) }
    {
        let Ok(logs) = opening_logs(alloc, issuer, olds, stores, &shards) else {
            return Err(shards);
        };
        let Ok(mut lists) = take_lists(alloc, usize::from(issuer.shards())) else {
            return Err(shards);
        };
        hold_all(issuer, olds, stores, &logs, shards, &mut lists);
        start(alloc, lists, &logs)
    }

    /// The answer to a checked request, in the shard of its card. `won` says whether the caller may decide it. It waits
    /// for the shard's turn.
    pub fn decide<R: Wait>(
        &self,
        rt: &R,
        seat: &mut ShardSeat,
        issuer: &Issuer,
        found: &CheckedRequest,
        won: bool,
    ) -> Answer
        requires turns { AreTurnsOf issuer.now self.now }
        requires seat { IsSeatOf self.now seat.old }
        requires at_hand { IsRequestAtHand issuer.now found.now }
        requires checked { checked issuer.now found.now.request ≡ Ok (Decide found.now.request) }
        ensures seat { IsSeatOf self.now seat.new }
        ensures turn { DecidesInTurn issuer.now won found.now.request (view_of seat.old) result (view_of seat.new) }
    {
        let number = issuer.shard_of(found.card);
        let LockedShard { mut shard } = self.turns.enter(rt, seat, number);
        let reported = shard.faults();
        let answer = shard.answer(issuer, found, won);
        let called = Called {
            shard,
            call: Call::Decide(found),
            answer: &answer,
            reported,
        };
        self.end_turn(seat, number, called);
        answer
    }

    /// The answer to a checked order, in the shard of its card. It waits for the shard's turn.
    pub fn order<R: Wait>(
        &self,
        rt: &R,
        seat: &mut ShardSeat,
        issuer: &Issuer,
        found: &CheckedOrder,
    ) -> Answer
        requires turns { AreTurnsOf issuer.now self.now }
        requires seat { IsSeatOf self.now seat.old }
        requires at_hand { IsOrderAtHand issuer.now found.now }
        ensures seat { IsSeatOf self.now seat.new }
        ensures turn { OrdersInTurn issuer.now found.now (view_of seat.old) result (view_of seat.new) }
    {
        let number = issuer.shard_of(found.card());
        let LockedShard { mut shard } = self.turns.enter(rt, seat, number);
        let reported = shard.faults();
        let answer = shard.order(issuer, found);
        let called = Called {
            shard,
            call: Call::Order(found),
            answer: &answer,
            reported,
        };
        self.end_turn(seat, number, called);
        answer
    }

    /// What is shown of the card with this number, by its shard's log as it is when the turn comes. It waits for the
    /// turn. Nothing is appended.
    pub fn show<R: Wait>(
        &self,
        rt: &R,
        seat: &mut ShardSeat,
        issuer: &Issuer,
        card: u32,
    ) -> CardView
        requires turns { AreTurnsOf issuer.now self.now }
        requires seat { IsSeatOf self.now seat.old }
        requires card { card < length issuer.now.cards }
        ensures seat { IsSeatOf self.now seat.new }
        ensures turn { ShowsInTurn issuer.now card (view_of seat.old) result (view_of seat.new) }
    {
        let number = issuer.shard_of(card);
        let held = self.turns.enter(rt, seat, number);
        let shown = held.shard.row(card).view();
        self.turns.leave(seat, number, held);
        shown
    }

    /// Splits off a second seat, which has seen the same logs and has appended nothing.
    pub fn split(&self, seat: &mut ShardSeat) -> ShardSeat
        requires { IsSeatOf self.now seat.old }
        ensures seat { IsSeatOf self.now seat.new × (view_of seat.new ≡ parent_view (view_of seat.old)) }
        ensures new { IsSeatOf self.now result × (view_of result ≡ child_view (view_of seat.old)) }
    {
        self.turns.split(seat)
    }

    /// Merges `other` into `seat`. The seat then has the items that both have appended, and for each log the longer
    /// prefix that either has seen.
    pub fn join(&self, seat: &mut ShardSeat, other: ShardSeat)
        requires { IsSeatOf self.now seat.old × IsSeatOf self.now other }
        ensures seat { IsSeatOf self.now seat.new }
        ensures view { view_of seat.new ≡ joined (view_of seat.old) (view_of other) }

        // What either has seen of a log is a prefix of what the seat has now seen of it.
        ensures fronts { (shard : ℕ)
            → IsFront (items_at (view_of seat.old).seen shard) (items_at (view_of seat.new).seen shard)
            × IsFront (items_at (view_of other).seen shard) (items_at (view_of seat.new).seen shard) }
    {
        self.turns.join(seat, other);
    }

    /// Closes the turns, with a seat into which all others were joined, and returns the shards in order. It doesn't
    /// allocate.
    pub fn close(self, seat: ShardSeat) -> Vec<Shard<S>>
        requires seat { IsSeatOf self seat }
        requires whole { IsWhole (view_of seat).names }

        // Each shard stands for the log that the seat has seen, of which the opening log is a prefix.
        ensures shards { StandForLogs result.items (view_of seat).seen }
        ensures fronts { (shard : ℕ) → IsFront (items_at (opening_in self) shard) (items_at (view_of seat).seen shard) }

        // The indices of the items after the opening logs are exactly the seat's own, each once.
        ensures places { (shard place : ℕ) → shard < length (opening_in self)
            → times shard place (view_of seat).mine
            ≡ between (length (items_at (opening_in self) shard)) (length (items_at (view_of seat).seen shard)) place }
    {
        let ShardTurns { turns, spare } = self;
        release_all(turns.close(seat), spare.into_inner())
    }

    /// Appends to the shard's log what a call appends, and ends the seat's turn.
    fn end_turn(&self, seat: &mut ShardSeat, number: u8, called: Called<'_, S>)
        requires seat { IsInside self.now seat.old number }
        requires stands { StandsIn called.shard (with_items (view_of seat.old).seen number
            (log_after (items_at (view_of seat.old).seen number) (added_in called))) number }
        ensures seat { IsSeatOf self.now seat.new }
        ensures view { view_of seat.new ≡ free (counted_if number (added_in called.entry) (view_of seat.old)) }
    {
        if called.adds() {
            self.turns.added(seat, number, &called);
        }
        let Called {
            shard,
            call: _,
            answer: _,
            reported: _,
        } = called;
        self.turns.leave(seat, number, LockedShard { shard });
    }
}
