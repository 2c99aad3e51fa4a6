//! The shards that callers share, and their turns.
ghost use Rattle.std.specs.Prelude.{◌≡◌, ℕ, List, ◌+◌, ◌*◌, ◌<◌, ◌≤◌, ◌^◌, [], ◌∷◌, ◌++◌, length, map, IfOk, IfErr, IfSome, IfNone, vec_len, Some};
ghost use Rattle.issuer_base.specs.declared.limits.TheConstants.{MAX_SHARDS};
ghost use Rattle.turn_book.specs.declared.layout.TheConstants.{SHARD_WORDS};
ghost use Rattle.turn_book.specs.declared.logs.Log.{Log};
ghost use Rattle.turn_book.specs.declared.view.Turn.TheVariants.{Free, Inside};

use crate::layout::{FREE, SHARD_WORDS, TAKEN, count_word, turn_word};
use crate::logs::{Item, Logged};
use crate::opening::{Opening, OpeningLogs};
use crate::rule::{Adds, Learns, Looks, Next, Parts, Releases, Retakes, Takes, TurnRule};
use crate::seat::TurnSeat;
use crate::values::{Ground, Sleepers, Spare, empty_slots, fill_slots, take_ground, take_values};
use crate::view::TurnView;
use atomic_table::{Refused, Table};
use issuer_base::MAX_SHARDS;
use std::alloc::Global;
use std::hint;
use std::marker::Brand;
use std::sync::atomic::Ordering;
use std::sync::{Mutex, Wait};

/// How often a caller tries to take a turn before it sleeps.
const TRIES: u32 = 100;

/// The length of a log below which one more item may be appended.
pub const MAX_ITEMS: u64 = 1 << 63;

/// The shards, shared by callers: each has a value that stands for its log.
pub struct Turns<V: Logged<I, B>, I, B> {
    pub(crate) table: Table<Option<V>, TurnView<I, B>, Opening<I, B>, TurnRule, Global>,

    // Room for the values that `close` returns, so that `close` doesn't allocate. The lock is never taken. Because of
    // it, the type of the values needn't be one that threads can share.
    pub(crate) spare: Mutex<Spare<V>>,

    // How many callers sleep for each shard's turn or are about to. If none does, a caller that leaves wakes none.
    pub(crate) sleepers: Vec<Sleepers>,
    ghost some_shard: { 0 < length table.shared.key.view },
    ghost few: { length table.shared.key.view ≤ MAX_SHARDS },
    ghost sized: { table.shared.table_id.words ≡ SHARD_WORDS * length table.shared.key.view },
    ghost slots: { table.shared.table_id.slots ≡ length table.shared.key.view },
    ghost counted: { vec_len sleepers ≡ length table.shared.key.view },
}

impl<V: Logged<I, B>, I, B> Turns<V, I, B> {
    ghost use Rattle.shared_seats.specs.SeatNames.{IsWhole};
    ghost use Rattle.turn_book.specs.Logs.{items_at, IsFront, StandsAt, StandFor};
    ghost use Rattle.turn_book.specs.TurnRule.{between};
    ghost use Rattle.turn_book.specs.TurnViews.{times, first_view, entered, counted, free, parent_view, child_view, joined};
    ghost use Rattle.turn_book.specs.Seats.{opening_of, shards_of, view_of, IsOf};

    /// The turns at shards with these values, in order, and the first seat. Each value stands for its opening log,
    /// whose length is in `counts`; the caller's proof chooses the opening logs as `J`. Only if an allocation fails,
    /// the error returns the values in order.
    pub fn load<J: OpeningLogs<I, B>>(
        alloc: Global,
        mut values: Vec<V>,
        counts: &[u64],
    ) -> Result<(Turns<V, I, B>, TurnSeat<I, B>), Vec<V>>
        requires shards { (0 < vec_len values) × (vec_len values ≤ MAX_SHARDS) }
        requires counts { counts.now ≡ map (λ log. length log.items) J.opening }
        requires values { StandFor V.stands values.items J.opening }
        ensures opening { IfOk result (λ made. opening_of made.0 ≡ J.opening) }
        ensures seat { IfOk result (λ made. IsOf made.1 made.0 × (view_of made.1 ≡ first_view J.opening)) }
        ensures refused { IfErr result (λ back. back.items ≡ values.items) }
    {
        let Ok(ground) = take_ground::<V, J, I, B>(alloc, &mut values, counts) else {
            return Err(values);
        };
        let Ground {
            words,
            key,
            mut slots,
            sleepers,
        } = ground;
        fill_slots(&mut values, &mut slots);
        match Table::new(alloc, words.as_slice(), slots, &key) {
            Ok((table, seat)) => {
                let spare = Mutex::new(Spare::new(values));
                let turns = Turns {
                    table,
                    spare,
                    sleepers,
                };
                Ok((turns, TurnSeat::of(seat)))
            }
            Err(Refused { slots }) => {
                empty_slots(slots, &mut values);
                Err(values)
            }
        }
    }

    /// Waits for the shard's turn, and takes the value, which stands for the current log.
    pub fn enter<R: Wait>(&self, rt: &R, seat: &mut TurnSeat<I, B>, shard: u8) -> V
        requires seat { IsOf seat.old self.now }
        requires free { (view_of seat.old).turn ≡ Free }
        requires shard { shard < shards_of self.now }
        ensures seat { IsOf seat.new self.now }

        // The seat has now seen the whole log, of which the log that it had seen before is a prefix.
        ensures view { view_of seat.new ≡ entered shard (items_at (view_of seat.new).seen shard) (view_of seat.old) }
        ensures front { IsFront (items_at (view_of seat.old).seen shard) (items_at (view_of seat.new).seen shard) }
        ensures value { StandsAt V.stands result (view_of seat.new).seen shard }
    {
        for _ in rt.forever() {
            match self.look_for_turn(seat, shard) {
                Some(value) => return value,
                None => self.sleep(rt, shard),
            }
        }
        unreachable!()
    }

    /// Appends the item that this value represents to the log of the shard that the seat is in, by one atomic step.
    pub fn added<E: Item<I>>(&self, seat: &mut TurnSeat<I, B>, shard: u8, item: &E)
        requires seat { IsOf seat.old self.now }
        requires held { (view_of seat.old).turn ≡ Inside shard }
        requires room { length (items_at (view_of seat.old).seen shard) < MAX_ITEMS }
        ensures seat { IsOf seat.new self.now }
        ensures view { view_of seat.new ≡ counted shard (E.item item.now) (view_of seat.old) }
        ensures log { items_at (view_of seat.new).seen shard ≡ items_at (view_of seat.old).seen shard
            ++ E.item item.now ∷ [] }
    {
        self.count_next::<Brand, E>(seat, shard, item);
    }

    /// Ends the seat's turn at the shard: the value goes back, and one caller that sleeps for this turn is woken.
    pub fn leave(&self, seat: &mut TurnSeat<I, B>, shard: u8, value: V)
        requires seat { IsOf seat.old self.now }
        requires held { (view_of seat.old).turn ≡ Inside shard }
        requires value { StandsAt V.stands value (view_of seat.old).seen shard }
        ensures seat { IsOf seat.new self.now }
        ensures view { view_of seat.new ≡ free (view_of seat.old) }
    {
        let mut stepper = seat.take::<V>();
        let word = turn_word(shard);
        self.table.shared.load::<Retakes>(&mut stepper, word);
        let empty = self
            .table
            .shared
            .exchange(&mut stepper, shard as usize, Some(value));
        let None = empty else { unreachable!() };
        self.table
            .shared
            .store::<Releases>(&mut stepper, word, FREE);
        seat.put(stepper);
        self.wake(shard);
    }

    /// Splits off a second seat, which has seen the same logs and has appended nothing.
    pub fn split(&self, seat: &mut TurnSeat<I, B>) -> TurnSeat<I, B>
        requires seat { IsOf seat.old self.now }
        requires free { (view_of seat.old).turn ≡ Free }
        ensures seat { IsOf seat.new self.now × (view_of seat.new ≡ parent_view (view_of seat.old)) }
        ensures new { IsOf result self.now × (view_of result ≡ child_view (view_of seat.old)) }
    {
        let mut stepper = seat.take::<V>();
        let new = self.table.shared.split_seat::<Parts>(&mut stepper);
        seat.put(stepper);
        TurnSeat::of(new)
    }

    /// Merges `other` into `seat`. The seat then has the items that both have appended, and for each log the longer
    /// prefix that either has seen.
    pub fn join(&self, seat: &mut TurnSeat<I, B>, other: TurnSeat<I, B>)
        requires seats { IsOf seat.old self.now × IsOf other self.now }
        requires free { ((view_of seat.old).turn ≡ Free) × ((view_of other).turn ≡ Free) }
        ensures seat { IsOf seat.new self.now }
        ensures view { view_of seat.new ≡ joined (view_of seat.old) (view_of other) }

        // What either had seen of a log is a prefix of what the seat has now seen of it.
        ensures fronts { (shard : ℕ) → IsFront (items_at (view_of seat.old).seen shard)
            (items_at (view_of seat.new).seen shard)
            × IsFront (items_at (view_of other).seen shard) (items_at (view_of seat.new).seen shard) }
    {
        let mut stepper = seat.take::<V>();
        self.table
            .shared
            .join_seat::<Parts>(&mut stepper, other.into_seat());
        self.table.shared.load::<Learns>(&mut stepper, turn_word(0));
        seat.put(stepper);
    }

    /// Closes the turns, with a seat into which all others were joined, and returns the values in order. It doesn't
    /// allocate.
    pub fn close(self, seat: TurnSeat<I, B>) -> Vec<V>
        requires seat { IsOf seat self }
        requires free { (view_of seat).turn ≡ Free }
        requires whole { IsWhole (view_of seat).names }

        // Each value stands for the log that the seat has seen, of which the opening log is a prefix.
        ensures values { StandFor V.stands result.items (view_of seat).seen }
        ensures fronts { (shard : ℕ) → IsFront (items_at (opening_of self) shard) (items_at (view_of seat).seen shard) }

        // The indices of the items after the opening logs are exactly the seat's own, each once.
        ensures places { (shard place : ℕ) → shard < shards_of self → times shard place (view_of seat).mine
            ≡ between (length (items_at (opening_of self) shard)) (length (items_at (view_of seat).seen shard)) place }
    {
        let seat = seat.into_seat::<V>();
        let Turns {
            table,
            spare,
            sleepers: _,
        } = self;
        let mut values = spare.into_inner().into_list();
        let mut closed = table.close_with(seat);
        take_values(&mut closed, &mut values);
        closed.free();
        values
    }

    /// Tries a fixed number of times to take the turn and the value.
    fn look_for_turn(&self, seat: &mut TurnSeat<I, B>, shard: u8) -> Option<V>
        requires seat { IsOf seat.old self.now }
        requires free { (view_of seat.old).turn ≡ Free }
        requires shard { shard < shards_of self.now }
        ensures seat { IsOf seat.new self.now }
        ensures entered { IfSome result (λ value. (view_of seat.new ≡ entered shard
            (items_at (view_of seat.new).seen shard) (view_of seat.old))
            × IsFront (items_at (view_of seat.old).seen shard) (items_at (view_of seat.new).seen shard)
            × StandsAt V.stands value (view_of seat.new).seen shard) }
        ensures same { IfNone result (view_of seat.new ≡ view_of seat.old) }
    {
        for _ in 0..TRIES {
            if self.table.shared.peek(turn_word(shard)) == FREE {
                match self.try_enter(seat, shard) {
                    Some(value) => return Some(value),
                    None => {}
                }
            }
            hint::spin_loop();
        }
        None
    }

    /// Takes the shard's turn and its value, in one step, if the turn is free.
    fn try_enter(&self, seat: &mut TurnSeat<I, B>, shard: u8) -> Option<V>
        requires seat { IsOf seat.old self.now }
        requires free { (view_of seat.old).turn ≡ Free }
        requires shard { shard < shards_of self.now }
        ensures seat { IsOf seat.new self.now }
        ensures entered { IfSome result (λ value. (view_of seat.new ≡ entered shard
            (items_at (view_of seat.new).seen shard) (view_of seat.old))
            × IsFront (items_at (view_of seat.old).seen shard) (items_at (view_of seat.new).seen shard)
            × StandsAt V.stands value (view_of seat.new).seen shard) }
        ensures same { IfNone result (view_of seat.new ≡ view_of seat.old) }
    {
        let mut stepper = seat.take::<V>();
        let found = self
            .table
            .shared
            .compare_exchange::<Takes>(&mut stepper, turn_word(shard), FREE, TAKEN);
        if found != FREE {
            seat.put(stepper);
            return None;
        }
        let value = self
            .table
            .shared
            .exchange(&mut stepper, shard as usize, None);
        self.table
            .shared
            .load::<Looks>(&mut stepper, count_word(shard));
        seat.put(stepper);
        Some(value.unwrap())
    }

    /// Sleeps while the shard's turn is taken, until a caller leaves. It may also return earlier.
    fn sleep<R: Wait>(&self, rt: &R, shard: u8)
        requires { shard < shards_of self.now }
    {
        let sleepers = &self.sleepers[usize::from(shard)];
        sleepers.fetch_add(1, Ordering::SeqCst);
        self.table.shared.park(rt, turn_word(shard), TAKEN as u32);
        sleepers.fetch_sub(1, Ordering::SeqCst);
    }

    /// Wakes one caller that sleeps for the shard's turn, if there is one.
    fn wake(&self, shard: u8)
        requires { shard < shards_of self.now }
    {
        if self.sleepers[usize::from(shard)].load(Ordering::SeqCst) != 0 {
            self.table.shared.wake_one(turn_word(shard));
        }
    }

    /// Appends the item that a call chooses, as `added` says.
    fn count_next<N: Next<I>, E: Item<I>>(&self, seat: &mut TurnSeat<I, B>, shard: u8, item: &E)
        requires seat { IsOf seat.old self.now }
        requires held { (view_of seat.old).turn ≡ Inside shard }
        requires room { length (items_at (view_of seat.old).seen shard) < MAX_ITEMS }
        requires next { N.next ≡ Some (E.item item.now) }
        ensures seat { IsOf seat.new self.now }
        ensures view { view_of seat.new ≡ counted shard (E.item item.now) (view_of seat.old) }
    {
        let _ = item;
        let mut stepper = seat.take::<V>();
        self.table
            .shared
            .fetch_add::<Adds<N>>(&mut stepper, count_word(shard), 1);
        seat.put(stepper);
    }
}
