//! Callers in threads of their own take turns at shards whose values count the items.
ghost use Rattle.std.specs.Prelude.{◌≡◌, ℕ, ◌+◌, ◌<◌, ◌≤◌, [], ◌∷◌, ◌++◌, All, length, map, IfOk, vec_len, vec_capacity, slice_index_or};
ghost use Rattle.std.specs.List.{flat_map};
ghost use Rattle.shared_seats.specs.Totals.{total};
ghost use Rattle.shared_seats.specs.SeatNames.{IsWhole};
ghost use Rattle.turn_book.specs.declared.view.Turn.TheVariants.{Free, Inside};
ghost use Rattle.turn_book.specs.Logs.{items_at, StandsAt, StandFor};
ghost use Rattle.turn_book.specs.TurnViews.{times, first_view};
ghost use Rattle.turn_book.specs.TurnRule.{between};
ghost use Rattle.turn_book.specs.Seats.{opening_of, shards_of, view_of, IsOf};
ghost use Rattle.turn_book.specs.Counting.{CountsItems, count_at, HasAdded, HaveAdded, IsReady, IsDone};

use issuer_base::NoMemory;
use std::alloc::Global;
use std::marker::Brand;
use std::sync::Wait;
use std::test::Fail;
use std::thread;
use std::thread::Threads;
use turn_book::{Item, Logged, MAX_ITEMS, TurnSeat, Turns};

/// The number of shards.
const SHARDS: u8 = 4;

/// The most items that each caller appends.
const ITEMS: u64 = 400;

/// A shard's number, and the length of its log. It can't be dropped.
struct Tally {
    shard: u8,
    count: u64,
}

impl Logged<u64, u8> for Tally {
    ghost stands = { λ tally head items. CountsItems tally.shard tally.count head items };
}

/// The number of a caller, which is an item of a log.
struct Mark(u64);

impl Item<u64> for Mark {
    ghost item = { λ mark. mark.0 };
}

type Tallies = Turns<Tally, u64, u8>;

/// A caller with its seat, and the shards and indices of the items that it has appended.
struct Caller {
    seat: TurnSeat<u64, u8>,
    places: Vec<(u8, u64)>,
}

/// Appends an item to the log of the shard that the caller is in, and notes its index, unless the log is full.
fn count_item(tallies: &Tallies, caller: &mut Caller, shard: u8, mut tally: Tally) -> Tally
    requires seat { IsOf caller.old.seat tallies.now × ((view_of caller.old.seat).turn ≡ Inside shard) }
    requires tally { StandsAt ⟦<Tally as Logged<u64, u8>>⟧.stands tally (view_of caller.old.seat).seen shard }
    requires added { HasAdded caller.old.places.items (view_of caller.old.seat) }
    requires room { vec_len caller.old.places < vec_capacity caller.old.places }
    ensures seat { IsOf caller.new.seat tallies.now × ((view_of caller.new.seat).turn ≡ Inside shard)
        × ((view_of caller.new.seat).names ≡ (view_of caller.old.seat).names) }
    ensures tally { StandsAt ⟦<Tally as Logged<u64, u8>>⟧.stands result (view_of caller.new.seat).seen shard }
    ensures added { HasAdded caller.new.places.items (view_of caller.new.seat) }
    ensures room { (vec_len caller.new.places ≤ vec_len caller.old.places + 1) × (vec_capacity caller.new.places ≡ vec_capacity caller.old.places) }
{
    if tally.count >= MAX_ITEMS {
        return tally;
    }
    tallies.added(&mut caller.seat, shard, &Mark(7));
    caller.places.push_reserved((shard, tally.count));
    tally.count += 1;
    tally
}

/// Takes a turn at the shard, and appends an item.
fn take_turn<R: Wait>(rt: &R, tallies: &Tallies, caller: &mut Caller, shard: u8)
    requires caller { IsReady tallies.now caller.old.seat caller.old.places.items }
    requires shard { shard < shards_of tallies.now }
    requires room { vec_len caller.old.places < vec_capacity caller.old.places }
    ensures caller { IsReady tallies.now caller.new.seat caller.new.places.items }
    ensures names { (view_of caller.new.seat).names ≡ (view_of caller.old.seat).names }
    ensures room { (vec_len caller.new.places ≤ vec_len caller.old.places + 1) × (vec_capacity caller.new.places ≡ vec_capacity caller.old.places) }
{
    let tally = tallies.enter(rt, &mut caller.seat, shard);
    let tally = count_item(tallies, caller, shard, tally);
    tallies.leave(&mut caller.seat, shard, tally);
}

/// Takes turns at all shards, again and again.
fn take_turns<R: Wait>(rt: &R, tallies: &Tallies, caller: &mut Caller)
    requires caller { IsReady tallies.now caller.old.seat caller.old.places.items }
    requires shards { shards_of tallies.now ≡ SHARDS }
    requires room { (vec_len caller.old.places ≡ 0) × (ITEMS ≤ vec_capacity caller.old.places) }
    ensures caller { IsReady tallies.now caller.new.seat caller.new.places.items }
    ensures names { (view_of caller.new.seat).names ≡ (view_of caller.old.seat).names }
{
    for turn in 0..ITEMS {
        take_turn(rt, tallies, caller, (turn % SHARDS as u64) as u8);
    }
}

/// `count` empty lists, each with room for the items of a caller.
fn empty_lists(alloc: Global, count: usize) -> Result<Vec<Vec<(u8, u64)>>, NoMemory>
    ensures { IfOk result (λ lists. (vec_len lists ≡ count) × All (λ list. (list.items ≡ []) × (ITEMS ≤ vec_capacity list)) lists.items) }
{
    let mut lists = Vec::with_capacity(alloc, count)?;
    for _ in 0..count {
        lists.push(Vec::with_capacity(alloc, ITEMS as usize)?)?;
    }
    Ok(lists)
}

/// Splits off a seat for each list.
fn seat_all(
    tallies: &Tallies,
    seat: &mut TurnSeat<u64, u8>,
    mut lists: Vec<Vec<(u8, u64)>>,
    callers: &mut Vec<Caller>,
)
    requires seat { IsReady tallies.now seat.old [] }
    requires whole { IsWhole (view_of seat.old).names }
    requires lists { All (λ list. (list.items ≡ []) × (ITEMS ≤ vec_capacity list)) lists.items }
    requires room { (callers.old.items ≡ []) × (vec_len lists ≤ vec_capacity callers.old) }
    ensures seat { IsReady tallies.now seat.new [] }
    ensures callers { All (λ caller. IsReady tallies.now caller.seat caller.places.items × (caller.places.items ≡ []) × (ITEMS ≤ vec_capacity caller.places)) callers.new.items }
    ensures count { vec_len callers.new ≡ vec_len lists }
    ensures whole { IsWhole ((view_of seat.new).names ++ flat_map (λ caller. (view_of caller.seat).names) callers.new.items) }
{
    while let Some(places) = lists.pop() {
        callers.push_reserved(Caller {
            seat: tallies.split(seat),
            places,
        });
    }
}

/// Has all callers take turns concurrently, each in a thread of its own.
fn take_turns_at_once<R: Threads + Wait + Sync>(rt: &R, tallies: &Tallies, callers: &mut [Caller])
    requires shards { (shards_of tallies.now ≡ SHARDS) × (0 < length callers.old) }
    requires ready { All (λ caller. IsReady tallies.now caller.seat caller.places.items × (caller.places.items ≡ []) × (ITEMS ≤ vec_capacity caller.places)) callers.old }
    ensures names { (i : ℕ) (d : _) → i < length callers.old
        → (view_of (slice_index_or callers.new i d).seat).names ≡ (view_of (slice_index_or callers.old i d).seat).names }
    ensures done { All (λ caller. IsReady tallies.now caller.seat caller.places.items) callers.new }
{
    let count = callers.len();
    thread::for_each_mut(
        rt,
        callers,
        count,
        &|_, caller| take_turns(rt, tallies, caller),
    );
}

/// Joins the seats of all callers, and returns their lists.
fn join_all(
    tallies: &Tallies,
    seat: &mut TurnSeat<u64, u8>,
    mut callers: Vec<Caller>,
    places: &mut Vec<Vec<(u8, u64)>>,
)
    requires seat { IsReady tallies.now seat.old [] × (places.old.items ≡ []) }
    requires callers { All (λ caller. IsReady tallies.now caller.seat caller.places.items) callers.items }
    requires whole { IsWhole ((view_of seat.old).names ++ flat_map (λ caller. (view_of caller.seat).names) callers.items) }
    requires room { vec_len callers ≤ vec_capacity places.old }
    ensures seat { IsDone tallies.now seat.new (map (λ list. list.items) places.new.items) }
    ensures whole { IsWhole (view_of seat.new).names }
{
    while let Some(caller) = callers.pop() {
        let Caller {
            seat: other,
            places: list,
        } = caller;
        tallies.join(seat, other);
        places.push_reserved(list);
    }
    callers.destroy_empty();
}

/// The tallies of shards with empty logs.
fn fresh_tallies(alloc: Global) -> Result<Vec<Tally>, NoMemory>
    ensures { IfOk result (λ tallies. (vec_len tallies ≡ SHARDS) × All (λ tally. tally.count ≡ 0) tallies.items) }
{
    let mut tallies = Vec::with_capacity(alloc, SHARDS as usize)?;
    for shard in 0..SHARDS {
        tallies.push_reserved(Tally { shard, count: 0 });
    }
    Ok(tallies)
}

/// Ends the tallies, and adds up their counts.
fn sum_counts(mut tallies: Vec<Tally>) -> u64 {
    let mut sum = 0u64;
    while let Some(tally) = tallies.pop() {
        let Tally { shard: _, count } = tally;
        sum = sum.saturating_add(count);
    }
    tallies.destroy_empty();
    sum
}

/// Turns at shards with empty logs.
fn open(alloc: Global) -> Result<(Tallies, TurnSeat<u64, u8>), NoMemory>
    ensures turns { IfOk result (λ made. (shards_of made.0 ≡ SHARDS) × ((shard : ℕ) → items_at (opening_of made.0) shard ≡ [])) }
    ensures seat { IfOk result (λ made. IsOf made.1 made.0 × (view_of made.1 ≡ first_view (opening_of made.0))) }
{
    let counts = [0; SHARDS as usize];
    match Tallies::load::<Brand>(alloc, fresh_tallies(alloc)?, &counts) {
        Ok(made) => Ok(made),
        Err(tallies) => {
            sum_counts(tallies);
            Err(NoMemory)
        }
    }
}

/// The indices that callers in threads of their own draw at a shard are those from 0 to below its count, each drawn
/// once, by one caller.
fn draw_places<R: Threads + Wait + Sync>(
    rt: &R,
    alloc: Global,
    count: usize,
) -> Result<(Vec<Tally>, Vec<Vec<(u8, u64)>>), NoMemory>
    requires { 0 < count }
    ensures { IfOk result (λ made. (shard place : ℕ) → shard < SHARDS
        → total (times shard place) (map (λ list. list.items) made.1.items) ≡ between 0 (count_at (map (λ tally. tally.count) made.0.items) shard) place) }
{
    let lists = empty_lists(alloc, count)?;
    let mut places = Vec::with_capacity(alloc, count)?;
    let mut callers = Vec::with_capacity(alloc, count)?;
    let Ok((tallies, mut seat)) = open(alloc) else {
        callers.destroy_empty();
        return Err(NoMemory);
    };
    seat_all(&tallies, &mut seat, lists, &mut callers);
    take_turns_at_once(rt, &tallies, callers.as_mut_slice());
    join_all(&tallies, &mut seat, callers, &mut places);
    Ok((tallies.close(seat), places))
}

#[test]
fn each_place_is_drawn_once(rt: HostRuntime) -> Result<(), Fail> {
    let (tallies, places) = draw_places(&rt, rt.alloc(), 4)?;
    let mut drawn = 0u64;
    for list in places.as_slice() {
        drawn = drawn.saturating_add(list.len() as u64);
    }
    let counted = sum_counts(tallies);
    assert!(rt; drawn == 4 * ITEMS && counted == 4 * ITEMS);
    Ok(())
}
