//! Callers in threads of their own that take turns at shards whose values count the items.
ghost use Rattle.std.specs.Prelude.{◌≡◌, ℕ, ◌<◌, ◌≤◌, [], ◌++◌, All, length, IfOk, vec_len, vec_capacity, slice_index_or};
ghost use Rattle.std.specs.List.{flat_map};
ghost use Rattle.issuer_base.specs.declared.limits.TheConstants.{MAX_SHARDS};
ghost use Rattle.shared_seats.specs.SeatNames.{IsWhole};
ghost use Rattle.turn_book.specs.declared.view.Turn.TheVariants.{Free, Inside};
ghost use Rattle.turn_book.specs.Logs.{StandsAt};
ghost use Rattle.turn_book.specs.Seats.{shards_of, view_of, IsOf};
ghost use Rattle.bench_runs.specs.Ready.{IsReady};

use crate::counts::{Counts, one};
use issuer_base::{MAX_SHARDS, NoMemory};
use std::alloc::Global;
use std::marker::Brand;
use std::sync::Wait;
use std::thread;
use std::thread::Threads;
use turn_book::{Item, Logged, MAX_ITEMS, TurnSeat, Turns};

/// The number of shards and of callers, how many turns each caller takes, and whether it appends an item in each.
#[derive(Clone, Copy)]
struct Run {
    shards: u8,
    threads: usize,
    rounds: u64,
    add: bool,
}

/// How many items the callers of a run append together. `numbers` are those of shards, of callers and of turns. `None`
/// if they are out of range, or memory runs out.
pub(crate) fn measure<R: Threads + Wait + Sync>(
    rt: &R,
    alloc: Global,
    numbers: [u64; 3],
    add: bool,
) -> Option<Counts> {
    let [shards, threads, rounds] = numbers;
    if shards == 0 || shards > u64::from(MAX_SHARDS) || threads == 0 {
        return None;
    }
    let run = Run {
        shards: shards as u8,
        threads: threads as usize,
        rounds,
        add,
    };
    Some(one(counted_by(rt, alloc, &run).ok()?))
}

/// The length of a shard's log.
struct Tally {
    count: u64,
}

impl Logged<u64, u8> for Tally {
    ghost stands = { λ tally _ items. tally.count ≡ length items };
}

/// An item of a log.
struct Mark(u64);

impl Item<u64> for Mark {
    ghost item = { λ mark. mark.0 };
}

type Tallies = Turns<Tally, u64, u8>;

/// A caller with its seat, and the shard that it takes turns at.
struct Caller {
    seat: TurnSeat<u64, u8>,
    shard: u8,
}

/// Appends an item to the log of the shard that the seat is in, if `add` says so and the log isn't full.
fn count_item(tallies: &Tallies, caller: &mut Caller, mut tally: Tally, add: bool) -> Tally
    requires seat { IsOf caller.old.seat tallies.now × ((view_of caller.old.seat).turn ≡ Inside caller.old.shard) }
    requires tally { StandsAt ⟦<Tally as Logged<u64, u8>>⟧.stands tally
        (view_of caller.old.seat).seen caller.old.shard }
    ensures seat { IsOf caller.new.seat tallies.now × ((view_of caller.new.seat).turn ≡ Inside caller.new.shard) }
    ensures same { (caller.new.shard ≡ caller.old.shard)
        × ((view_of caller.new.seat).names ≡ (view_of caller.old.seat).names) }
    ensures tally { StandsAt ⟦<Tally as Logged<u64, u8>>⟧.stands result
        (view_of caller.new.seat).seen caller.new.shard }
{
    if !add {
        return tally;
    }
    if tally.count >= MAX_ITEMS {
        return tally;
    }
    tallies.added(&mut caller.seat, caller.shard, &Mark(1));
    tally.count += 1;
    tally
}

/// Takes a turn.
fn take_turn<R: Wait>(rt: &R, tallies: &Tallies, caller: &mut Caller, add: bool)
    requires caller { IsReady tallies.now caller.old.seat caller.old.shard }
    ensures caller { IsReady tallies.now caller.new.seat caller.new.shard }
    ensures names { (view_of caller.new.seat).names ≡ (view_of caller.old.seat).names }
{
    let shard = caller.shard;
    let tally = tallies.enter(rt, &mut caller.seat, shard);
    let tally = count_item(tallies, caller, tally, add);
    tallies.leave(&mut caller.seat, shard, tally);
}

/// Takes as many turns as the run says.
fn take_turns<R: Wait>(rt: &R, tallies: &Tallies, caller: &mut Caller, run: &Run)
    requires caller { IsReady tallies.now caller.old.seat caller.old.shard }
    ensures caller { IsReady tallies.now caller.new.seat caller.new.shard }
    ensures names { (view_of caller.new.seat).names ≡ (view_of caller.old.seat).names }
{
    for _ in 0..run.rounds {
        take_turn(rt, tallies, caller, run.add);
    }
}

/// Splits off a seat for each caller, and deals the shards among them.
fn seat_all(tallies: &Tallies, seat: &mut TurnSeat<u64, u8>, run: &Run, callers: &mut Vec<Caller>)
    requires seat { IsReady tallies.now seat.old 0 }
    requires shards { (0 < run.now.shards) × (run.now.shards ≡ shards_of tallies.now) }
    requires whole { IsWhole (view_of seat.old).names }
    requires room { (callers.old.items ≡ []) × (run.now.threads ≤ vec_capacity callers.old) }
    ensures seat { IsReady tallies.now seat.new 0 }
    ensures callers { All (λ caller. IsReady tallies.now caller.seat caller.shard) callers.new.items }
    ensures count { vec_len callers.new ≡ run.now.threads }
    ensures whole { IsWhole ((view_of seat.new).names ++ flat_map
        (λ caller. (view_of caller.seat).names) callers.new.items) }
{
    for number in 0..run.threads {
        callers.push_reserved(Caller {
            seat: tallies.split(seat),
            shard: (number % run.shards as usize) as u8,
        });
    }
}

/// Has all callers take turns concurrently, each in a thread of its own.
fn take_turns_at_once<R: Threads + Wait + Sync>(
    rt: &R,
    tallies: &Tallies,
    callers: &mut [Caller],
    run: &Run,
)
    requires some_caller { 0 < length callers.old }
    requires ready { All (λ caller. IsReady tallies.now caller.seat caller.shard) callers.old }
    ensures names { (i : ℕ) (d : _) → i < length callers.old
        → (view_of (slice_index_or callers.new i d).seat).names ≡
        (view_of (slice_index_or callers.old i d).seat).names }
    ensures ready { All (λ caller. IsReady tallies.now caller.seat caller.shard) callers.new }
{
    let count = callers.len();
    thread::for_each_mut(
        rt,
        callers,
        count,
        &|_, caller| take_turns(rt, tallies, caller, run),
    );
}

/// Joins the seats of all callers.
fn join_all(tallies: &Tallies, seat: &mut TurnSeat<u64, u8>, mut callers: Vec<Caller>)
    requires seat { IsReady tallies.now seat.old 0 }
    requires callers { All (λ caller. IsReady tallies.now caller.seat caller.shard) callers.items }
    requires whole { IsWhole ((view_of seat.old).names ++ flat_map
        (λ caller. (view_of caller.seat).names) callers.items) }
    ensures seat { IsReady tallies.now seat.new 0 }
    ensures whole { IsWhole (view_of seat.new).names }
{
    while let Some(caller) = callers.pop() {
        let Caller {
            seat: other,
            shard: _,
        } = caller;
        tallies.join(seat, other);
    }
    callers.destroy_empty();
}

/// The tallies of `shards` shards with empty logs.
fn fresh_tallies(alloc: Global, shards: u8) -> Result<Vec<Tally>, NoMemory>
    ensures { IfOk result (λ tallies. (vec_len tallies ≡ shards) × All (λ tally. tally.count ≡ 0) tallies.items) }
{
    let mut tallies = Vec::with_capacity(alloc, shards as usize)?;
    for _ in 0..shards {
        tallies.push_reserved(Tally { count: 0 });
    }
    Ok(tallies)
}

/// Ends the tallies, and adds up their counts.
fn sum_counts(mut tallies: Vec<Tally>) -> u64 {
    let mut sum = 0u64;
    while let Some(tally) = tallies.pop() {
        let Tally { count } = tally;
        sum = sum.saturating_add(count);
    }
    tallies.destroy_empty();
    sum
}

/// Turns at `shards` shards with empty logs.
fn open(alloc: Global, shards: u8) -> Result<(Tallies, TurnSeat<u64, u8>), NoMemory>
    requires { (0 < shards) × (shards ≤ MAX_SHARDS) }
    ensures turns { IfOk result (λ made. shards_of made.0 ≡ shards) }
    ensures seat { IfOk result (λ made. IsReady made.0 made.1 0 × IsWhole (view_of made.1).names) }
{
    let counts = vec![in alloc; 0; shards as usize]?;
    match Tallies::load::<Brand>(alloc, fresh_tallies(alloc, shards)?, counts.as_slice()) {
        Ok(made) => Ok(made),
        Err(tallies) => {
            sum_counts(tallies);
            Err(NoMemory)
        }
    }
}

/// Has the callers take their turns, and returns how many items they have appended.
fn counted_by<R: Threads + Wait + Sync>(rt: &R, alloc: Global, run: &Run) -> Result<u64, NoMemory>
    requires shards { (0 < run.now.shards) × (run.now.shards ≤ MAX_SHARDS) }
    requires threads { 0 < run.now.threads }
{
    let mut callers = Vec::with_capacity(alloc, run.threads)?;
    let Ok((tallies, mut seat)) = open(alloc, run.shards) else {
        callers.destroy_empty();
        return Err(NoMemory);
    };
    seat_all(&tallies, &mut seat, run, &mut callers);
    take_turns_at_once(rt, &tallies, callers.as_mut_slice(), run);
    join_all(&tallies, &mut seat, callers);
    Ok(sum_counts(tallies.close(seat)))
}
