//! Callers in threads of their own that claim the same counters.
ghost use Rattle.std.specs.Prelude.{◌≡◌, ℕ, ◌<◌, ◌≤◌, ◌++◌, [], All, length, vec_len, vec_capacity, slice_index_or};
ghost use Rattle.std.specs.List.{flat_map};
ghost use Rattle.shared_seats.specs.SeatNames.{IsWhole};
ghost use Rattle.claim_words.specs.Seats.{cards_of, view_of, IsOf};

use crate::counts::{Counts, one};
use claim_words::{COUNTERS, Claim, ClaimSeat, ClaimWords};
use issuer_base::{MAX_CARDS, NoMemory};
use std::alloc::Global;
use std::thread;
use std::thread::Threads;

/// The number of cards and of callers, how often each claims each counter, and whether it marks the claims that it wins
/// as kept.
#[derive(Clone, Copy)]
struct Run {
    cards: u32,
    threads: usize,
    rounds: u32,
    keep: bool,
}

/// How many claims the callers of a run win together. `numbers` are those of cards, of callers and of rounds. `None` if
/// they are out of range, or memory runs out.
pub(crate) fn measure<R: Threads + Sync>(
    rt: &R,
    alloc: Global,
    numbers: [u64; 3],
    keep: bool,
) -> Option<Counts> {
    let [cards, threads, rounds] = numbers;
    if cards == 0 || cards > MAX_CARDS as u64 || threads == 0 {
        return None;
    }
    let run = Run {
        cards: cards as u32,
        threads: threads as usize,
        rounds: u32::try_from(rounds).ok()?,
        keep,
    };
    Some(one(wins(rt, alloc, &run).ok()?))
}

/// A caller with its seat, and how many claims it has won.
struct Caller {
    seat: ClaimSeat,
    won: u64,
}

/// Claims each counter of a card.
fn claim_card(words: &ClaimWords, caller: &mut Caller, card: u32, keep: bool)
    requires seat { IsOf caller.old.seat words.now }
    requires card { card < cards_of words.now }
    ensures seat { IsOf caller.new.seat words.now }
    ensures names { (view_of caller.new.seat).names ≡ (view_of caller.old.seat).names }
{
    for counter in 0..COUNTERS {
        let counter = counter as u16;
        if let Claim::Won = words.claim(&mut caller.seat, card, counter) {
            caller.won = caller.won.wrapping_add(1);
            if keep {
                words.mark_kept(&mut caller.seat, card, counter);
            }
        }
    }
}

/// Claims each counter of each card, as often as the run says.
fn claim_cards(words: &ClaimWords, caller: &mut Caller, run: &Run)
    requires seat { IsOf caller.old.seat words.now }
    requires cards { run.now.cards ≤ cards_of words.now }
    ensures seat { IsOf caller.new.seat words.now }
    ensures names { (view_of caller.new.seat).names ≡ (view_of caller.old.seat).names }
{
    for card in 0..run.cards {
        for _ in 0..run.rounds {
            claim_card(words, caller, card, run.keep);
        }
    }
}

/// Splits off a seat for each caller.
fn seat_all(words: &ClaimWords, seat: &mut ClaimSeat, count: usize, callers: &mut Vec<Caller>)
    requires seat { IsOf seat.old words.now }
    requires whole { IsWhole (view_of seat.old).names }
    requires room { (callers.old.items ≡ []) × (count ≤ vec_capacity callers.old) }
    ensures seat { IsOf seat.new words.now }
    ensures callers { All (λ caller. IsOf caller.seat words.now) callers.new.items }
    ensures count { vec_len callers.new ≡ count }
    ensures whole { IsWhole ((view_of seat.new).names ++ flat_map
        (λ caller. (view_of caller.seat).names) callers.new.items) }
{
    for _ in 0..count {
        callers.push_reserved(Caller {
            seat: words.split(seat),
            won: 0,
        });
    }
}

/// Has all callers claim concurrently, each in a thread of its own.
fn claim_at_once<R: Threads + Sync>(rt: &R, words: &ClaimWords, callers: &mut [Caller], run: &Run)
    requires cards { (run.now.cards ≤ cards_of words.now) × (0 < length callers.old) }
    requires seats { All (λ caller. IsOf caller.seat words.now) callers.old }
    ensures names { (i : ℕ) (d : _) → i < length callers.old
        → (view_of (slice_index_or callers.new i d).seat).names ≡
        (view_of (slice_index_or callers.old i d).seat).names }
    ensures seats { All (λ caller. IsOf caller.seat words.now) callers.new }
{
    let count = callers.len();
    thread::for_each_mut(
        rt,
        callers,
        count,
        &|_, caller| claim_cards(words, caller, run),
    );
}

/// Joins the seats of all callers, and returns the sum of their wins.
fn join_all(words: &ClaimWords, seat: &mut ClaimSeat, mut callers: Vec<Caller>) -> u64
    requires seat { IsOf seat.old words.now }
    requires callers { All (λ caller. IsOf caller.seat words.now) callers.items }
    requires whole { IsWhole ((view_of seat.old).names ++ flat_map
        (λ caller. (view_of caller.seat).names) callers.items) }
    ensures seat { IsOf seat.new words.now }
    ensures whole { IsWhole (view_of seat.new).names }
{
    let mut count = 0u64;
    while let Some(caller) = callers.pop() {
        let Caller { seat: other, won } = caller;
        words.join(seat, other);
        count = count.wrapping_add(won);
    }
    callers.destroy_empty();
    count
}

/// How many claims the callers of a run win together.
fn wins<R: Threads + Sync>(rt: &R, alloc: Global, run: &Run) -> Result<u64, NoMemory>
    requires { (0 < run.now.cards) × (run.now.cards ≤ MAX_CARDS) × (0 < run.now.threads) }
{
    let mut callers = Vec::with_capacity(alloc, run.threads)?;
    let Ok((words, mut seat)) = ClaimWords::load(alloc, run.cards, &[]) else {
        callers.destroy_empty();
        return Err(NoMemory);
    };
    seat_all(&words, &mut seat, run.threads, &mut callers);
    claim_at_once(rt, &words, callers.as_mut_slice(), run);
    let count = join_all(&words, &mut seat, callers);
    words.close(seat);
    Ok(count)
}
