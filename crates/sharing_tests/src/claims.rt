//! Callers in threads of their own claim all counters of a card concurrently.
ghost use Rattle.std.specs.Prelude.{◌≡◌, ℕ, ◌+◌, ◌<◌, ◌≤◌, [], ◌∷◌, ◌++◌, All, length, map, IfOk, vec_len, vec_capacity, slice_index_or};
ghost use Rattle.std.specs.List.{flat_map};
ghost use Rattle.shared_seats.specs.Totals.{total};
ghost use Rattle.shared_seats.specs.SeatNames.{IsWhole, after_split, split_off};
ghost use Rattle.claim_words.specs.ClaimViews.{newcomer};
ghost use Rattle.claim_words.specs.Contest.{wins_of, HasTried, HaveTried};
ghost use Rattle.claim_words.specs.Seats.{cards_of, recorded_in, view_of, IsOf};

use claim_words::{COUNTERS, Claim, ClaimSeat, ClaimWords};
use issuer_base::NoMemory;
use std::alloc::Global;
use std::test::Fail;
use std::thread;
use std::thread::Threads;

/// A caller with its seat, and the counters that it has won.
struct Caller {
    seat: ClaimSeat,
    won: Vec<u16>,
}

/// Claims the next counter of the card 0.
fn claim_next(words: &ClaimWords, caller: &mut Caller, counter: u16)
    requires seat { IsOf caller.old.seat words.now }
    requires card { cards_of words.now ≡ 1 }
    requires tried { HasTried counter caller.old.won.items (view_of caller.old.seat) }
    requires room { vec_len caller.old.won < vec_capacity caller.old.won }
    ensures seat { IsOf caller.new.seat words.now }
    ensures names { (view_of caller.new.seat).names ≡ (view_of caller.old.seat).names }
    ensures tried { HasTried (counter + 1) caller.new.won.items (view_of caller.new.seat) }
    ensures room { (vec_len caller.new.won ≤ vec_len caller.old.won + 1) × (vec_capacity caller.new.won ≡ vec_capacity caller.old.won) }
{
    match words.claim(&mut caller.seat, 0, counter) {
        Claim::Won => caller.won.push_reserved(counter),
        Claim::Lost => {}
    }
}

/// Claims each counter of the card 0 once.
fn claim_all(words: &ClaimWords, caller: &mut Caller)
    requires seat { IsOf caller.old.seat words.now }
    requires card { cards_of words.now ≡ 1 }
    requires new { HasTried 0 caller.old.won.items (view_of caller.old.seat) }
    requires room { (vec_len caller.old.won ≡ 0) × (COUNTERS ≤ vec_capacity caller.old.won) }
    ensures seat { IsOf caller.new.seat words.now }
    ensures names { (view_of caller.new.seat).names ≡ (view_of caller.old.seat).names }
    ensures tried { HasTried COUNTERS caller.new.won.items (view_of caller.new.seat) }
{
    for counter in 0..COUNTERS {
        claim_next(words, caller, counter as u16);
    }
}

/// `count` empty lists, each with room for all counters of a card.
fn empty_lists(alloc: Global, count: usize) -> Result<Vec<Vec<u16>>, NoMemory>
    ensures { IfOk result (λ lists. (vec_len lists ≡ count) × All (λ list. (list.items ≡ []) × (COUNTERS ≤ vec_capacity list)) lists.items) }
{
    let mut lists = Vec::with_capacity(alloc, count)?;
    for _ in 0..count {
        lists.push(Vec::with_capacity(alloc, COUNTERS as usize)?)?;
    }
    Ok(lists)
}

/// Splits off a seat for each list.
fn seat_all(
    words: &ClaimWords,
    seat: &mut ClaimSeat,
    mut lists: Vec<Vec<u16>>,
    callers: &mut Vec<Caller>,
)
    requires seat { IsOf seat.old words.now × HaveTried [] (view_of seat.old) }
    requires whole { IsWhole (view_of seat.old).names }
    requires lists { All (λ list. (list.items ≡ []) × (COUNTERS ≤ vec_capacity list)) lists.items }
    requires room { (callers.old.items ≡ []) × (vec_len lists ≤ vec_capacity callers.old) }
    ensures seat { IsOf seat.new words.now × HaveTried [] (view_of seat.new) }
    ensures callers { All (λ caller. IsOf caller.seat words.now × HasTried 0 caller.won.items (view_of caller.seat)
        × (caller.won.items ≡ []) × (COUNTERS ≤ vec_capacity caller.won)) callers.new.items }
    ensures count { vec_len callers.new ≡ vec_len lists }
    ensures whole { IsWhole ((view_of seat.new).names ++ flat_map (λ caller. (view_of caller.seat).names) callers.new.items) }
{
    while let Some(won) = lists.pop() {
        callers.push_reserved(Caller {
            seat: words.split(seat),
            won,
        });
    }
}

/// Has all callers claim concurrently, each in a thread of its own.
fn claim_at_once<R: Threads + Sync>(rt: &R, words: &ClaimWords, callers: &mut [Caller])
    requires card { (cards_of words.now ≡ 1) × (0 < length callers.old) }
    requires ready { All (λ caller. IsOf caller.seat words.now × HasTried 0 caller.won.items (view_of caller.seat)
        × (caller.won.items ≡ []) × (COUNTERS ≤ vec_capacity caller.won)) callers.old }
    ensures names { (i : ℕ) (d : _) → i < length callers.old
        → (view_of (slice_index_or callers.new i d).seat).names ≡ (view_of (slice_index_or callers.old i d).seat).names }
    ensures done { All (λ caller. IsOf caller.seat words.now × HasTried COUNTERS caller.won.items (view_of caller.seat)) callers.new }
{
    let count = callers.len();
    thread::for_each_mut(rt, callers, count, &|_, caller| claim_all(words, caller));
}

/// Joins the seats of all callers, and returns their lists.
fn join_all(
    words: &ClaimWords,
    seat: &mut ClaimSeat,
    mut callers: Vec<Caller>,
    won: &mut Vec<Vec<u16>>,
)
    requires seat { IsOf seat.old words.now }
    requires new { HaveTried [] (view_of seat.old) × (won.old.items ≡ []) × (vec_len callers ≤ vec_capacity won.old) }
    requires callers { All (λ caller. IsOf caller.seat words.now × HasTried COUNTERS caller.won.items (view_of caller.seat)) callers.items }
    requires whole { IsWhole ((view_of seat.old).names ++ flat_map (λ caller. (view_of caller.seat).names) callers.items) }
    ensures seat { IsOf seat.new words.now }
    ensures tried { HaveTried (map (λ list. list.items) won.new.items) (view_of seat.new) }
    ensures count { vec_len won.new ≡ vec_len callers }
    ensures whole { IsWhole (view_of seat.new).names }
{
    while let Some(caller) = callers.pop() {
        let Caller {
            seat: other,
            won: list,
        } = caller;
        words.join(seat, other);
        won.push_reserved(list);
    }
    callers.destroy_empty();
}

/// Exactly one caller wins each counter of the card, and exactly once.
fn contest<R: Threads + Sync>(
    rt: &R,
    alloc: Global,
    count: usize,
) -> Result<Vec<Vec<u16>>, NoMemory>
    requires { 0 < count }
    ensures { IfOk result (λ won. (counter : ℕ) → counter < COUNTERS → total (wins_of counter) (map (λ list. list.items) won.items) ≡ 1) }
{
    let lists = empty_lists(alloc, count)?;
    let mut won = Vec::with_capacity(alloc, count)?;
    let mut callers = Vec::with_capacity(alloc, count)?;
    let Ok((words, mut seat)) = ClaimWords::load(alloc, 1, &[]) else {
        callers.destroy_empty();
        return Err(NoMemory);
    };
    seat_all(&words, &mut seat, lists, &mut callers);
    claim_at_once(rt, &words, callers.as_mut_slice());
    join_all(&words, &mut seat, callers, &mut won);
    words.close(seat);
    Ok(won)
}

#[test]
fn each_counter_is_won_once(rt: HostRuntime) -> Result<(), Fail> {
    let mut wins = 0u64;
    for list in contest(&rt, rt.alloc(), 4)?.as_slice() {
        wins = wins.saturating_add(list.len() as u64);
    }
    assert_eq!(rt; wins, COUNTERS);
    Ok(())
}

#[test]
fn a_claim_is_given_back_or_kept(rt: HostRuntime) -> Result<(), Fail> {
    let (words, mut seat) = ClaimWords::load(rt.alloc(), 2, &[(1, 5)])?;
    assert!(rt; words.claim(&mut seat, 1, 5) == Claim::Lost);
    assert!(rt; words.claim(&mut seat, 1, 70) == Claim::Won);
    words.release(&mut seat, 1, 70);
    assert!(rt; words.claim(&mut seat, 1, 70) == Claim::Won);
    assert!(rt; words.top(&mut seat, 1) == Some(5));
    words.mark_kept(&mut seat, 1, 70);
    assert!(rt; words.top(&mut seat, 1) == Some(70));
    assert!(rt; words.top(&mut seat, 0).is_none());
    words.close(seat);
    Ok(())
}
