//! Small runs, against counts that were computed without the product, and their text.

ghost use Rattle.std.specs.Prelude.{◌≤◌, ◌*◌};

use arrayvec::ArrayVec;
use issuer_base::NoMemory;
use std::alloc::Global;
use std::test::Fail;
use world_play::{SUMMARY_ROOM, play, write_summary};

/// One card over each fate, counted by hand.
const EACH_FATE: &[u8] =
    b"taps 8\nfresh 7\napproved 4\nkept 1\nrefused 1\nauthenticated 4\nunauthenticated 2\nqueued 3\ndone 3\nran 3\nhalted 0\n";

/// Three cards over all fates again and again. The counts are those of a model of counters and numbers of commands,
/// without cryptograms.
const ALL_FATES: &[u8] =
    b"taps 60\nfresh 52\napproved 25\nkept 6\nrefused 9\nauthenticated 29\nunauthenticated 14\nqueued 27\ndone 18\nran 19\nhalted 0\n";

#[test]
fn plays_all_fates(rt: HostRuntime) -> Result<(), Fail> {
    let mut text = ArrayVec::<u8, SUMMARY_ROOM>::new();
    text.push(b'x');
    write_summary(&play(rt.alloc(), 1, 8, 0)?, &mut text);
    assert_eq!(rt; text.as_slice(), EACH_FATE);
    write_summary(&play(rt.alloc(), 3, 60, 5)?, &mut text);
    assert_eq!(rt; text.as_slice(), ALL_FATES);
    Ok(())
}

/// How many commands were queued in a world, how many the host counts as done, how many the cards ran, and how many cards are halted.
type Commands = (u64, u64, u64, u64);

/// The commands of a world of this size with this seed.
fn commands(alloc: Global, cards: u32, steps: u32, seed: u32) -> Result<Commands, NoMemory>
    requires cards { (1 ≤ cards) × (cards ≤ 4_096) }
    requires steps { steps ≤ 200_000 }
    requires counters { steps ≤ 65_535 * cards }
{
    let summary = play(alloc, cards, steps, seed)?;
    Ok((summary.queued, summary.done, summary.ran, summary.halted))
}

// The sizes and seeds were drawn once. The counts are those of the model above: cards ran some commands that they
// haven't reported yet, and none that wasn't queued.
#[test]
fn cards_run_the_commands_that_are_queued_for_them(rt: HostRuntime) -> Result<(), Fail> {
    assert_eq!(rt; commands(rt.alloc(), 1, 64, 11)?, (24, 21, 22, 0));
    assert_eq!(rt; commands(rt.alloc(), 2, 100, 3)?, (36, 34, 36, 0));
    assert_eq!(rt; commands(rt.alloc(), 5, 160, 77)?, (60, 55, 57, 0));
    assert_eq!(rt; commands(rt.alloc(), 7, 210, 20_260_115)?, (81, 68, 73, 0));
    assert_eq!(rt;
        commands(rt.alloc(), 16, 256, 4_294_967_295)?,
        (96, 70, 80, 0)
    );
    assert_eq!(rt; commands(rt.alloc(), 40, 320, 9)?, (120, 55, 80, 0));
    Ok(())
}
