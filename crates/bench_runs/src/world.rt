//! Large runs of the world of cards.

use crate::counts::Counts;
use issuer_base::{MAX_CARD_REQUESTS, MAX_CARDS, MAX_STEPS};
use std::alloc::Global;
use world_play::{Summary, play};

/// The counts of a run. `numbers` are those of cards and of steps, and the seed. `None` if they are out of range, or
/// memory runs out.
pub(crate) fn measure(alloc: Global, numbers: [u64; 3]) -> Option<Counts> {
    let [cards, steps, seed] = numbers;
    if cards < 1 || cards > MAX_CARDS as u64 || steps > u64::from(MAX_STEPS) {
        return None;
    }
    if steps > u64::from(MAX_CARD_REQUESTS) * cards {
        return None;
    }
    let seed = u32::try_from(seed).ok()?;
    Some(counts_of(&play(alloc, cards as u32, steps as u32, seed).ok()?))
}

fn counts_of(summary: &Summary) -> Counts {
    let mut counts = Counts::new();
    counts.push(summary.taps);
    counts.push(summary.fresh);
    counts.push(summary.approved);
    counts.push(summary.kept);
    counts.push(summary.refused);
    counts.push(summary.authenticated);
    counts.push(summary.unauthenticated);
    counts.push(summary.queued);
    counts.push(summary.done);
    counts.push(summary.ran);
    counts.push(summary.halted);
    counts
}
