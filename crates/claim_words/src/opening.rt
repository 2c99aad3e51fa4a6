//! The initial words of the table.
ghost use Rattle.std.specs.Prelude.{◌≡◌, ℕ, ◌+◌, ◌*◌, ◌<◌, ◌≤◌, All, IfOk, length};
ghost use Rattle.claim_words.specs.ClaimViews.{times};
ghost use Rattle.claim_words.specs.Opening.{AreOpening};

use crate::layout::{COUNTERS, claim_mask, claim_word, group_words, top_word};
use issuer_base::{MAX_CARDS, NoMemory};
use std::alloc::Global;

/// The initial words of `cards` cards, with their recorded ATCs.
pub(crate) fn opening_words(
    alloc: Global,
    cards: u32,
    recorded: &[(u32, u16)],
) -> Result<Vec<u64>, NoMemory>
    requires cards { cards ≤ MAX_CARDS }
    requires known { All (λ pair. pair.0 < cards) recorded.now }
    requires once { (card counter : ℕ) → times card counter recorded.now ≤ 1 }
    ensures { IfOk result (λ words. AreOpening cards recorded.now words.items) }
{
    let mut words = vec![in alloc; 0; group_words(cards)]?;
    for &(card, counter) in recorded {
        words[claim_word(card, counter)] |= claim_mask(counter);
        let top = top_word(card);
        words[top] = words[top].max(counter as u64 + 1);
    }
    Ok(words)
}
