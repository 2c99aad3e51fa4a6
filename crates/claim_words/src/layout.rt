//! The layout of the words: the index of each claim's word and of each card's top word.
//!
//! Cards are in groups. The words of a group's cards for the same ATCs are one block, and so are their tops, so that the
//! words that callers use at one time lie in few pages.
ghost use Rattle.std.specs.Prelude.{◌≡◌, ◌<◌, ◌≤◌};
ghost use Rattle.claim_words.specs.Layout.{words_for, line_of, word_of, top_word_of, mask_of, others_of, told_by};

use issuer_base::MAX_CARDS;

/// How many ATCs a card has: 0 to 65,535.
pub const COUNTERS: u64 = 65_536;

/// How many claims a word holds, one bit each.
pub(crate) const WORD_CLAIMS: u64 = 64;

/// How many words a line has. They are one card's, and as long as a cache line, so that callers at two cards seldom
/// change the same one.
const LINE_WORDS: u64 = 8;

/// How many claims a line has, on ATCs in a row.
const LINE_CLAIMS: u64 = LINE_WORDS * WORD_CLAIMS;

/// How many cards a group has.
const GROUP_CARDS: u64 = 64;

/// How many words a block has: one line of each card of a group, either with the claims on the same ATCs or with the top
/// as its first word. A block is as long as a page of 4,096 bytes.
const BLOCK_WORDS: u64 = GROUP_CARDS * LINE_WORDS;

/// How many blocks of claims a group has.
const CLAIM_BLOCKS: u64 = COUNTERS / LINE_CLAIMS;

/// How many words a group has: its blocks of claims, and then its block of tops.
const GROUP_WORDS: u64 = (CLAIM_BLOCKS + 1) * BLOCK_WORDS;

/// How many words there are for so many cards: those of each begun group.
#[tactic(auto, unfolding(crate::specs::Layout::words_for))]
pub(crate) fn group_words(cards: u32) -> usize
    requires { cards ≤ MAX_CARDS }
    ensures { result ≡ words_for cards }
{
    (GROUP_WORDS * (cards as u64).div_ceil(GROUP_CARDS)) as usize
}

/// The index of the word with the claim on this ATC of this card.
#[tactic(auto, unfolding(crate::specs::Layout::word_of))]
pub(crate) fn claim_word(card: u32, counter: u16) -> usize
    ensures { result ≡ word_of card counter }
{
    let counter = counter as u64;
    let word = counter / WORD_CLAIMS % LINE_WORDS;
    (line(card, counter / LINE_CLAIMS) + word) as usize
}

/// The index of this card's top word, which holds its greatest recorded or kept ATC plus 1, or 0 if there is none.
#[tactic(auto, unfolding(crate::specs::Layout::top_word_of))]
pub(crate) fn top_word(card: u32) -> usize
    ensures { result ≡ top_word_of card }
{
    line(card, CLAIM_BLOCKS) as usize
}

/// The index of the first word of this card's line, in this block of its group.
fn line(card: u32, block: u64) -> u64
    requires { block ≤ CLAIM_BLOCKS }
    ensures { result ≡ line_of card block }
{
    let card = card as u64;
    GROUP_WORDS * (card / GROUP_CARDS) + BLOCK_WORDS * block + LINE_WORDS * (card % GROUP_CARDS)
}

/// The bit of the claim on this ATC, in its word.
pub(crate) fn claim_mask(counter: u16) -> u64
    ensures { result ≡ mask_of counter }
{
    1 << counter as u64 % WORD_CLAIMS
}

/// All bits of a word except that of the claim on this ATC.
pub(crate) fn other_claims(counter: u16) -> u64
    ensures { result ≡ others_of counter }
{
    !claim_mask(counter)
}

/// The ATC that a top word encodes.
pub(crate) fn told(top: u64) -> Option<u16>
    requires { top ≤ COUNTERS }
    ensures { result ≡ told_by top }
{
    if top == 0 {
        return None;
    }
    Some((top - 1) as u16)
}
