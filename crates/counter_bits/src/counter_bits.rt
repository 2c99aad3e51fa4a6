//! A set of ATCs for each of so many cards.
ghost use Rattle.std.specs.Prelude.{◌≡◌, ℕ, Bool, true, false, ◌+◌, ◌-◌, ◌*◌, ◌/◌, ◌<◌, ◌≤◌, ◌^◌, ◌==◌, ◌&&◌, ◌||◌, ◌++◌, length, replicate, take, slice_index, vec_capacity, IfOk};
ghost use Rattle.counter_bits.specs.CounterSets.{has, times, one_if, word_of};

use issuer_base::NoMemory;
use std::alloc::Global;
use std::marker::Model;

/// How many ATCs a card has: 0 to 65,535.
pub const COUNTERS: u32 = 65_536;

/// How many ATCs a word has, one bit each.
pub(crate) const WORD_COUNTERS: usize = 64;

/// How many words the set of a card has: 8,192 bytes.
pub(crate) const CARD_WORDS: usize = 1_024;

/// A set of ATCs for each of so many cards, as a bitmap in memory of fixed size.
///
/// The words of all cards for ATCs 0 to 63 come first, then those for the next 64, and so on. A word is opened once an
/// ATC is added in it or after it; those that aren't open yet are 0. So cards with low ATCs use little of the memory.
///
/// A contract sees how many sets there are, and which ATCs each has.
#[derive(Drop)]
pub struct CounterBits {
    cards: u32,
    opened: Vec<u64>,
}

impl Model for CounterBits {
    ghost use Rattle.std.specs.Prelude.{◌*◌, ◌^◌, ◌<◌, ◌≤◌, length, vec_capacity};
    ghost use Rattle.counter_bits.specs.declared.counter_bits.TheConstants.{CARD_WORDS};
    ghost use Rattle.counter_bits.specs.CounterSets.{CounterSets};

    ghost Value = { CounterSets };

    ghost view = { λ bits. record { cards = bits.cards; words = bits.opened.items } };

    ghost invariant = { λ bits. (CARD_WORDS * bits.cards ≤ vec_capacity bits.opened) × (bits.cards < 2 ^ 32) };
}

impl CounterBits {
    /// An empty set for each of so many cards. No other call allocates for the sets.
    pub fn new(alloc: Global, cards: u32) -> Result<CounterBits, NoMemory>
        ensures cards { IfOk result (λ bits. bits.cards ≡ cards) }
        ensures empty { IfOk result (λ bits. (index counter : ℕ) → has bits index counter ≡ false) }
    {
        let opened = Vec::with_capacity(alloc, CARD_WORDS * cards as usize)?;
        Ok(CounterBits { cards, opened })
    }

    /// How many cards there is a set for.
    pub fn cards(&self) -> u32
        ensures { result ≡ self.now.cards }
    {
        self.cards
    }

    /// Adds an ATC to the set of this card.
    pub fn add(&mut self, index: usize, counter: u16)
        requires { index < self.old.cards }
        ensures added { (other_index other : ℕ)
            → has self.new other_index other ≡ (has self.old other_index other
            || (other_index == index && other == counter)) }
        ensures cards { self.new.cards ≡ self.old.cards }
    {
        let word = word_of(self.cards, index, counter);
        open_to(&mut self.opened, word);
        self.opened[word] |= 1 << (counter as u32 % 64);
    }

    /// Whether the set of this card has the ATC.
    pub fn has(&self, index: usize, counter: u16) -> bool
        requires { index < self.now.cards }
        ensures { result ≡ has self.now index counter }
    {
        let word = word_at(self.opened.as_slice(), word_of(self.cards, index, counter));
        (word >> (counter as u32 % 64)) & 1 == 1
    }

    /// Appends to the list each ATC of this card's set once, paired with this number. If memory runs out, some of them
    /// may have been appended.
    pub fn list_into(
        &self,
        index: usize,
        number: u32,
        list: &mut Vec<(u32, u16)>,
    ) -> Result<(), NoMemory>
        requires { index < self.now.cards }
        ensures kept { (length list.old.items ≤ length list.new.items)
            × (take (length list.old.items) list.new.items ≡ list.old.items) }
        ensures listed { IfOk result (λ _. (other counter : ℕ)
            → times other counter list.new.items ≡ times other counter list.old.items
            + one_if (number == other && has self.now index counter)) }
    {
        for block in 0..CARD_WORDS {
            self.list_word(index, block, number, list)?;
        }
        Ok(())
    }

    /// Appends the ATCs of this word of the card's set. An empty word is skipped.
    fn list_word(
        &self,
        index: usize,
        block: usize,
        number: u32,
        list: &mut Vec<(u32, u16)>,
    ) -> Result<(), NoMemory>
        requires card { index < self.now.cards }
        requires word { block < CARD_WORDS }
        ensures kept { (length list.old.items ≤ length list.new.items)
            × (take (length list.old.items) list.new.items ≡ list.old.items) }
        ensures listed { IfOk result (λ _. (other counter : ℕ) → times other counter list.new.items
            ≡ times other counter list.old.items
            + one_if (number == other && (block == counter / WORD_COUNTERS && has self.now index counter))) }
    {
        if self.is_empty(index, block) {
            return Ok(());
        }
        let first = block * WORD_COUNTERS;
        for counter in first..first + WORD_COUNTERS {
            self.list_one(index, counter as u16, number, list)?;
        }
        Ok(())
    }

    /// Whether this word of the card's set has no ATC.
    fn is_empty(&self, index: usize, block: usize) -> bool
        requires card { index < self.now.cards }
        requires word { block < CARD_WORDS }
        ensures { result ≡ true → (counter : ℕ) → counter / WORD_COUNTERS ≡ block → has self.now index counter ≡ false }
    {
        word_at(self.opened.as_slice(), block * self.cards as usize + index) == 0
    }

    /// Appends this ATC if the card's set has it.
    fn list_one(
        &self,
        index: usize,
        counter: u16,
        number: u32,
        list: &mut Vec<(u32, u16)>,
    ) -> Result<(), NoMemory>
        requires { index < self.now.cards }
        ensures kept { (length list.old.items ≤ length list.new.items)
            × (take (length list.old.items) list.new.items ≡ list.old.items) }
        ensures listed { IfOk result (λ _. (other other_counter : ℕ) → times other other_counter list.new.items
            ≡ times other other_counter list.old.items
            + one_if (number == other && (counter == other_counter && has self.now index other_counter))) }
    {
        if self.has(index, counter) {
            list.push((number, counter))?;
        }
        Ok(())
    }
}

/// The index of the word with the bit of this ATC of this card, of so many cards.
fn word_of(cards: u32, index: usize, counter: u16) -> usize
    requires { index < cards }
    ensures place { result ≡ word_of cards index counter }
    ensures within { result < CARD_WORDS * cards }
{
    (counter as usize >> 6) * cards as usize + index
}

/// The word at an index, which is 0 if it isn't open.
fn word_at(opened: &[u64], word: usize) -> u64
    ensures { result ≡ slice_index opened.now word }
{
    if word < opened.len() { opened[word] } else { 0 }
}

/// Opens the words up to this one, which are 0.
fn open_to(opened: &mut Vec<u64>, word: usize)
    requires { word < vec_capacity opened.old }
    ensures grown { opened.new.items ≡ opened.old.items ++ replicate (word + 1 - length opened.old.items) 0 }
    ensures room { vec_capacity opened.new ≡ vec_capacity opened.old }
{
    if word < opened.len() {
        return;
    }
    for _ in opened.len()..word + 1 {
        opened.push_reserved(0);
    }
}
