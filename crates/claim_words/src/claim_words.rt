//! The words that callers share, and the seats through which they claim.
ghost use Rattle.std.specs.Prelude.{◌≡◌, ℕ, ◌+◌, ◌*◌, ◌<◌, ◌≤◌, All, IfOk, length};
ghost use Rattle.claim_words.specs.ClaimViews.{times, claims_on, is_live, is_kept, is_any, HasOpen, IsNew};
ghost use Rattle.claim_words.specs.ClaimViews.{newcomer, after_claim, after_top, settled, parent_view, child_view};
ghost use Rattle.claim_words.specs.ClaimViews.{joined};
ghost use Rattle.claim_words.specs.Layout.{words_for};
ghost use Rattle.shared_seats.specs.SeatNames.{first_names, IsWhole};

use crate::atc_claimed_once::{ClaimRule, Claims, Marks, Opening, Parts, Releases, Tops};
use crate::layout::{COUNTERS, claim_mask, claim_word, other_claims, told, top_word};
use crate::opening::opening_words;
use crate::view::{ClaimView, Standing};
use atomic_table::{Seat, Table};
use issuer_base::{MAX_CARDS, NoMemory};
use std::alloc::Global;
use std::snapshot::Snapshot;

/// The outcome of a claim.
#[derive(Clone, Copy, PartialEq, Eq, Debug)]
pub enum Claim {
    /// The claim was free, and is now the seat's.
    Won,

    /// The ATC is recorded, or another claim on it is open or kept.
    Lost,
}

/// The claims on all ATCs of some cards, shared by callers.
pub struct ClaimWords {
    table: Table<(), ClaimView, Opening, ClaimRule, Global>,
    ghost some_card: { 0 < table.shared.key.cards },
    ghost sized: { table.shared.table_id.words ≡ words_for table.shared.key.cards },
    ghost first_sized: { length table.shared.key.words.value.items ≡ words_for table.shared.key.cards },
    ghost slotless: { table.shared.table_id.slots ≡ 0 },
}

/// One caller's handle for claims, and what it knows. It has no bytes, and ends by `join` or `close`.
pub struct ClaimSeat {
    seat: Seat<(), ClaimView>,
    ghost slotless: { length seat.me.1 ≡ 0 },
    ghost named: { 0 < length seat.me.0.names },
}

impl ClaimWords {
    ghost use Rattle.claim_words.specs.Seats.{cards_of, recorded_in, view_of, IsOf, IsTopFor};

    /// The claims on the ATCs of `cards` cards, of which these cards and ATCs are recorded. `NoMemory` is
    /// returned only if an allocation fails. It allocates 528,384 bytes for each begun group of 64 cards, 8,256 a card,
    /// and as much again until it returns.
    pub fn load(
        alloc: Global,
        cards: u32,
        recorded: &[(u32, u16)],
    ) -> Result<(ClaimWords, ClaimSeat), NoMemory>
        requires cards { (0 < cards) × (cards ≤ MAX_CARDS) }
        requires known { All (λ pair. pair.0 < cards) recorded.now }

        // No pair occurs twice.
        requires once { (card counter : ℕ) → times card counter recorded.now ≤ 1 }
        ensures cards { IfOk result (λ made. cards_of made.0 ≡ cards) }
        ensures recorded { IfOk result (λ made. (card counter : ℕ) → counter < COUNTERS
            → recorded_in made.0 card counter ≡ times card counter recorded.now) }
        ensures seat { IfOk result (λ made. IsOf made.1 made.0 × (view_of made.1 ≡ newcomer first_names)) }
    {
        let words = opening_words(alloc, cards, recorded)?;
        let opening = Opening {
            cards,
            words: Snapshot::of(&words),
        };
        let (table, seat) = Table::of_words(alloc, words.as_slice(), &opening)?;
        Ok((ClaimWords { table }, ClaimSeat { seat }))
    }

    /// Claims an ATC of a card, in one atomic step: `Won` exactly if that step found the claim's bit clear.
    pub fn claim(&self, seat: &mut ClaimSeat, card: u32, counter: u16) -> Claim
        requires seat { IsOf seat.old self.now }
        requires card { card < cards_of self.now }
        ensures seat { IsOf seat.new self.now }
        ensures view { view_of seat.new ≡ after_claim result card counter (view_of seat.old) }

        ensures won { result ≡ Claim.Won → IsNew card counter (view_of seat.old) }
    {
        let mask = claim_mask(counter);
        let word = claim_word(card, counter);
        let found = self
            .table
            .shared
            .fetch_or::<Claims>(&mut seat.seat, word, mask);
        if found & mask == 0 {
            Claim::Won
        } else {
            Claim::Lost
        }
    }

    /// Releases an open claim of the seat, in one atomic step.
    pub fn release(&self, seat: &mut ClaimSeat, card: u32, counter: u16)
        requires seat { IsOf seat.old self.now }
        requires card { card < cards_of self.now }
        requires held { HasOpen card counter (view_of seat.old) }
        ensures seat { IsOf seat.new self.now }
        ensures view { view_of seat.new ≡ settled Standing.GivenBack card counter (view_of seat.old) }
    {
        let word = claim_word(card, counter);
        self.table
            .shared
            .fetch_and::<Releases>(&mut seat.seat, word, other_claims(counter));
    }

    /// Marks an open claim of the seat as kept, since its ATC is recorded, and raises the card's top, in one atomic
    /// step.
    pub fn mark_kept(&self, seat: &mut ClaimSeat, card: u32, counter: u16)
        requires seat { IsOf seat.old self.now }
        requires card { card < cards_of self.now }
        requires held { HasOpen card counter (view_of seat.old) }
        ensures seat { IsOf seat.new self.now }
        ensures view { view_of seat.new ≡ settled Standing.Kept card counter (view_of seat.old) }
    {
        self.table
            .shared
            .fetch_max::<Marks>(&mut seat.seat, top_word(card), counter as u64 + 1);
    }

    /// The greatest recorded or kept ATC of a card, by one load of its top word.
    pub fn top(&self, seat: &mut ClaimSeat, card: u32) -> Option<u16>
        requires seat { IsOf seat.old self.now }
        requires card { card < cards_of self.now }
        ensures seat { IsOf seat.new self.now }
        ensures view { view_of seat.new ≡ after_top card result (view_of seat.old) }
        ensures top { IsTopFor (view_of seat.old) card result }
    {
        let found = self
            .table
            .shared
            .load::<Tops>(&mut seat.seat, top_word(card));
        told(found)
    }

    /// Splits off a second seat, which has no claims and has learnt nothing.
    pub fn split(&self, seat: &mut ClaimSeat) -> ClaimSeat
        requires { IsOf seat.old self.now }
        ensures seat { IsOf seat.new self.now × (view_of seat.new ≡ parent_view (view_of seat.old)) }
        ensures new { IsOf result self.now × (view_of result ≡ child_view (view_of seat.old)) }
    {
        ClaimSeat {
            seat: self.table.shared.split_seat::<Parts>(&mut seat.seat),
        }
    }

    /// Merges `other` into `seat`, which then has the claims of both and what both have learnt.
    pub fn join(&self, seat: &mut ClaimSeat, other: ClaimSeat)
        requires { IsOf seat.old self.now × IsOf other self.now }
        ensures { IsOf seat.new self.now × (view_of seat.new ≡ joined (view_of seat.old) (view_of other)) }
    {
        let ClaimSeat { seat: other } = other;
        self.table.shared.join_seat::<Parts>(&mut seat.seat, other);
    }

    /// Closes the table of claims, with a seat into which all others were joined.
    pub fn close(self, seat: ClaimSeat)
        requires seat { IsOf seat self }
        requires whole { IsWhole (view_of seat).names }

        // Each pair that was lost is recorded, or among the claims.
        ensures found { (card counter : ℕ) → 0 < times card counter (view_of seat).found
            → 0 < recorded_in self card counter + claims_on is_any card counter (view_of seat).claims }

        // Each pair read from a top word is recorded, or among the kept claims.
        ensures tops { (card counter : ℕ) → 0 < times card counter (view_of seat).tops
            → 0 < recorded_in self card counter + claims_on is_kept card counter (view_of seat).claims }

        // Each ATC of a card occurs at most once: as recorded, or as a claim that isn't given back.
        ensures once { (card counter : ℕ) → counter < COUNTERS
            → recorded_in self card counter + claims_on is_live card counter (view_of seat).claims ≤ 1 }
    {
        let ClaimSeat { seat } = seat;
        let ClaimWords { table } = self;
        table.close_with(seat).free();
    }
}
