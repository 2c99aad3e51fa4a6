//! The host of one caller.
ghost use Rattle.std.specs.Prelude.{◌≡◌, ◌<◌, ◌≤◌, ◌%◌, ℕ, List, [], ◌∷◌, ◌++◌, length, map, reverse, vec_capacity, slice_get, Some, Ok, IfOk, IfErr, MatchResult, false};
ghost use Rattle.issuer_base.specs.CardNames.{CardName};
ghost use Rattle.issuer_setup.specs.CardList.{name_of, number_of};
ghost use Rattle.issuer_setup.specs.IssuerSetup.{shard_of};
ghost use Rattle.issuer_setup.specs.declared.card.CardInfo.{CardInfo};
ghost use Rattle.line_checks.specs.AtHand.{IsOrderAtHand, order_asked};
ghost use Rattle.line_checks.specs.LookedUp.{IsLookUp};
ghost use Rattle.line_checks.specs.Reading.{reading};
ghost use Rattle.shard_book.specs.Answering.{tells_change};
ghost use Rattle.shard_book.specs.Loading.{is_store_failure};
ghost use Rattle.shard_book.specs.Shards.{store_in};
ghost use Rattle.host_loading.specs.Books.{ShardBook};
ghost use Rattle.host_loading.specs.Hosts.{AreShards, Stand};
ghost use Rattle.host_loading.specs.Loading.{AreLoaded, AreOnlyRead, ComeBack};
ghost use Rattle.host_loading.specs.StoreRoom.{HaveRoom, StoresHaveRoom};
ghost use Rattle.one_caller.specs.Room.{AnswersWithin};
ghost use Rattle.one_caller.specs.Runs.{HoldJournals, Leaves};
ghost use Rattle.one_caller.specs.Turns.{Turn};
ghost use Rattle.card_history.specs.CardViews.{card_shown};

use card_history::CardView;
use host_loading::{HostBack, Lists, load_all, take_lists, take_stores};
use issuer_base::{Answer, MAX_CHIP_BYTES, Refusal, Store};
use issuer_setup::Issuer;
use journal_rec::VERSION_LINE;
use line_checks::{CheckedOrder, LookedUp, look_up};
use shard_book::{LoadFault, Shard};
use std::alloc::Global;

/// The host of one caller over stores: it answers line after line, and each record is durable before it is answered.
pub struct Solo<S: Store> {
    issuer: Issuer,

    /// The issuer's shards, in the order of their numbers.
    shards: Vec<Shard<S>>,

    /// Room for their stores.
    back: Vec<S>,

    /// A buffer for the data of a line.
    data: [u8; MAX_CHIP_BYTES],
    ghost are_shards: { AreShards issuer shards.items },
    ghost empty: { back.items ≡ [] },
    ghost room: { length shards.items ≤ vec_capacity back },
}

impl<S: Store> Solo<S> {
    /// Loads the shards of an issuer from their old stores and their stores, in order: continues the migration of
    /// each old store's records, replays the records of each store's whole lines, truncates a torn last line, and syncs
    /// the store. The old stores are only read. The first shard that can't be loaded stops it, and the stores are
    /// returned in order.
    ///
    /// If the host's own allocation fails, the error names shard 0. No other call allocates.
    pub fn load(
        alloc: Global,
        olds: &mut Vec<S>,
        stores: Vec<S>,
        issuer: Issuer,
    ) -> Result<Solo<S>, HostBack<S>>
        requires { (length olds.old.items ≡ issuer.shards) × (length stores.items ≡ issuer.shards) }
        ensures issuer { IfOk result (λ host. host.issuer ≡ issuer) }
        ensures loaded { IfOk result (λ host.
            AreLoaded issuer olds.old.items olds.new.items stores.items host.shards.items) }
        ensures olds { AreOnlyRead S.size S.bytes S.disk S.room olds.old.items olds.new.items }
        ensures stopped { IfErr result (λ back. ComeBack S.size S.bytes S.disk S.faults issuer
            olds.old.items olds.new.items stores.items back.shard back.fault back.stores.items) }

        // Stores with room for the migration don't fail, and the room for more remains once they are loaded.
        ensures room { MatchResult result
            (λ host. (spare : ℕ → ℕ) → StoresHaveRoom S.size S.room spare olds.old.items stores.items
            → HaveRoom spare host.shards.items)
            (λ back. StoresHaveRoom S.size S.room (λ _. 0) olds.old.items stores.items
            → is_store_failure back.fault ≡ false) }
    {
        let Ok(lists) = take_lists(alloc, stores.len()) else {
            return Err(HostBack {
                fault: LoadFault::NoMemory,
                shard: 0,
                stores,
            });
        };
        let mut issuer = issuer;
        keep_for_records(&mut issuer, olds.as_slice(), stores.as_slice());
        match load_all(alloc, &issuer, olds, stores, lists) {
            Ok(Lists { shards, back }) => Ok(Solo {
                issuer,
                shards,
                back,
                data: [0; MAX_CHIP_BYTES],
            }),
            Err(back) => Err(back),
        }
    }

    /// The answer to a line without its newline. A new record is durable before it is answered. A card's key for
    /// cryptograms is derived at the card's first request, and its key schedule is cached.
    pub fn authorise(&mut self, line: &[u8]) -> Answer
        ensures turn { (books : List ShardBook) → Stand self.old.issuer self.old.shards.items books
            → (after : List ShardBook) × Stand self.new.issuer self.new.shards.items after
            × Turn self.old.issuer books (reading self.old.issuer line.now) result after }

        // An answer that reports neither a new record nor that a store failed leaves all shards unchanged.
        ensures unchanged { tells_change result ≡ false → self.new.shards.items ≡ self.old.shards.items }

        // With room for what the line adds and more no store fails, and the room for the more remains.
        ensures room { AnswersWithin self.old.issuer (reading self.old.issuer line.now) result
            self.old.shards.items self.new.shards.items }

        // Whatever a crash since the start of the call may leave of a store is the text of its shard's history before
        // the call, possibly with a torn record after it. After a fault this very line's record may be in doubt, or what
        // was in doubt before.
        ensures leaves { Leaves self.old.issuer (reading self.old.issuer line.now) result
            self.old.shards.items self.new.shards.items }
        ensures issuer { self.new.issuer ≡ self.old.issuer }
    {
        let found = self.look_ahead(line);
        self.answer(&found)
    }

    /// What the look-up of a line without its newline gives, ahead of the line's turn. It reads no shard. A card's key
    /// for cryptograms is derived at the card's first request, and cached, whether the cryptogram is right or not.
    pub fn look_ahead(&mut self, line: &[u8]) -> Result<LookedUp, Refusal>
        ensures found { IsLookUp self.old.issuer line.now result }
        ensures same { (self.new.issuer ≡ self.old.issuer) × (self.new.shards.items ≡ self.old.shards.items) }
    {
        let found = look_up(&self.issuer, line, &mut self.data);
        if let Ok(LookedUp::Request(sought)) = &found {
            self.issuer.keep(sought.slot);
        }
        found
    }

    /// The answer to a line that was looked up, as [`Solo::authorise`] gives it in the line's turn.
    pub fn answer(&mut self, found: &Result<LookedUp, Refusal>) -> Answer
        requires { (line : List ℕ) × IsLookUp self.old.issuer line found.now }

        // The clauses of `authorise`, for each line of which this is the look-up.
        ensures turn { (line : List ℕ) → IsLookUp self.old.issuer line found.now
            → (books : List ShardBook) → Stand self.old.issuer self.old.shards.items books
            → (after : List ShardBook) × Stand self.new.issuer self.new.shards.items after
            × Turn self.old.issuer books (reading self.old.issuer line) result after }
        ensures unchanged { tells_change result ≡ false → self.new.shards.items ≡ self.old.shards.items }
        ensures room { (line : List ℕ) → IsLookUp self.old.issuer line found.now
            → AnswersWithin self.old.issuer (reading self.old.issuer line) result
            self.old.shards.items self.new.shards.items }
        ensures leaves { (line : List ℕ) → IsLookUp self.old.issuer line found.now
            → Leaves self.old.issuer (reading self.old.issuer line) result
            self.old.shards.items self.new.shards.items }
        ensures issuer { self.new.issuer ≡ self.old.issuer }
    {
        let sought = match found {
            Ok(LookedUp::Request(sought)) => sought,
            Ok(LookedUp::Order(found)) => return self.order(found),
            Err(refusal) => return Answer::Refused(*refusal),
        };
        let checked = sought.check(&self.issuer);
        let found = match &checked {
            Ok(found) => found,
            Err(refusal) => return Answer::Refused(*refusal),
        };
        let shard = self.home(found.card);
        self.shards[shard].answer(&self.issuer, found, true)
    }

    /// The issuer that was given to `load`.
    pub fn issuer(&self) -> &Issuer
        ensures { result.now ≡ self.now.issuer }
    {
        &self.issuer
    }

    /// What the host shows of the card with this number.
    pub fn show(&self, card: u32) -> CardView
        requires { card < length self.now.issuer.cards }
        ensures { (books : List ShardBook) (info : CardInfo) (book : ShardBook)
            → Stand self.now.issuer self.now.shards.items books
            → slice_get self.now.issuer.cards card ≡ Some info
            → slice_get books (shard_of self.now.issuer (name_of info)) ≡ Some book
            → result ≡ card_shown (name_of info) book.history }
    {
        let cards = self.issuer.cards();
        prove!(card < cards);
        self.shards[self.home(card)].row(card).view()
    }

    /// The stores, in the order of their shards' numbers. Each has the journal of its shard's book, also after a crash.
    pub fn close(self) -> Vec<S>
        ensures stores { result.items ≡ map store_in self.shards.items }
        ensures journals { (books : List ShardBook) → Stand self.issuer self.shards.items books
            → HoldJournals S.bytes S.disk self.issuer books result.items }
    {
        let Solo {
            issuer: _,
            shards,
            back,
            data: _,
        } = self;
        take_stores(shards, back)
    }

    /// The index of the shard of the card with this number.
    fn home(&self, card: u32) -> usize
        ensures number { result ≡ card % self.now.issuer.shards }
        ensures within { result < length self.now.shards.items }
        ensures shard { (name : CardName) → number_of name self.now.issuer.cards ≡ Some card
            → result ≡ shard_of self.now.issuer name }
    {
        usize::from(self.issuer.shard_of(card))
    }

    /// The answer to a checked order, in the shard of its card.
    fn order(&mut self, found: &CheckedOrder) -> Answer
        requires { IsOrderAtHand self.old.issuer found.now }
        ensures turn { (books : List ShardBook) → Stand self.old.issuer self.old.shards.items books
            → (after : List ShardBook) × Stand self.new.issuer self.new.shards.items after
            × Turn self.old.issuer books (Ok (order_asked found.now)) result after }
        ensures room { AnswersWithin self.old.issuer (Ok (order_asked found.now)) result
            self.old.shards.items self.new.shards.items }
        ensures leaves { Leaves self.old.issuer (Ok (order_asked found.now)) result
            self.old.shards.items self.new.shards.items }
        ensures unchanged { tells_change result ≡ false → self.new.shards.items ≡ self.old.shards.items }
        ensures issuer { self.new.issuer ≡ self.old.issuer }
    {
        let shard = self.home(found.card());
        self.shards[shard].order(&self.issuer, found)
    }
}

/// Caches the keys of all cards if any of these stores has a record, since its records are checked again.
fn keep_for_records<S: Store>(issuer: &mut Issuer, olds: &[S], stores: &[S])
    ensures { issuer.new ≡ issuer.old }
{
    if has_records(olds, 0) || has_records(stores, VERSION_LINE.len()) {
        issuer.keep_all();
    }
}

/// Whether any of these stores has more bytes than those before its records.
fn has_records<S: Store>(stores: &[S], before: usize) -> bool {
    stores.iter().any(|store| store.len() > before as u64)
}
