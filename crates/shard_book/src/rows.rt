//! The rows of a shard's cards.
ghost use Rattle.std.specs.Prelude.{◌≡◌, ◌↔◌, ℕ, take, ◌+◌, ◌*◌, ◌/◌, ◌%◌, ◌<◌, ◌≤◌, ◌^◌, List, [], length, slice_get, Some, IfOk, IsTrue};
ghost use Rattle.counter_bits.specs.CounterSets.{has, times, one_if};
ghost use Rattle.issuer_base.specs.declared.entry.Entry.{Entry};
ghost use Rattle.issuer_base.specs.ScriptCommand.{is_command};
ghost use Rattle.issuer_setup.specs.IssuerSetup.{Setup};
ghost use Rattle.row_core.specs.Replying.{reply_to};
ghost use Rattle.line_checks.specs.AtHand.{IsRequestAtHand};
ghost use Rattle.shard_book.specs.ShardRows.{AreRowsOf, AreSame, IsHome, AreEmpty, Covers, Lists, RowsStandFor};
ghost use Rattle.shard_book.specs.Steps.{IsKnownFor, IsLaunchAt, Applies, Queues, TakesCommand, SetsStatus};

use counter_bits::CounterBits;
use issuer_base::{Command, MAX_CARDS, MAX_STATUS, NoMemory, Reply, Request};
use issuer_setup::Issuer;
use line_checks::CheckedRequest;
use row_core::{Known, Launch, Row};
use std::alloc::Global;
use std::marker::Model;

/// The rows of the cards of one shard of an issuer.
///
/// A contract sees the number of the shard, how many shards and cards the issuer has, the rows, and the recorded ATCs.
#[derive(Drop)]
pub(crate) struct Rows {
    shard: u8,
    shards: u8,
    cards: u32,

    /// A row for each card of the shard, in the order of their numbers.
    rows: Vec<Row>,

    /// The recorded ATCs of each of these cards.
    bits: CounterBits,
}

impl Model for Rows {
    ghost use Rattle.shard_book.specs.ShardRows.{ShardRows, Covers};

    ghost Value = { ShardRows };

    ghost view = { λ r.
        record { shard = r.shard; shards = r.shards; cards = r.cards; rows = r.rows.items; bits = r.bits } };

    ghost invariant = { λ r. Covers
        (record { shard = r.shard; shards = r.shards; cards = r.cards; rows = r.rows.items; bits = r.bits }) };
}

impl Rows {
    /// The rows of a shard without records. No other call allocates.
    pub(crate) fn new(alloc: Global, issuer: &Issuer, shard: u8) -> Result<Rows, NoMemory>
        requires { shard < issuer.now.shards }
        ensures rows { IfOk result (AreRowsOf issuer.now) }
        ensures shard { IfOk result (λ rows. rows.shard ≡ shard) }
        ensures empty { IfOk result (λ rows. RowsStandFor issuer.now rows []) }
    {
        let shards = issuer.shards();
        let cards = issuer.cards();
        let rows = empty_rows(alloc, issuer, shard)?;
        let bits = CounterBits::new(alloc, home_cards(cards, shards, shard))?;
        Ok(Rows {
            shard,
            shards,
            cards,
            rows,
            bits,
        })
    }

    /// The number of the shard.
    pub(crate) fn shard(&self) -> u8
        ensures { result ≡ self.now.shard }
    {
        self.shard
    }

    /// The row of a card of this shard.
    pub(crate) fn row(&self, card: u32) -> &Row
        requires { IsHome self.now card }
        ensures { slice_get self.now.rows (card / self.now.shards) ≡ Some result.now }
    {
        &self.rows[index_of(card, self.shards)]
    }

    /// What is known of a request of a card of this shard whose ATC is used or below the window, or `None`.
    #[inline(always)]
    pub(crate) fn known(&self, found: &CheckedRequest) -> Option<Known<'_>>
        requires { IsHome self.now found.now.card }
        ensures { (issuer : Setup) → IsRequestAtHand issuer found.now → IsKnownFor issuer self.now found.now result }
    {
        self.row(found.card).known(&found.request)
    }

    /// Decides a request of a card of this shard whose ATC is in the window and unused: makes of a reply without bytes
    /// the one that the issuer decides. Returns the launch of its batch.
    #[inline(always)]
    pub(crate) fn decide(
        &self,
        issuer: &Issuer,
        found: &CheckedRequest,
        reply: &mut Reply,
    ) -> Option<Launch>
        requires home { IsHome self.now found.now.card }
        requires at_hand { IsRequestAtHand issuer.now found.now }
        requires empty { reply.old.bytes.items ≡ [] }
        ensures reply { (history : List Entry) → RowsStandFor issuer.now self.now history
            → reply.new ≡ reply_to issuer.now history found.now.request }
        ensures some { 1 ≤ length reply.new.bytes.items }
        ensures launch { IsLaunchAt self.now found.now result }
    {
        self.row(found.card).decide(
            &found.session,
            &found.keys,
            issuer.table(),
            &found.request,
            reply,
        )
    }

    /// Adds the record of the decision of this request to the row of its card, and its ATC to the card's recorded ones.
    /// The rows are unchanged since it was decided.
    pub(crate) fn apply(
        &mut self,
        found: &CheckedRequest,
        reply: &Reply,
        launch: Option<Launch>,
        place: u64,
    )
        requires home { IsHome self.old found.now.card }
        requires launch { IsLaunchAt self.old found.now launch }
        ensures applied { Applies self.old found.now (record
            { request = found.now.request; reply = reply.now; place = place }) self.new }
        ensures same { AreSame self.old self.new }
    {
        let index = index_of(found.card, self.shards);
        self.bits.add(index, found.request.parts().atc);
        self.rows[index].apply(&found.request, reply, launch, place);
    }

    /// Whether the queue of this card accepts one more command.
    pub(crate) fn takes_command(&self, card: u32) -> bool
        requires { IsHome self.now card }
        ensures { TakesCommand self.now card result }
    {
        self.row(card).queue().takes_one_more()
    }

    /// Queues a command for this card, whose queue accepts one more.
    pub(crate) fn push(&mut self, card: u32, command: Command)
        requires home { IsHome self.old card }
        requires form { IsTrue (is_command command) }
        ensures queued { Queues self.old card command self.new }
        ensures same { AreSame self.old self.new }
    {
        let _ = self.rows[index_of(card, self.shards)].push(command);
    }

    /// Gives this card a status.
    pub(crate) fn set_status(&mut self, card: u32, status: u8)
        requires home { IsHome self.old card }
        requires within { status ≤ MAX_STATUS }
        ensures set { SetsStatus self.old card status self.new }
        ensures same { AreSame self.old self.new }
    {
        self.rows[index_of(card, self.shards)].set_status(status);
    }

    /// Appends each recorded ATC of each card of the shard once, with the card's number. If memory runs out, some of
    /// them may have been appended.
    pub(crate) fn list_recorded(&self, list: &mut Vec<(u32, u16)>) -> Result<(), NoMemory>
        ensures kept { (length list.old.items ≤ length list.new.items)
            × (take (length list.old.items) list.new.items ≡ list.old.items) }
        ensures covers { Covers self.now }
        ensures listed { IfOk result (λ _. Lists self.now list.old.items list.new.items) }
    {
        for index in 0..self.bits.cards() {
            let card = number_at(index, self.shards, self.shard);
            self.bits.list_into(index as usize, card, list)?;
        }
        Ok(())
    }
}

/// The index of a card's row among those of its shard.
fn index_of(card: u32, shards: u8) -> usize
    requires { 0 < shards }
    ensures { result ≡ card / shards }
{
    (card / u32::from(shards)) as usize
}

/// The number of the card whose row has this index.
fn number_at(index: u32, shards: u8, shard: u8) -> u32
    requires { shard + index * shards < 2 ^ 32 }
    ensures { result ≡ shard + index * shards }
{
    u32::from(shard) + index * u32::from(shards)
}

/// How many of an issuer's cards are those of a shard.
fn home_cards(cards: u32, shards: u8, shard: u8) -> u32
    requires inside { shard < shards }
    requires few { cards ≤ MAX_CARDS }
    ensures { (number : ℕ) → number % shards ≡ shard → ((number < cards) ↔ (number / shards < result)) }
{
    (cards + u32::from(shards) - 1 - u32::from(shard)) / u32::from(shards)
}

/// A row without records for each card of a shard.
fn empty_rows(alloc: Global, issuer: &Issuer, shard: u8) -> Result<Vec<Row>, NoMemory>
    requires { shard < issuer.now.shards }
    ensures { IfOk result (λ rows. AreEmpty issuer.now shard rows.items) }
{
    let mut rows = Vec::new(alloc);
    let mut card = u32::from(shard);
    while card < issuer.cards() {
        rows.push(Row::new(alloc, issuer.info(card).method)?)?;
        card += u32::from(issuer.shards());
    }
    Ok(rows)
}
