//! The parts of a world, and the effect of each event on them.
ghost use Rattle.std.specs.Prelude.{◌≡◌, ◌<◌, ◌≤◌, ◌%◌, ℕ, length, slice_get, Some, Ok, IsTrue, ◌↔◌, MatchOption, OnOk, OnErr, IfOk, IfSome, true, replicate};
ghost use Rattle.issuer_base.specs.declared.request.Request.{Request};
ghost use Rattle.issuer_base.specs.declared.answer.Reply.{Reply};
ghost use Rattle.card_history.specs.declared.decision.Asked.TheVariants.{Decide};
ghost use Rattle.chip_request.specs.Reading.{request_of};
ghost use Rattle.line_checks.specs.Reading.{checked};
ghost use Rattle.card_history.specs.Scripts.{waiting, scripts_of};
ghost use Rattle.script_queue.specs.CommandQueue.{TakesOneMore};
ghost use Rattle.issuer_setup.specs.declared.card.CardInfo.{CardInfo};
ghost use Rattle.issuer_setup.specs.CardList.{AreCards, name_of};
ghost use Rattle.issuer_setup.specs.KeyList.{has_suite};
ghost use Rattle.world_net.specs.Allowed.{CanTap, CanClaim, CanRelease, CanWrite, CanSend, CanQueue, CanSet, IsFree};
ghost use Rattle.world_net.specs.WorldState.{record_in, shard_at, home_of, history_at, history_for, claim_of, with_record, no_shard};
ghost use Rattle.std.specs.Option.{option_map};
ghost use Rattle.card_history.specs.LegalRecords.{IsLegalDecision};
ghost use Rattle.card_history.specs.Turns.{IsUnused, decided_for};
ghost use Rattle.issuer_base.specs.declared.entry.Entry.{Entry};
ghost use Rattle.shard_book.specs.Grounds.{grounds_of};
ghost use Rattle.world_net.specs.WorldSteps.{Taps, Claims, Releases, Writes, Sends, Authenticates, Runs, Queues, Sets};
ghost use Rattle.world_net.specs.WorldSteps.{first_doubtful, settled_at, restarted};
ghost use Rattle.issuer_base.specs.ChipData.{is_bcd};
ghost use Rattle.world_net.specs.Allowed.{IsAllowed};
ghost use Rattle.world_net.specs.WorldSteps.{IsStep};
ghost use Rattle.world_net.specs.NewWorld.{AreFirst};
ghost use Rattle.world_model.specs.OpeningWorld.{HasFirstKeys, AreEmpty};
ghost use Rattle.world_net.specs.WorldRuns.{IsIssuer, IsNewWorld, IsCardUnder};
ghost use Rattle.world_model.specs.Stepping.{world_of, Stands, IsReached, IsHeld, IsTaken, own_decision, WritesOwn, IsOwn, IfDone};

use crate::claims::{claim_of, end_claim, is_unclaimed, is_unrecorded};
use crate::shard::ShardRecords;
use card_model::{Card, Terminal};
use chip_request::read_request;
use issuer_base::{
    Command, Entry, MAX_CHIP_BYTES, MAX_STATUS, NoMemory, Request, Suite, are_decimal,
};
use issuer_setup::{CardInfo, Issuer};
use key_derive::{KeySet, card_keys};
use line_checks::{CheckedRequest, check_request};
use row_core::{Outcome, Row};
use std::alloc::Global;
use world_net::{Event, Exchange, MadeRequest, OpenClaim};

/// The parts of a world, and a row for each card, which stands for the history of the card's shard.
#[derive(Drop)]
pub(crate) struct Net {
    pub(crate) issuer: Issuer,
    pub(crate) cards: Vec<Card>,
    pub(crate) rows: Vec<Row>,
    pub(crate) made: Vec<MadeRequest>,
    pub(crate) shards: Vec<ShardRecords>,
    pub(crate) claims: Vec<OpenClaim>,
    pub(crate) sent: Vec<Exchange>,
}

impl Net {
    /// The parts of a world before any event, whose cards are of this suite.
    pub(crate) fn new(alloc: Global, issuer: Issuer, suite: Suite) -> Result<Net, NoMemory>
        requires { HasFirstKeys issuer suite }
        ensures held { IfOk result IsHeld }
        ensures new { IfOk result (λ net. IsNewWorld issuer (world_of net)) }
        ensures first { IfOk result (λ net. AreFirst issuer suite (world_of net).cards) }
    {
        let cards = new_cards(alloc, &issuer, suite)?;
        let rows = empty_rows(alloc, &issuer)?;
        let shards = no_shards(alloc, issuer.shards())?;
        Ok(Net {
            issuer,
            cards,
            rows,
            made: Vec::new(alloc),
            shards,
            claims: Vec::new(alloc),
            sent: Vec::new(alloc),
        })
    }

    /// Performs the event if it is allowed. If it isn't, or if memory runs out, nothing changes.
    pub(crate) fn step(&mut self, event: &Event) -> Result<bool, NoMemory>
        requires issuer { IsIssuer self.old.issuer }
        requires reached { IsReached (world_of self.old) }
        requires shards { length self.old.shards.items ≡ self.old.issuer.shards }
        requires rows { Stands self.old }
        ensures taken { IsTaken (IsAllowed (world_of self.old) event.now)
            (IsStep (world_of self.old) event.now (world_of self.new))
            (world_of self.old) (world_of self.new) result }
        ensures own { IfDone (IsOwn (world_of self.old) event.now (world_of self.new)) result }
        ensures rows { Stands self.new }
    {
        match event {
            Event::Tap { card, terminal } => self.tap(*card, terminal),
            Event::Claim { caller, bytes } => self.claim(*caller, bytes.as_slice()),
            Event::Release { caller } => self.release(*caller),
            Event::Write { caller, stored } => self.write(*caller, *stored),
            Event::Send { shard, place } => self.send(*shard, *place),
            Event::Authenticate { card, value91, arc } => {
                self.authenticate(*card, value91.as_slice(), *arc)
            }
            Event::Run { card, bytes } => self.run(*card, bytes.as_slice()),
            Event::Queue { card, command } => self.queue(*card, command),
            Event::Status { card, status } => self.set_status(*card, *status),
            Event::Restart { kept } => self.restart(*kept),
        }
    }

    /// Taps the card with this number.
    pub(crate) fn tap(&mut self, number: u32, terminal: &Terminal) -> Result<bool, NoMemory>
        ensures taken { IsTaken (CanTap (world_of self.old) number terminal.now)
            (Taps (world_of self.old) number terminal.now (world_of self.new))
            (world_of self.old) (world_of self.new) result }
        ensures rows { Stands self.old → Stands self.new }
    {
        self.made.reserve(1)?;
        let place = number as usize;
        if place >= self.cards.len() {
            return Ok(false);
        }
        if !are_decimal(&terminal.amount) {
            return Ok(false);
        }
        let Some(request) = self.cards[place].tap(terminal) else {
            return Ok(false);
        };
        self.made.push_reserved(MadeRequest {
            card: number,
            request,
        });
        Ok(true)
    }

    /// Claims the counter of the request in these bytes.
    pub(crate) fn claim(&mut self, caller: u8, bytes: &[u8]) -> Result<bool, NoMemory>
        requires issuer { IsIssuer self.old.issuer }
        requires short { length bytes.now ≤ MAX_CHIP_BYTES }
        requires shards { length self.old.shards.items ≡ self.old.issuer.shards }
        ensures taken { IsTaken (CanClaim (world_of self.old) caller bytes.now)
            (Claims (world_of self.old) caller bytes.now (world_of self.new))
            (world_of self.old) (world_of self.new) result }
        ensures rows { Stands self.old → Stands self.new }
    {
        if claim_of(self.claims.as_slice(), caller).is_some() {
            return Ok(false);
        }
        let Some(request) = self.read(bytes) else {
            return Ok(false);
        };
        if !self.is_free(&request) {
            return Ok(false);
        }
        self.claims.push(OpenClaim { caller, request })?;
        Ok(true)
    }

    /// Releases a claim.
    pub(crate) fn release(&mut self, caller: u8) -> Result<bool, NoMemory>
        ensures taken { IsTaken (CanRelease (world_of self.old) caller)
            (Releases (world_of self.old) caller (world_of self.new))
            (world_of self.old) (world_of self.new) result }
        ensures rows { Stands self.old → Stands self.new }
    {
        if claim_of(self.claims.as_slice(), caller).is_none() {
            return Ok(false);
        }
        end_claim(&mut self.claims, caller);
        Ok(true)
    }

    /// Sends the reply of a decided record.
    pub(crate) fn send(&mut self, shard: u8, place: u64) -> Result<bool, NoMemory>
        ensures taken { IsTaken (CanSend (world_of self.old) shard place)
            (Sends (world_of self.old) shard place (world_of self.new))
            (world_of self.old) (world_of self.new) result }
        ensures rows { Stands self.old → Stands self.new }
    {
        let Some(exchange) = self.decision_at(shard, place) else {
            return Ok(false);
        };
        self.sent.push(exchange)?;
        Ok(true)
    }

    /// Passes a value of tag 91 and a response code to the card with this number.
    pub(crate) fn authenticate(
        &mut self,
        number: u32,
        value91: &[u8],
        arc: [u8; 2],
    ) -> Result<bool, NoMemory>
        ensures taken { IsTaken (number < length (world_of self.old).cards)
            (Authenticates (world_of self.old) number value91.now arc (world_of self.new))
            (world_of self.old) (world_of self.new) result }
        ensures rows { Stands self.old → Stands self.new }
    {
        let place = number as usize;
        if place >= self.cards.len() {
            return Ok(false);
        }
        self.cards[place].authenticate(value91, arc);
        Ok(true)
    }

    /// Passes a script command to the card with this number.
    pub(crate) fn run(&mut self, number: u32, bytes: &[u8]) -> Result<bool, NoMemory>
        ensures taken { IsTaken (number < length (world_of self.old).cards)
            (Runs (world_of self.old) number bytes.now (world_of self.new))
            (world_of self.old) (world_of self.new) result }
        ensures rows { Stands self.old → Stands self.new }
    {
        let place = number as usize;
        if place >= self.cards.len() {
            return Ok(false);
        }
        self.cards[place].run(bytes)?;
        Ok(true)
    }

    /// Queues a command for the card with this number.
    pub(crate) fn queue(&mut self, number: u32, command: &Command) -> Result<bool, NoMemory>
        requires shards { length self.old.shards.items ≡ self.old.issuer.shards }
        requires rows { Stands self.old }
        ensures taken { IsTaken (CanQueue (world_of self.old) number command.now)
            (Queues (world_of self.old) number command.now (world_of self.new))
            (world_of self.old) (world_of self.new) result }
        ensures rows { Stands self.new }
    {
        if number >= self.issuer.cards() || !command.is_sendable() {
            return Ok(false);
        }
        if !self.takes_command(number) {
            return Ok(false);
        }
        let info = self.issuer.info(number);
        let home = usize::from(self.issuer.shard_of(number));
        self.shards[home].add(Entry::Queued {
            pan: info.pan,
            psn: info.psn,
            command: command.copy(),
        })?;
        let _ = self.rows[number as usize].push(command.copy());
        Ok(true)
    }

    /// Sets the status of the card with this number.
    pub(crate) fn set_status(&mut self, number: u32, status: u8) -> Result<bool, NoMemory>
        requires shards { length self.old.shards.items ≡ self.old.issuer.shards }
        requires rows { Stands self.old }
        ensures taken { IsTaken (CanSet (world_of self.old) number status)
            (Sets (world_of self.old) number status (world_of self.new))
            (world_of self.old) (world_of self.new) result }
        ensures rows { Stands self.new }
    {
        if number >= self.issuer.cards() || status > MAX_STATUS {
            return Ok(false);
        }
        let info = self.issuer.info(number);
        let home = usize::from(self.issuer.shard_of(number));
        self.shards[home].add(Entry::Status {
            pan: info.pan,
            psn: info.psn,
            status,
        })?;
        self.rows[number as usize].set_status(status);
        Ok(true)
    }

    /// Writes the decision of the request that this caller claimed.
    pub(crate) fn write(&mut self, caller: u8, stored: bool) -> Result<bool, NoMemory>
        requires reached { IsReached (world_of self.old) }
        requires shards { length self.old.shards.items ≡ self.old.issuer.shards }
        requires rows { Stands self.old }
        ensures taken { IsTaken (CanWrite (world_of self.old) caller)
            (Writes (world_of self.old) caller stored (world_of self.new))
            (world_of self.old) (world_of self.new) result }
        ensures own { IfDone (WritesOwn (world_of self.old) caller stored (world_of self.new)) result }
        ensures rows { Stands self.new }
    {
        let Some(request) = self.claimed(caller) else {
            return Ok(false);
        };
        let Some(exchange) = self.planned(&request) else {
            return Ok(false);
        };
        if !stored {
            let home = self.home_of(&request);
            self.shards[home].set_doubt(Some(exchange));
            return Ok(true);
        }
        self.join(&exchange)?;
        end_claim(&mut self.claims, caller);
        Ok(true)
    }

    /// Ends all claims, and settles the first shard with a decision in doubt.
    pub(crate) fn restart(&mut self, kept: bool) -> Result<bool, NoMemory>
        requires reached { IsReached (world_of self.old) }
        requires shards { length self.old.shards.items ≡ self.old.issuer.shards }
        requires rows { Stands self.old }
        ensures done { OnOk result (world_of self.new ≡ restarted kept (world_of self.old)) }
        ensures unchanged { OnErr result (world_of self.new ≡ world_of self.old) }
        ensures always { IfOk result (λ done. done ≡ true) }
        ensures rows { Stands self.new }
    {
        if let Some(home) = first_doubtful(self.shards.as_slice()) {
            self.settle(home, kept)?;
        }
        self.claims.clear();
        Ok(true)
    }

    /// Settles the decision in doubt of this shard: it is recorded if its store kept it.
    fn settle(&mut self, home: usize, kept: bool) -> Result<(), NoMemory>
        requires reached { IsReached (world_of self.old) }
        requires home { home < length self.old.shards.items }
        requires shards { length self.old.shards.items ≡ self.old.issuer.shards }
        requires rows { Stands self.old }
        ensures done { OnOk result (world_of self.new ≡ settled_at kept (world_of self.old) home
            (shard_at (world_of self.old) home).doubt) }
        ensures unchanged { OnErr result (world_of self.new ≡ world_of self.old) }
        ensures rows { Stands self.new }
    {
        let Some(exchange) = self.shards[home].doubt() else {
            return Ok(());
        };
        if kept {
            return self.join(&exchange);
        }
        self.shards[home].set_doubt(None);
        Ok(())
    }

    /// The request that this caller claimed.
    fn claimed(&self, caller: u8) -> Option<Request>
        ensures { option_map (λ request. request) result ≡ option_map (λ claim. claim.request)
            (claim_of caller self.now.claims.items) }
    {
        let claim = claim_of(self.claims.as_slice(), caller)?;
        Some(claim.request)
    }

    /// The issuer's own decision of a request that it decides, if its counter is in the window and unused.
    fn planned(&self, request: &Request) -> Option<Exchange>
        requires shards { length self.now.shards.items ≡ self.now.issuer.shards }
        requires rows { Stands self.now }
        requires checked { checked self.now.issuer request.now ≡ Ok (Decide request.now) }
        ensures { MatchOption result
            (IsUnused (decided_for request.now (history_for (world_of self.now) request.now)) request.now → ⊥)
            (λ exchange. (exchange ≡ own_decision (world_of self.now) request.now)
            × IsLegalDecision (grounds_of self.now.issuer) (home_of (world_of self.now) request.now)
            (history_for (world_of self.now) request.now) request.now exchange.reply) }
    {
        let Ok(found) = check_request(&self.issuer, *request) else {
            return None;
        };
        let row = &self.rows[found.card as usize];
        let table = self.issuer.table();
        match row.plan(&found.session, &found.keys, table, &found.request) {
            Outcome::Fresh(reply, _) => Some(Exchange {
                request: found.request,
                reply,
            }),
            _ => None,
        }
    }

    /// Records a decision, a valid successor of its shard's history, in the shard and in the row of its card.
    fn join(&mut self, exchange: &Exchange) -> Result<(), NoMemory>
        requires shards { length self.old.shards.items ≡ self.old.issuer.shards }
        requires rows { Stands self.old }
        requires legal { IsLegalDecision (grounds_of self.old.issuer) (home_of (world_of self.old) exchange.now.request)
            (history_for (world_of self.old) exchange.now.request) exchange.now.request exchange.now.reply }
        ensures done { OnOk result (world_of self.new ≡ with_record (world_of self.old)
            (home_of (world_of self.old) exchange.now.request)
            (Entry.Decided exchange.now.request exchange.now.reply)) }
        ensures unchanged { OnErr result (world_of self.new ≡ world_of self.old) }
        ensures rows { Stands self.new }
    {
        let Ok(found) = check_request(&self.issuer, exchange.request) else {
            return Ok(());
        };
        let CheckedRequest {
            request,
            card,
            keys,
            session,
        } = found;
        let home = usize::from(self.issuer.shard_of(card));
        let place = self.shards[home].history().len() as u64;
        self.shards[home].add(Entry::Decided {
            request: exchange.request,
            reply: exchange.reply.copy(),
        })?;
        let reply = exchange.reply.copy();
        self.rows[card as usize].adopt(&session, &keys, request, reply, place);
        Ok(())
    }

    /// Whether the queue of the card with this number takes one more command.
    fn takes_command(&self, number: u32) -> bool
        requires card { number < length self.now.issuer.cards }
        requires rows { Stands self.now }
        ensures { (info : CardInfo) → slice_get self.now.issuer.cards number ≡ Some info
            → (IsTrue result ↔ TakesOneMore (waiting (scripts_of (name_of info)
            (history_at (world_of self.now) number)))) }
    {
        self.rows[number as usize].queue().takes_one_more()
    }

    /// The request in chip data, if the issuer decides it.
    fn read(&self, bytes: &[u8]) -> Option<Request>
        requires { length bytes.now ≤ MAX_CHIP_BYTES }
        ensures { MatchOption result
            ((request : Request) → request_of bytes.now ≡ Ok request
            → checked self.now.issuer request ≡ Ok (Decide request) → ⊥)
            (λ request. (request_of bytes.now ≡ Ok request) × (checked self.now.issuer request ≡ Ok (Decide request))) }
    {
        let request = read_request(bytes).ok()?;
        let found = check_request(&self.issuer, request).ok()?;
        Some(found.request)
    }

    /// Whether the counter of the request is neither recorded nor claimed.
    fn is_free(&self, request: &Request) -> bool
        requires issuer { IsIssuer self.now.issuer }
        requires shards { length self.now.shards.items ≡ self.now.issuer.shards }
        ensures { IsTrue result ↔ IsFree (world_of self.now) request.now }
    {
        let home = self.home_of(request);
        is_unrecorded(self.shards[home].history(), request)
            && is_unclaimed(self.claims.as_slice(), request)
    }

    /// The number of the shard of the request's card.
    fn home_of(&self, request: &Request) -> usize
        requires { IsIssuer self.now.issuer }
        ensures home { result ≡ home_of (world_of self.now) request.now }
        ensures within { result < self.now.issuer.shards }
    {
        let parts = request.parts();
        match self.issuer.card(&parts.pan, parts.psn) {
            Some(card) => usize::from(self.issuer.shard_of(card)),
            None => 0,
        }
    }

    /// The decision in the record at this index of this shard.
    fn decision_at(&self, shard: u8, place: u64) -> Option<Exchange>
        ensures { MatchOption result
            ((request : Request) (reply : Reply) → record_in (world_of self.now) shard place ≡ Some
            (Entry.Decided request reply) → ⊥)
            (λ exchange. record_in (world_of self.now) shard place ≡ Some
            (Entry.Decided exchange.request exchange.reply)) }
    {
        let shard = self.shards.get(usize::from(shard))?;
        decision_in(shard.history().get(place as usize)?)
    }
}

/// The decision in a record.
fn decision_in(entry: &Entry) -> Option<Exchange>
    ensures { MatchOption result
        ((request : Request) (reply : Reply) → entry.now ≡ Entry.Decided request reply → ⊥)
        (λ exchange. entry.now ≡ Entry.Decided exchange.request exchange.reply) }
{
    match entry {
        Entry::Decided { request, reply } => Some(Exchange {
            request: *request,
            reply: reply.copy(),
        }),
        _ => None,
    }
}

/// The index of the first shard with a decision in doubt.
fn first_doubtful(shards: &[ShardRecords]) -> Option<usize>
    ensures place { result ≡ first_doubtful shards.now }
    ensures within { IfSome result (λ place. place < length shards.now) }
{
    shards.iter().position(|shard| shard.is_doubtful())
}

/// A new card of this suite for each of the issuer's, under its first key set.
fn new_cards(alloc: Global, issuer: &Issuer, suite: Suite) -> Result<Vec<Card>, NoMemory>
    requires { HasFirstKeys issuer.now suite }
    ensures first { IfOk result (λ cards. AreFirst issuer.now suite cards.items) }
    ensures valid { AreCards issuer.now.cards }
{
    let set = issuer.first_key();
    let mut cards = Vec::new(alloc);
    for number in 0..issuer.cards() {
        cards.push(new_card(alloc, issuer.info(number), set, suite))?;
    }
    Ok(cards)
}

/// A new card of this suite under this key set.
fn new_card(alloc: Global, info: &CardInfo, set: &KeySet, suite: Suite) -> Card
    requires decimal { IsTrue (is_bcd info.now.psn) }
    requires suite { IsTrue (has_suite suite set.now) }
    ensures { IsCardUnder set.now suite info.now result }
{
    let keys = card_keys(set, suite, &info.pan, info.psn).unwrap();
    Card::new(alloc, info.pan, info.psn, set.dki, info.method, keys)
}

/// A row without records for each card.
fn empty_rows(alloc: Global, issuer: &Issuer) -> Result<Vec<Row>, NoMemory>
    ensures { IfOk result (λ rows. AreEmpty issuer.now.cards (length issuer.now.cards) rows.items) }
{
    let mut rows = Vec::new(alloc);
    for number in 0..issuer.cards() {
        rows.push(Row::new(alloc, issuer.info(number).method)?)?;
    }
    Ok(rows)
}

/// `count` shards without records.
fn no_shards(alloc: Global, count: u8) -> Result<Vec<ShardRecords>, NoMemory>
    ensures { IfOk result (λ shards. shards.items ≡ replicate count no_shard) }
{
    let mut shards = Vec::new(alloc);
    for _ in 0..count {
        shards.push(ShardRecords::new(alloc))?;
    }
    Ok(shards)
}
