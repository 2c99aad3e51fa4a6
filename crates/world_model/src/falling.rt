//! A fall-back: the host goes on from the first records of each shard.
ghost use Rattle.std.specs.Prelude.{◌≡◌, ◌↔◌, ◌<◌, ◌≤◌, ℕ, List, [], length, slice_get, slice_set, Some, None, Contains, IsTrue, true, false};
ghost use Rattle.issuer_base.specs.declared.answer.Reply.{Reply};
ghost use Rattle.issuer_base.specs.declared.entry.Entry.{Entry};
ghost use Rattle.issuer_base.specs.declared.request.Request.{Request};
ghost use Rattle.card_history.specs.LegalRecords.{IsLegal, IsLegalHistory};
ghost use Rattle.shard_book.specs.Grounds.{grounds_of};
ghost use Rattle.world_net.specs.declared.parts.Exchange.{Exchange};
ghost use Rattle.world_model.specs.FallBack.{CanTruncate, CanFallBack, truncated, all_truncated, fallen_back, IsGenuinelyReached, KeepsLaws};
ghost use Rattle.world_model.specs.Replaying.{AreRowsOf, AreLegalHistories, AreCleared, Replays, ReplaysAll};
ghost use Rattle.world_model.specs.Stepping.{world_of, RowsStand, Stands, IsReached};
ghost use Rattle.world_net.specs.WorldRuns.{IsIssuer};
ghost use Rattle.world_net.specs.WorldState.{ShardState};

use crate::net::Net;
use crate::shard::ShardRecords;
use crate::world::World;
use issuer_base::{Entry, Reply, Request};
use issuer_setup::Issuer;
use line_checks::{CheckedRequest, check_request};
use row_core::Row;
use world_net::Exchange;

impl World {
    /// Truncates the history of each shard to its first records, as many as `keep` has for the shard, and returns
    /// whether it may: no reply to the request of a lost record was sent. All claims and records in doubt end.
    ///
    /// So a standby node is promoted that has received only these records. It doesn't allocate.
    pub fn fall_back(&mut self, keep: &[u64]) -> bool
        ensures allowed { IsTrue result ↔ CanFallBack self.old keep.now }
        ensures fallen { result ≡ true → self.new ≡ fallen_back keep.now self.old }
        ensures unchanged { result ≡ false → self.new ≡ self.old }

        // It is again the end of a run, genuine if it was before, and the laws of worlds hold of it.
        ensures run { IsReached self.new }
        ensures genuine { IsGenuinelyReached self.old → IsGenuinelyReached self.new }
        ensures laws { KeepsLaws self.old self.new }
    {
        self.net.fall_back(keep)
    }
}

impl Net {
    /// Truncates the shards to these numbers of records if no sent reply is lost, and returns whether it did.
    pub(crate) fn fall_back(&mut self, keep: &[u64]) -> bool
        requires reached { IsReached (world_of self.old) }
        requires rows { Stands self.old }
        ensures allowed { IsTrue result ↔ CanFallBack (world_of self.old) keep.now }
        ensures fallen { result ≡ true → world_of self.new ≡ fallen_back keep.now (world_of self.old) }
        ensures unchanged { result ≡ false → world_of self.new ≡ world_of self.old }
        ensures rows { Stands self.new }
    {
        if !self.can_fall_back(keep) {
            return false;
        }
        truncate_all(self.shards.as_mut_slice(), keep);
        self.claims.clear();
        replay_all(
            &self.issuer,
            self.rows.as_mut_slice(),
            self.shards.as_slice(),
        );
        true
    }

    /// Whether the shards have these numbers of records, and no reply to a request of the others was sent.
    fn can_fall_back(&self, keep: &[u64]) -> bool
        ensures { IsTrue result ↔ CanFallBack (world_of self.now) keep.now }
    {
        if keep.len() != self.shards.len() {
            return false;
        }
        for number in 0..keep.len() {
            if !can_truncate(self.sent.as_slice(), &self.shards[number], keep[number]) {
                return false;
            }
        }
        true
    }
}

/// Whether a shard has this number of records, and no reply to a request of the others was sent.
fn can_truncate(sent: &[Exchange], shard: &ShardRecords, count: u64) -> bool
    ensures { IsTrue result ↔ CanTruncate sent.now shard.now count }
{
    let history = shard.history();
    count <= history.len() as u64 && are_unsent(sent, &history[count as usize..])
}

/// Whether no reply to a request of these records was sent.
fn are_unsent(sent: &[Exchange], lost: &[Entry]) -> bool
    ensures { IsTrue result ↔ ((exchange : Exchange) (place : ℕ) (reply : Reply) → Contains sent.now exchange
        → slice_get lost.now place ≡ Some (Entry.Decided exchange.request reply) → ⊥) }
{
    for place in 0..lost.len() {
        if is_sent(sent, &lost[place]) {
            return false;
        }
    }
    true
}

/// Whether the record is a decision whose request has a reply that was sent.
fn is_sent(sent: &[Exchange], entry: &Entry) -> bool
    ensures { IsTrue result ↔ ((exchange : Exchange) × (reply : Reply) × Contains sent.now exchange
        × (entry.now ≡ Entry.Decided exchange.request reply)) }
{
    match entry {
        Entry::Decided { request, .. } => has_reply(sent, request),
        _ => false,
    }
}

/// Whether a reply to the request was sent.
fn has_reply(sent: &[Exchange], request: &Request) -> bool
    ensures { IsTrue result ↔ ((exchange : Exchange) × Contains sent.now exchange × (exchange.request ≡ request.now)) }
{
    for place in 0..sent.len() {
        if sent[place].request.is_same(request) {
            return true;
        }
    }
    false
}

/// Truncates each shard to its number of records.
fn truncate_all(shards: &mut [ShardRecords], keep: &[u64])
    requires { length keep.now ≡ length shards.old }
    ensures { shards.new ≡ all_truncated shards.old keep.now }
{
    for number in 0..keep.len() {
        shards[number].truncate(keep[number] as usize);
    }
}

/// Replays the records of all shards in the rows of the cards, from none on.
fn replay_all(issuer: &Issuer, rows: &mut [Row], shards: &[ShardRecords])
    requires issuer { IsIssuer issuer.now }
    requires count { length shards.now ≡ issuer.now.shards }
    requires legal { AreLegalHistories issuer.now shards.now }
    requires rows { AreRowsOf issuer.now rows.old }
    ensures { RowsStand issuer.now rows.new shards.now }
{
    clear_all(rows);
    for number in 0..shards.len() {
        replay(issuer, rows, shards[number].history());
    }
}

/// Clears all rows.
fn clear_all(rows: &mut [Row])
    ensures { AreCleared rows.old rows.new }
{
    for number in 0..rows.len() {
        rows[number].clear();
    }
}

/// Replays the records of a shard that has none yet.
fn replay(issuer: &Issuer, rows: &mut [Row], history: &[Entry])
    requires issuer { IsIssuer issuer.now }
    requires rows { length issuer.now.cards ≤ length rows.old }
    requires legal { (shard : ℕ) × IsLegalHistory (grounds_of issuer.now) shard history.now }
    ensures replayed { ReplaysAll issuer.now history.now rows.old rows.new }
    ensures count { length rows.new ≡ length rows.old }
{
    for place in 0..history.len() {
        replay_record(issuer, rows, &history[place], place as u64);
    }
}

/// Replays a record that is a valid successor of those before it, whose number is its place.
fn replay_record(issuer: &Issuer, rows: &mut [Row], entry: &Entry, place: u64)
    requires issuer { IsIssuer issuer.now }
    requires rows { length issuer.now.cards ≤ length rows.old }
    requires legal { (shard : ℕ) × (before : List Entry) × IsLegal (grounds_of issuer.now) shard before entry.now }
    ensures replayed { Replays issuer.now entry.now place rows.old rows.new }
    ensures count { length rows.new ≡ length rows.old }
{
    match entry {
        Entry::Decided { request, reply } => replay_decision(issuer, rows, request, reply, place),
        Entry::Queued { pan, psn, command } => {
            if let Some(card) = issuer.card(pan, *psn) {
                let _ = rows[card as usize].push(command.copy());
            }
        }
        Entry::Status { pan, psn, status } => {
            if let Some(card) = issuer.card(pan, *psn) {
                rows[card as usize].set_status(*status);
            }
        }
    }
}

/// Replays a decision.
fn replay_decision(issuer: &Issuer, rows: &mut [Row], request: &Request, reply: &Reply, place: u64)
    requires issuer { IsIssuer issuer.now }
    requires rows { length issuer.now.cards ≤ length rows.old }
    ensures replayed { Replays issuer.now (Entry.Decided request.now reply.now) place rows.old rows.new }
    ensures count { length rows.new ≡ length rows.old }
{
    let Ok(found) = check_request(issuer, *request) else {
        return;
    };
    let CheckedRequest {
        request,
        card,
        keys,
        session,
    } = found;
    rows[card as usize].adopt(&session, &keys, request, reply.copy(), place);
}
