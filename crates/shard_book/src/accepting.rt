//! Which records of a journal or of a feed the rows accept.
ghost use Rattle.std.specs.Prelude.{◌≡◌, ◌↔◌, ◌≤◌, ℕ, List, IfSome, IsSome, IsTrue, is_some};
ghost use Rattle.issuer_base.specs.declared.entry.Entry.{Entry};
ghost use Rattle.card_history.specs.LegalRecords.{IsLegal, IsLegalCommand, IsLegalDecision, IsLegalStatus};
ghost use Rattle.issuer_base.specs.CardNames.{named};
ghost use Rattle.issuer_base.specs.ScriptCommand.{is_command};
ghost use Rattle.key_derive.specs.SessionKey.{session_of};
ghost use Rattle.line_checks.specs.AtHand.{IsCardAtHand, card_of_order, number_of_order, record_of};
ghost use Rattle.line_checks.specs.LookedUp.{HasKeysAtHand};
ghost use Rattle.journal_rec.specs.Record.{is_record};
ghost use Rattle.shard_book.specs.Accepted.{IsAccepted};
ghost use Rattle.shard_book.specs.ReadAhead.{IsLookedUp};
ghost use Rattle.shard_book.specs.Grounds.{grounds_by, IsMadeBy};
ghost use Rattle.shard_book.specs.Versions.{grounds_in, window_in};
ghost use Rattle.shard_book.specs.ShardRows.{AreRowsOf, IsHome, RowsStandFor};
ghost use Rattle.shard_book.specs.Steps.{Accepts, IsLaunchAt};

use crate::replay::Version;
use crate::rows::Rows;
use arpc_methods::MadeAhead;
use issuer_base::{Entry, MAX_STATUS, Refusal, Reply};
use issuer_setup::Issuer;
use line_checks::{
    CheckedCommand, CheckedOrder, CheckedRequest, CheckedStatus, LookedUp, LookedUpRequest,
};
use row_core::{Accepted, Launch};

/// A record that the rows accepted. It can be applied as long as they are unchanged.
#[derive(Drop)]
pub(crate) enum AcceptedRecord<'a> {
    /// The decision of this request: its reply, and the launch of the reply's batch.
    Decision(CheckedRequest, &'a Reply, Option<Launch>),

    /// A command or a status.
    Order(&'a CheckedOrder),
}

impl Rows {
    /// Accepts a record of a journal of this version if it is a valid successor. `found` is what was looked up for it,
    /// and `made` its issuer authentication data, if they were made ahead. Nothing changes yet: [`Rows::apply_record`]
    /// adds it.
    pub(crate) fn accept<'a>(
        &self,
        version: Version,
        issuer: &Issuer,
        entry: &'a Entry,
        found: &'a Result<LookedUp, Refusal>,
        made: Option<&MadeAhead>,
    ) -> Option<AcceptedRecord<'a>>
        requires rows { AreRowsOf issuer.now self.now }
        requires form { IsTrue (is_record entry.now) }
        requires found { IsLookedUp issuer.now entry.now found.now }
        ensures exact { (history : List Entry) → RowsStandFor issuer.now self.now history
            → (IsSome result ↔ IsLegal (grounds_in version issuer.now) self.now.shard history entry.now) }
        ensures accepted { IfSome result (IsAccepted issuer.now self.now entry.now) }
    {
        let Ok(found) = found else {
            return None;
        };
        match found {
            LookedUp::Request(sought) => {
                let Entry::Decided { reply, .. } = entry else {
                    return None;
                };
                self.accept_decision(version, issuer, sought, reply, made)
            }
            LookedUp::Order(order) => {
                if !self.accepts_order(issuer, order) {
                    return None;
                }
                Some(AcceptedRecord::Order(order))
            }
        }
    }

    /// Accepts a decision.
    fn accept_decision<'a>(
        &self,
        version: Version,
        issuer: &Issuer,
        sought: &LookedUpRequest,
        reply: &'a Reply,
        made: Option<&MadeAhead>,
    ) -> Option<AcceptedRecord<'a>>
        requires rows { AreRowsOf issuer.now self.now }
        requires known { HasKeysAtHand issuer.now sought.now }
        ensures exact { (history : List Entry) → RowsStandFor issuer.now self.now history
            → (IsSome result ↔ IsLegalDecision (grounds_in version issuer.now) self.now.shard history sought.now.request
            reply.now) }
        ensures accepted { IfSome result
            (IsAccepted issuer.now self.now (Entry.Decided sought.now.request reply.now)) }
    {
        let Ok(found) = sought.check(issuer) else {
            return None;
        };
        if issuer.shard_of(found.card) != self.shard() {
            return None;
        }
        let Some(accepted) = self.accept_checked(version, &found, reply, made) else {
            return None;
        };
        Some(AcceptedRecord::Decision(found, reply, accepted.launch))
    }

    /// Accepts the decision of a checked request.
    fn accept_checked(
        &self,
        version: Version,
        found: &CheckedRequest,
        reply: &Reply,
        made: Option<&MadeAhead>,
    ) -> Option<Accepted>
        requires home { IsHome self.now found.now.card }
        requires session { found.now.session ≡ session_of found.now.keys found.now.request.atc }
        ensures exact { Accepts (window_in version) self.now found.now reply.now (is_some result) }
        ensures launch { IfSome result (λ accepted. IsLaunchAt self.now found.now accepted.launch) }
    {
        self.row(found.card).accept(
            version.window(),
            &found.session,
            &found.keys,
            &found.request,
            reply,
            made,
        )
    }

    /// Whether a command or a status is a valid successor.
    fn accepts_order(&self, issuer: &Issuer, order: &CheckedOrder) -> bool
        requires rows { AreRowsOf issuer.now self.now }
        requires form { IsTrue (is_record (record_of order.now)) }
        requires card { IsCardAtHand issuer.now (card_of_order order.now) (number_of_order order.now) }
        ensures exact { (window : ℕ) (history : List Entry) → RowsStandFor issuer.now self.now history
            → (IsTrue result ↔ IsLegal (grounds_by issuer.now window (IsMadeBy issuer.now)) self.now.shard history
            (record_of order.now)) }
        ensures home { IsTrue result → IsHome self.now (number_of_order order.now) }
    {
        match order {
            CheckedOrder::Command(asked) => self.accepts_command(issuer, asked),
            CheckedOrder::Status(asked) => self.accepts_status(issuer, asked),
        }
    }

    /// Whether a command is a valid successor: its card is one of the shard's, and the card's queue accepts it.
    fn accepts_command(&self, issuer: &Issuer, asked: &CheckedCommand) -> bool
        requires rows { AreRowsOf issuer.now self.now }
        requires form { IsTrue (is_command asked.now.command) }
        requires card { IsCardAtHand issuer.now (named asked.now.pan asked.now.psn) asked.now.card }
        ensures exact { (window : ℕ) (history : List Entry) → RowsStandFor issuer.now self.now history
            → (IsTrue result ↔ IsLegalCommand (grounds_by issuer.now window (IsMadeBy issuer.now)) self.now.shard
            history (named asked.now.pan asked.now.psn) asked.now.command) }
        ensures home { IsTrue result → IsHome self.now asked.now.card }
    {
        if issuer.shard_of(asked.card) != self.shard() {
            return false;
        }
        self.takes_command(asked.card)
    }

    /// Whether a status is a valid successor: its card is one of the shard's.
    fn accepts_status(&self, issuer: &Issuer, asked: &CheckedStatus) -> bool
        requires rows { AreRowsOf issuer.now self.now }
        requires within { asked.now.status ≤ MAX_STATUS }
        requires card { IsCardAtHand issuer.now (named asked.now.pan asked.now.psn) asked.now.card }
        ensures exact { (window : ℕ) (history : List Entry) → RowsStandFor issuer.now self.now history
            → (IsTrue result ↔ IsLegalStatus (grounds_by issuer.now window (IsMadeBy issuer.now)) self.now.shard
            (named asked.now.pan asked.now.psn) asked.now.status) }
        ensures home { IsTrue result → IsHome self.now asked.now.card }
    {
        if issuer.shard_of(asked.card) != self.shard() {
            return false;
        }
        true
    }
}
