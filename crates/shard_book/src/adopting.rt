//! Replays the records of a journal, each if it is a valid successor.
ghost use Rattle.std.specs.Prelude.{◌≡◌, ◌↔◌, List, [], ◌∷◌, ◌++◌, length, IsTrue};
ghost use Rattle.issuer_base.specs.declared.entry.Entry.{Entry};
ghost use Rattle.card_history.specs.LegalRecords.{IsLegal};
ghost use Rattle.issuer_setup.specs.IssuerSetup.{Setup};
ghost use Rattle.line_checks.specs.AtHand.{IsCardAtHand, card_of_order, number_of_order, record_of};
ghost use Rattle.journal_rec.specs.Record.{is_record};
ghost use Rattle.shard_book.specs.Accepted.{IsAccepted, IsReady};
ghost use Rattle.shard_book.specs.ReadAhead.{IsLookedUp};
ghost use Rattle.shard_book.specs.Grounds.{grounds_of};
ghost use Rattle.shard_book.specs.Versions.{grounds_in};
ghost use Rattle.shard_book.specs.ShardRows.{AreRowsOf, AreSame, IsHome, RowsStandFor};

use crate::accepting::AcceptedRecord;
use crate::replay::Version;
use crate::rows::Rows;
use arpc_methods::MadeAhead;
use issuer_base::{Entry, Refusal};
use issuer_setup::Issuer;
use line_checks::{CheckedOrder, LookedUp};

impl Rows {
    /// Replays the record with this index if it is a valid successor. `found` is what was looked up for it, and `made` its
    /// issuer authentication data, if they were made ahead. The result is whether it is.
    pub(crate) fn adopt(
        &mut self,
        version: Version,
        issuer: &Issuer,
        entry: &Entry,
        found: &Result<LookedUp, Refusal>,
        made: Option<&MadeAhead>,
        place: u64,
    ) -> bool
        requires rows { AreRowsOf issuer.now self.old }
        requires form { IsTrue (is_record entry.now) }
        requires found { IsLookedUp issuer.now entry.now found.now }
        ensures exact { (history : List Entry) → RowsStandFor issuer.now self.old history
            → (IsTrue result ↔ IsLegal (grounds_in version issuer.now) self.old.shard history entry.now) }
        ensures adopted { IsTrue result → (history : List Entry) → RowsStandFor issuer.now self.old history
            → place ≡ length history → RowsStandFor issuer.now self.new (history ++ entry.now ∷ []) }
        ensures same { AreSame self.old self.new }
    {
        let Some(accepted) = self.accept(version, issuer, entry, found, made) else {
            return false;
        };
        self.apply_record(&accepted, place);
        true
    }

    /// Applies a record with this index, which the rows accepted and are unchanged since.
    pub(crate) fn apply_record(&mut self, accepted: &AcceptedRecord, place: u64)
        requires { IsReady self.old accepted.now }
        ensures applied { (issuer : Setup) (entry : Entry) (history : List Entry)
            → IsAccepted issuer self.old entry accepted.now → RowsStandFor issuer self.old history
            → IsLegal (grounds_of issuer) self.old.shard history entry
            → place ≡ length history → RowsStandFor issuer self.new (history ++ entry ∷ []) }
        ensures same { AreSame self.old self.new }
    {
        match accepted {
            AcceptedRecord::Decision(found, reply, launch) => {
                self.apply(found, reply, *launch, place);
            }
            AcceptedRecord::Order(order) => self.apply_order(order),
        }
    }

    /// Applies a command or a status, which the rows accepted.
    fn apply_order(&mut self, order: &CheckedOrder)
        requires home { IsHome self.old (number_of_order order.now) }
        requires form { IsTrue (is_record (record_of order.now)) }
        ensures applied { (issuer : Setup) (history : List Entry)
            → IsCardAtHand issuer (card_of_order order.now) (number_of_order order.now)
            → RowsStandFor issuer self.old history
            → IsLegal (grounds_of issuer) self.old.shard history (record_of order.now)
            → RowsStandFor issuer self.new (history ++ record_of order.now ∷ []) }
        ensures same { AreSame self.old self.new }
    {
        match order {
            CheckedOrder::Command(asked) => self.push(asked.card, asked.command.copy()),
            CheckedOrder::Status(asked) => self.set_status(asked.card, asked.status),
        }
    }
}
