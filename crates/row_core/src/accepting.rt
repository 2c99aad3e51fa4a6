//! Whether a recorded decision is a valid successor, and how the row adopts it.
ghost use Rattle.std.specs.Prelude.{◌≡◌, ◌↔◌, ◌≤◌, ◌++◌, List, [], ◌∷◌, length, slice_index, false, IfSome, IsSome, IsTrue};
ghost use Rattle.issuer_base.specs.declared.entry.Entry.{Entry};
ghost use Rattle.card_history.specs.Records.{card_of, decided};
ghost use Rattle.card_history.specs.Scripts.{Scripts};
ghost use Rattle.card_history.specs.Turns.{IsUnused};
ghost use Rattle.key_derive.specs.SessionKey.{session_of};
ghost use Rattle.issuer_setup.specs.declared.card.CardInfo.{CardInfo};
ghost use Rattle.issuer_setup.specs.CardList.{name_of};
ghost use Rattle.row_core.specs.CardRow.{KeepsScripts, StandsFor};
ghost use Rattle.row_core.specs.Accepting.{told_update, says_approval, IsMade, IsValidSuccessor};
ghost use Rattle.row_core.specs.Launching.{IsLaunchFor};
ghost use Rattle.issuer_base.specs.declared.limits.TheConstants.{OLD_WINDOW, WINDOW};

use crate::row::Row;
use crate::scripts::Launch;
use arpc_methods::{AnswerParts, MadeAhead};
use arrayvec::ArrayVec;
use des_block::Key16;
use issuer_base::{Method, OLD_WINDOW, Reply, Request, WINDOW};
use key_derive::{LazyKeys, SessionKey};
use reply_keep::KeptEntry;

/// What a row accepted of a recorded decision, to be applied.
#[derive(Clone, Copy)]
pub struct Accepted {
    /// The launch of the batch of its reply.
    pub launch: Option<Launch>,
}

impl Row {
    /// Adopts a recorded decision, whose record is at this index of the card's shard, if it is a valid successor: its
    /// ATC is in the window and unused, and the reply is one that the issuer makes, whatever its decision table was.
    /// Returns whether it did.
    ///
    /// The request's cryptogram was checked under `session`, the session key for the cryptograms of its transaction.
    /// `keys` are the card's master keys from the key set of the request, in the request's suite.
    pub fn adopt(
        &mut self,
        session: &SessionKey,
        keys: &LazyKeys,
        request: Request,
        reply: Reply,
        place: u64,
    ) -> bool
        requires { session.now ≡ session_of keys.now request.atc }
        ensures exact { (card : CardInfo) (history : List Entry) → StandsFor card self.old history
            → card_of request ≡ name_of card
            → (IsTrue result ↔ IsValidSuccessor WINDOW card.method keys.now history request reply) }
        ensures adopted { IsTrue result → (card : CardInfo) (history : List Entry) → StandsFor card self.old history
            → card_of request ≡ name_of card → place ≡ length history
            → StandsFor card self.new (history ++ Entry.Decided request reply ∷ []) }
        ensures unchanged { result ≡ false → self.new ≡ self.old }
    {
        let Some(accepted) = self.accept(WINDOW, session, keys, &request, &reply, None) else {
            return false;
        };
        self.apply(&request, &reply, accepted.launch, place);
        true
    }

    /// Adopts a recorded decision of a journal of version 1, as [`Row::adopt`] does, if it is a valid successor by the
    /// window of such journals. Returns whether it did.
    pub fn adopt_old(
        &mut self,
        session: &SessionKey,
        keys: &LazyKeys,
        request: Request,
        reply: Reply,
        place: u64,
    ) -> bool
        requires { session.now ≡ session_of keys.now request.atc }
        ensures exact { (card : CardInfo) (history : List Entry) → StandsFor card self.old history
            → card_of request ≡ name_of card
            → (IsTrue result ↔ IsValidSuccessor OLD_WINDOW card.method keys.now history request reply) }
        ensures adopted { IsTrue result → (card : CardInfo) (history : List Entry) → StandsFor card self.old history
            → card_of request ≡ name_of card → place ≡ length history
            → StandsFor card self.new (history ++ Entry.Decided request reply ∷ []) }
        ensures unchanged { result ≡ false → self.new ≡ self.old }
    {
        if self.is_below(request.parts().atc, OLD_WINDOW) {
            return false;
        }
        self.adopt(session, keys, request, reply, place)
    }

    /// Whether [`Row::adopt`] would adopt this decision. Nothing changes.
    pub fn accepts(
        &self,
        session: &SessionKey,
        keys: &LazyKeys,
        request: &Request,
        reply: &Reply,
    ) -> bool
        requires { session.now ≡ session_of keys.now request.now.atc }
        ensures { (card : CardInfo) (history : List Entry) → StandsFor card self.now history
            → card_of request.now ≡ name_of card
            → (IsTrue result ↔ IsValidSuccessor WINDOW card.method keys.now history request.now reply.now) }
    {
        self.accept(WINDOW, session, keys, request, reply, None)
            .is_some()
    }

    /// Accepts a recorded decision of a journal with a window of so many ATCs, if it is a valid successor. Nothing changes
    /// yet: [`Row::apply`] adds it, with the launch that is accepted, as long as the row is unchanged.
    ///
    /// `session` and `keys` are those that [`Row::adopt`] takes. The ARPC isn't computed again if `made` is that of this
    /// decision, by [`answer_parts`]; it changes nothing else.
    pub fn accept(
        &self,
        window: u16,
        session: &SessionKey,
        keys: &LazyKeys,
        request: &Request,
        reply: &Reply,
        made: Option<&MadeAhead>,
    ) -> Option<Accepted>
        requires session { session.now ≡ session_of keys.now request.now.atc }
        requires window { window ≤ WINDOW }
        ensures exact { (card : CardInfo) (history : List Entry) → StandsFor card self.now history
            → card_of request.now ≡ name_of card
            → (IsSome result ↔ IsValidSuccessor window card.method keys.now history request.now reply.now) }
        ensures launch { IfSome result (λ accepted. IsLaunchFor self.now request.now accepted.launch) }
    {
        if self.is_below(request.parts().atc, window) {
            return None;
        }
        if !self.is_unused(request) {
            return None;
        }
        let launch = self.launch(request);
        if !self.is_made(session, keys, request, launch, reply, made) {
            return None;
        }
        Some(Accepted { launch })
    }

    /// Whether the request's ATC is in the window and unused.
    fn is_unused(&self, request: &Request) -> bool
        ensures { (card : CardInfo) (history : List Entry) → StandsFor card self.now history
            → (IsTrue result ↔ IsUnused (decided (name_of card) history) request.now) }
    {
        self.known(request).is_none()
    }

    /// Whether the issuer makes this reply to the request, by some row of a decision table.
    fn is_made(
        &self,
        session: &SessionKey,
        keys: &LazyKeys,
        request: &Request,
        launch: Option<Launch>,
        reply: &Reply,
        made: Option<&MadeAhead>,
    ) -> bool
        requires session { session.now ≡ session_of keys.now request.now.atc }
        requires launch { IsLaunchFor self.now request.now launch }
        ensures { (scripts : Scripts) → KeepsScripts self.now scripts
            → (IsTrue result ↔ IsMade self.now.method keys.now scripts request.now reply.now) }
    {
        let update = told_update(reply.bytes.as_slice());
        if !agrees(self.method, update, reply.approve) {
            return false;
        }
        let mut bytes = ArrayVec::new();
        self.write_reply(
            &mut bytes, session, keys, request, launch, reply.arc, update, made,
        );
        bytes == reply.bytes
    }
}

/// What the issuer authentication data of a recorded decision of a card of this method are made of. `key` is the session
/// key for the cryptograms of its transaction.
pub fn answer_parts(method: Method, key: Key16, request: &Request, reply: &Reply) -> AnswerParts
    ensures { result ≡ record {
      method = method;
      key = key;
      ac = request.now.ac;
      arc = reply.now.arc;
      csu = told_update reply.now.bytes.items;
    } }
{
    AnswerParts {
        method,
        key,
        ac: request.parts().ac,
        arc: reply.arc,
        csu: told_update(reply.bytes.as_slice()),
    }
}

/// Whether a reply's approval is that of its card status update. By method 1 there is no update, and this is true.
fn agrees(method: Method, update: [u8; 4], approve: bool) -> bool
    ensures { IsTrue result ↔ (method ≡ Method.Two → says_approval update ≡ approve) }
{
    match method {
        Method::One => true,
        Method::Two => says_approval(update) == approve,
    }
}

/// Whether the card status update has the issuer's approval.
fn says_approval(update: [u8; 4]) -> bool
    ensures { result ≡ says_approval update }
{
    update[1] & 0x80 == 0x80
}

/// The card status update in the bytes of a reply by method 2, with 0 for a missing byte.
fn told_update(bytes: &[u8]) -> [u8; 4]
    ensures { result ≡ told_update bytes.now }
{
    [10, 11, 12, 13].map(|place| byte_at(bytes, place))
}

/// The byte at this index, or 0 if there is none.
fn byte_at(bytes: &[u8], place: usize) -> u8
    ensures { result ≡ slice_index bytes.now place }
{
    bytes.get(place).copied().unwrap_or(0)
}
