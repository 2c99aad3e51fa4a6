//! What the host answers: replies, answers and refusals.
ghost use Rattle.std.specs.Prelude.{◌≡◌, ◌↔◌, IsTrue};

use crate::limits::MAX_REPLY_BYTES;
use arrayvec::ArrayVec;

/// What the host answers to a request that it decided.
#[derive(PartialEq, Eq, Drop)]
pub struct Reply {
    /// The authorisation response code, tag 8A.
    pub arc: [u8; 2],

    /// Whether the issuer approves.
    pub approve: bool,

    /// What goes to the card: tag 8A, tag 91 and the script template, where there is one.
    pub bytes: ArrayVec<u8, MAX_REPLY_BYTES>,
}

impl Reply {
    /// A copy. It allocates nothing.
    pub fn copy(&self) -> Reply
        ensures { result ≡ self.now }
    {
        let mut reply = Reply {
            arc: self.arc,
            approve: self.approve,
            bytes: ArrayVec::new(),
        };
        reply
            .bytes
            .try_extend_from_slice(self.bytes.as_slice())
            .unwrap();
        reply
    }

    /// Whether the two are the same, as `==` is.
    pub fn is_same(&self, other: &Reply) -> bool
        ensures { IsTrue result ↔ (self.now ≡ other.now) }
    {
        self == other
    }
}

/// How the ARPC is computed: EMV 4.3 Book 2, section 8.2.
#[derive(Clone, Copy)]
pub enum Method {
    /// Method 1: the application cryptogram and the response code, enciphered.
    One,

    /// Method 2: a MAC of the application cryptogram and the card status update.
    Two,
}

/// How a card's master key is derived: EMV 4.3 Book 2, Annex A1.4.
#[derive(Clone, Copy)]
pub enum MasterOption {
    /// Option A: from the rightmost sixteen digits.
    A,

    /// Option B: an account number of more than sixteen digits is hashed.
    B,
}

/// The answer to one line of the host's input.
#[derive(PartialEq, Eq, Drop)]
pub enum Answer {
    /// The request was decided now. Its record is at this index of this shard's journal.
    Fresh { shard: u8, place: u64, reply: Reply },

    /// The same request was decided before. Its record and stored reply are at this index of this shard's journal.
    Kept { shard: u8, place: u64, reply: Reply },

    /// The command is queued for the card. Its record is at this index of this shard's journal.
    Queued { shard: u8, place: u64 },

    /// The card has the status. Its record is at this index of this shard's journal.
    Set { shard: u8, place: u64 },

    /// Nothing was decided, queued or set.
    Refused(Refusal),
}

/// Why a line was refused, and who is to blame.
#[derive(Clone, Copy, PartialEq, Eq)]
pub enum Refusal {
    /// The line has none of the forms of a line, from this column on: whoever wrote the line is to blame.
    BadLine(u32),

    /// The chip data aren't a sequence of data objects, from this byte on: whoever sent them is to blame.
    BadTlv(u32),

    /// The chip data lack the object with this tag: whoever sent them left it out.
    Missing(u32),

    /// The object with this tag has a length or a value that its field can't have: whoever sent it is to blame.
    BadField(u32),

    /// The object with this tag occurs twice: whoever sent the chip data is to blame.
    Repeated(u32),

    /// The configuration has no card with this account and sequence number: the request went to the wrong
    /// issuer, or the configuration lacks a card.
    UnknownCard,

    /// The cryptogram isn't an ARQC: the terminal sent online what the card didn't ask for.
    NotArqc,

    /// No key set with this derivation key index has keys of the request's suite: the card is of another issuer, or the
    /// configuration lacks a key set or its AES keys.
    UnknownKey(u8),

    /// The cryptogram isn't that of these fields under the card's key: a field was altered, or the card is forged.
    BadCryptogram,

    /// The ATC is below the window of the card, whose greatest recorded ATC is this one: the request is
    /// too old to be decided.
    Below(u16),

    /// Another request with this card's ATC was decided. Its record is at this index of this shard's
    /// journal: the card or the sender used an ATC twice.
    Taken { shard: u8, place: u64 },

    /// Another caller holds this card's ATC and hasn't recorded it yet: nobody is to blame, and the
    /// sender may retry.
    Pending,

    /// The card's command queue is full: the operator has to wait until the card takes some.
    QueueFull,

    /// The bytes are no issuer script command that the host sends: whoever queued it is to blame.
    BadCommand,

    /// The store failed, and the record is in doubt: the store is to blame.
    StoreFault,
}
