//! What a line that passed every check asks, with the card's number and the keys that the checks derived.
ghost use Rattle.std.specs.Prelude.{◌≡◌};
ghost use Rattle.issuer_base.specs.declared.entry.Entry.{Entry};
ghost use Rattle.line_checks.specs.AtHand.{number_of_order, record_of};

use issuer_base::{Command, Entry, Pan, Request};
use key_derive::{LazyKeys, SessionKey};

/// What a line asks of a card that the issuer has.
#[derive(Drop)]
pub enum CheckedLine {
    /// A request is to be decided.
    Decide(CheckedRequest),

    /// An order for a card is to be recorded.
    Order(CheckedOrder),
}

/// An order for a card. The journal records it as it is.
#[derive(Drop)]
pub enum CheckedOrder {
    /// A command is to be queued for the card.
    Command(CheckedCommand),

    /// The card is to have a status.
    Status(CheckedStatus),
}

/// A request that goes online with a known key set and the right cryptogram.
#[derive(Drop)]
pub struct CheckedRequest {
    pub request: Request,

    /// The number of its card.
    pub card: u32,

    /// The card's master keys from the key set that the request names. The one for secure messaging is derived on
    /// demand.
    pub keys: LazyKeys,

    /// The application-cryptogram session key of the request's ATC, for the reply.
    pub session: SessionKey,
}

/// A command for a card.
#[derive(Drop)]
pub struct CheckedCommand {
    /// The card's primary account number.
    pub pan: Pan,

    /// The card's sequence number, two decimal digits.
    pub psn: u8,

    pub command: Command,

    /// The number of the card.
    pub card: u32,
}

/// A status for a card.
#[derive(Drop)]
pub struct CheckedStatus {
    /// The card's primary account number.
    pub pan: Pan,

    /// The card's sequence number, two decimal digits.
    pub psn: u8,

    /// The status, 0 to 9.
    pub status: u8,

    /// The number of the card.
    pub card: u32,
}

impl CheckedOrder {
    /// The number of the card.
    pub fn card(&self) -> u32
        ensures { result ≡ number_of_order self.now }
    {
        match self {
            CheckedOrder::Command(found) => found.card,
            CheckedOrder::Status(found) => found.card,
        }
    }

    /// A copy. It allocates nothing.
    pub fn copy(&self) -> CheckedOrder
        ensures { result ≡ self.now }
    {
        match self {
            CheckedOrder::Command(found) => CheckedOrder::Command(found.copy()),
            CheckedOrder::Status(found) => CheckedOrder::Status(found.copy()),
        }
    }

    /// The record that the order asks for.
    pub fn to_entry(&self) -> Entry
        ensures { result ≡ record_of self.now }
    {
        match self {
            CheckedOrder::Command(found) => found.to_entry(),
            CheckedOrder::Status(found) => found.to_entry(),
        }
    }
}

impl CheckedCommand {
    /// A copy. It allocates nothing.
    fn copy(&self) -> CheckedCommand
        ensures { result ≡ self.now }
    {
        CheckedCommand {
            pan: self.pan,
            psn: self.psn,
            command: self.command.copy(),
            card: self.card,
        }
    }

    /// The record of the command, once it is queued.
    pub fn to_entry(&self) -> Entry
        ensures { result ≡ Entry.Queued self.now.pan self.now.psn self.now.command }
    {
        Entry::Queued {
            pan: self.pan,
            psn: self.psn,
            command: self.command.copy(),
        }
    }
}

impl CheckedStatus {
    /// A copy. It allocates nothing.
    fn copy(&self) -> CheckedStatus
        ensures { result ≡ self.now }
    {
        CheckedStatus {
            pan: self.pan,
            psn: self.psn,
            status: self.status,
            card: self.card,
        }
    }

    /// The record of the status, once it is set.
    pub fn to_entry(&self) -> Entry
        ensures { result ≡ Entry.Status self.now.pan self.now.psn self.now.status }
    {
        Entry::Status {
            pan: self.pan,
            psn: self.psn,
            status: self.status,
        }
    }
}
