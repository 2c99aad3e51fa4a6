//! One step of settlement.
ghost use Rattle.std.specs.Prelude.{◌≡◌};
ghost use Rattle.cvr_settle.specs.Settlement.{settled};

/// The batch in flight: the issuer script commands that the last reply carried to a card.
#[derive(Clone, Copy, PartialEq, Eq)]
pub struct Flight {
    /// The ATC of the request that was replied to.
    pub counter: u16,

    /// How many commands the reply carried, possibly none.
    pub size: u8,
}

/// The settlement of a flight by a card's report.
#[derive(Clone, Copy, PartialEq, Eq, Debug)]
pub enum Settled {
    /// The reply reached the card, which ran so many of its commands, the first ones.
    Ran(u8),

    /// The reply never reached the card, or nothing was in flight.
    Nothing,

    /// The card reports what can't be: no command is sent to it any more.
    Halt,
}

/// Settles the flight of a card whose last online ATC register is `register`, and which ran `count` issuer script
/// commands since then.
pub fn settle(flight: Option<Flight>, register: u16, count: u8) -> Settled
    ensures { result ≡ settled flight register count }
{
    let Some(flight) = flight else {
        return Settled::Nothing;
    };
    if register == flight.counter && count <= flight.size {
        return Settled::Ran(count);
    }
    if register < flight.counter {
        return Settled::Nothing;
    }
    Settled::Halt
}
