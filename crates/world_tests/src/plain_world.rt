//! A model of a world of five cards, two shards and three callers, by plain lists. A decision has its card and counter,
//! a queued command its card, and a status nothing.
ghost use Rattle.std.specs.Prelude.{◌<◌};

use chip_request::read_request;
use issuer_base::{Command, MAX_CHIP_BYTES, MAX_STATUS, MAX_UNDONE, NoMemory, WINDOW, are_decimal};
use issuer_setup::Issuer;
use line_checks::check_request;
use std::alloc::Global;
use world_net::Event;

pub(crate) const CARDS: u32 = 5;

pub(crate) const SHARDS: u8 = 2;

pub(crate) const CALLERS: u8 = 3;

/// The instructions of the host's commands.
const INSTRUCTIONS: [u8; 6] = [0x16, 0x18, 0x1E, 0x24, 0xDA, 0xDC];

/// A transaction counter of the card with this number.
#[derive(Clone, Copy)]
struct Spot {
    card: u32,
    counter: u16,
}

/// A record: a decision, a command for a card, or a status.
#[derive(Clone, Copy)]
enum PlainRecord {
    Decided(Spot),
    Queued(u32),
    Status,
}

/// The records of all shards, each with its shard, in the order in which they were appended; each shard's decision in
/// doubt; each caller's claim; and how many writes were refused since their counters were below the window.
#[derive(Drop)]
pub(crate) struct PlainWorld {
    records: Vec<(u8, PlainRecord)>,
    doubts: [Option<Spot>; SHARDS as usize],
    claims: [Option<Spot>; CALLERS as usize],
    late: u32,
}

impl PlainWorld {
    pub(crate) fn new(alloc: Global) -> PlainWorld {
        PlainWorld {
            records: Vec::new(alloc),
            doubts: [None; SHARDS as usize],
            claims: [None; CALLERS as usize],
            late: 0,
        }
    }

    /// How many records all shards have.
    pub(crate) fn size(&self) -> u64 {
        self.records.len() as u64
    }

    /// How many writes were refused since their counters were below the window.
    pub(crate) fn late(&self) -> u32 {
        self.late
    }

    /// Performs the event if it is allowed, and returns whether it is.
    pub(crate) fn step(&mut self, issuer: &Issuer, event: &Event) -> Result<bool, NoMemory> {
        match event {
            Event::Tap { card, terminal } => Ok(*card < CARDS && are_decimal(&terminal.amount)),
            Event::Claim { caller, bytes } => {
                Ok(self.claim(*caller, asked(issuer, bytes.as_slice())))
            }
            Event::Release { caller } => {
                Ok(self.claims[usize::from(*caller % CALLERS)].take().is_some())
            }
            Event::Write { caller, stored } => self.write(*caller, *stored),
            Event::Send { shard, place } => Ok(self.is_decided(*shard, *place)),
            Event::Authenticate { card, .. } => Ok(*card < CARDS),
            Event::Run { card, .. } => Ok(*card < CARDS),
            Event::Queue { card, command } => self.queue(*card, command),
            Event::Status { card, status } => {
                if *card >= CARDS || *status > MAX_STATUS {
                    return Ok(false);
                }
                self.add(*card, PlainRecord::Status)
            }
            Event::Restart { kept } => self.restart(*kept),
        }
    }

    fn claim(&mut self, caller: u8, asked: Option<Spot>) -> bool {
        let at = usize::from(caller % CALLERS);
        let Some(spot) = asked else {
            return false;
        };
        if self.claims[at].is_some() || self.is_ruled_out(spot, 65_536) {
            return false;
        }
        for claim in self.claims.iter() {
            if matches!(claim, Some(other) if other.card == spot.card && other.counter == spot.counter)
            {
                return false;
            }
        }
        self.claims[at] = asked;
        true
    }

    fn write(&mut self, caller: u8, stored: bool) -> Result<bool, NoMemory> {
        let at = usize::from(caller % CALLERS);
        let Some(spot) = self.claims[at] else {
            return Ok(false);
        };
        if self.is_ruled_out(spot, u32::from(WINDOW)) {
            self.late = self.late.saturating_add(1);
            return Ok(false);
        }
        if stored {
            self.claims[at] = None;
            return self.add(spot.card, PlainRecord::Decided(spot));
        }
        self.doubts[home(spot.card)] = Some(spot);
        Ok(true)
    }

    fn queue(&mut self, card: u32, command: &Command) -> Result<bool, NoMemory> {
        let is_one = command.cla % 16 == 4 && INSTRUCTIONS.contains(&command.ins);
        if card >= CARDS || !is_one || self.commands(card) >= u64::from(MAX_UNDONE) {
            return Ok(false);
        }
        self.add(card, PlainRecord::Queued(card))
    }

    fn restart(&mut self, kept: bool) -> Result<bool, NoMemory> {
        self.claims = [None; CALLERS as usize];
        for shard in 0..usize::from(SHARDS) {
            if let Some(spot) = self.doubts[shard].take() {
                if kept {
                    return self.add(spot.card, PlainRecord::Decided(spot));
                }
                return Ok(true);
            }
        }
        Ok(true)
    }

    /// Appends a record to the shard of this card, and drops the shard's decision in doubt.
    fn add(&mut self, card: u32, record: PlainRecord) -> Result<bool, NoMemory> {
        self.doubts[home(card)] = None;
        self.records.push((home(card) as u8, record))?;
        Ok(true)
    }

    /// Whether a decision of the card is on this counter, or on one that is at least `window` above it.
    fn is_ruled_out(&self, spot: Spot, window: u32) -> bool {
        for (_, record) in self.records.as_slice() {
            if let PlainRecord::Decided(other) = record {
                let far = u32::from(spot.counter).saturating_add(window);
                if other.card == spot.card
                    && (other.counter == spot.counter || far <= u32::from(other.counter))
                {
                    return true;
                }
            }
        }
        false
    }

    /// How many commands were queued for this card. No card runs a command here.
    fn commands(&self, card: u32) -> u64 {
        let mut count = 0_u64;
        for (_, record) in self.records.as_slice() {
            if matches!(record, PlainRecord::Queued(number) if *number == card) {
                count = count.saturating_add(1);
            }
        }
        count
    }

    /// Whether the record at this index of this shard is a decision.
    fn is_decided(&self, shard: u8, place: u64) -> bool {
        let mut left = place;
        for (at, record) in self.records.as_slice() {
            if *at == shard {
                if left == 0 {
                    return matches!(record, PlainRecord::Decided(_));
                }
                left -= 1;
            }
        }
        false
    }
}

/// The number of the card's shard.
fn home(card: u32) -> usize
    ensures { result < SHARDS }
{
    (card % u32::from(SHARDS)) as usize
}

/// The card and counter of the request in chip data, if the issuer decides it.
fn asked(issuer: &Issuer, bytes: &[u8]) -> Option<Spot> {
    if bytes.len() > MAX_CHIP_BYTES {
        return None;
    }
    let request = read_request(bytes).ok()?;
    let found = check_request(issuer, request).ok()?;
    Some(Spot {
        card: found.card,
        counter: found.request.parts().atc,
    })
}
