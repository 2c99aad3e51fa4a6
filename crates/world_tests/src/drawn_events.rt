//! Events drawn from a generator with a fixed seed. A deck's own cards make the requests that callers claim.
ghost use Rattle.std.specs.Prelude.{◌≤◌, ◌<◌};

use crate::plain_world::{CALLERS, CARDS, SHARDS};
use crate::restarts::PURCHASE;
use arrayvec::ArrayVec;
use card_model::Card;
use issuer_base::{Command, MAX_CHIP_BYTES, NoMemory, Suite, are_decimal};
use key_derive::card_keys;
use sample_issuer::{SampleCard, card, key_set};
use std::alloc::Global;
use terminal_kernel::request_objects;
use world_net::Event;

/// The source of the events: the state of a linear congruential generator, cards, and the chip data of the requests
/// that they made.
#[derive(Drop)]
pub(crate) struct Deck {
    state: u64,
    cards: Vec<Card>,
    requests: Vec<ArrayVec<u8, MAX_CHIP_BYTES>>,
}

impl Deck {
    /// A deck with these cards, of this suite.
    #[tactic(auto, unfolding(issuer_base::specs::ChipData::is_bcd))]
    pub(crate) fn new(alloc: Global, names: &[SampleCard], suite: Suite) -> Result<Deck, NoMemory> {
        let mut cards = Vec::new(alloc);
        for (last, method) in names {
            let Some(info) = card(*last, *method) else {
                continue;
            };
            if let Some(keys) = card_keys(&key_set(), suite, &info.pan, 0x00) {
                cards.push(Card::new(alloc, info.pan, 0x00, 0x01, info.method, keys))?;
            }
        }
        Ok(Deck {
            state: 20_260_115,
            cards,
            requests: Vec::new(alloc),
        })
    }

    /// An event, allowed or not, for a world with this many records.
    pub(crate) fn draw(&mut self, records: u64) -> Result<Event, NoMemory> {
        match self.below(44) {
            0..=15 => self.tap(),
            16..=23 => Ok(self.claim()),
            24 => Ok(Event::Release {
                caller: self.below(u32::from(CALLERS)) as u8,
            }),
            25..=32 => Ok(Event::Write {
                caller: self.below(u32::from(CALLERS)) as u8,
                stored: self.below(4) > 0,
            }),
            33..=36 => Ok(Event::Send {
                shard: self.below(u32::from(SHARDS) + 1) as u8,
                place: u64::from(self.below(6_000)) % (records / 2 + 1),
            }),
            37 => Ok(Event::Authenticate {
                card: self.card(),
                value91: ArrayVec::new(),
                arc: [0x30, 0x30],
            }),
            38 => Ok(Event::Run {
                card: self.card(),
                bytes: ArrayVec::new(),
            }),
            39..=41 => Ok(self.queue()),
            42 => Ok(Event::Status {
                card: self.card(),
                status: self.below(12) as u8,
            }),
            _ => Ok(Event::Restart {
                kept: self.below(2) == 0,
            }),
        }
    }

    /// A number below the limit.
    fn below(&mut self, limit: u32) -> u32
        requires { 1 ≤ limit }
        ensures { result < limit }
    {
        self.state = self
            .state
            .wrapping_mul(6_364_136_223_846_793_005)
            .wrapping_add(1_442_695_040_888_963_407);
        (self.state >> 33) as u32 % limit
    }

    /// The number of a card, or one past the last.
    fn card(&mut self) -> u32 {
        self.below(CARDS + 1)
    }

    /// A tap, which the deck's own card performs too.
    fn tap(&mut self) -> Result<Event, NoMemory> {
        let card = self.card();
        let mut terminal = PURCHASE;
        terminal.amount[2] = self.below(10) as u8;
        if self.below(16) == 0 {
            terminal.amount[5] = 0x0A;
        }
        if are_decimal(&terminal.amount) {
            if let Some(known) = self.cards.get_mut(card as usize) {
                if let Some(request) = known.tap(&terminal) {
                    self.requests.push(request_objects(&request))?;
                }
            }
        }
        Ok(Event::Tap { card, terminal })
    }

    /// A claim of one of the last three requests or of any request. Its chip data may have a wrong byte.
    fn claim(&mut self) -> Event {
        let caller = self.below(u32::from(CALLERS)) as u8;
        let most = if self.below(4) == 0 { 10_000 } else { 3 };
        let count = self.requests.len();
        let back = (self.below(most) as usize + 1) % (count + 1);
        let mut bytes = ArrayVec::new();
        if let Some(known) = self.requests.get(count.saturating_sub(back)) {
            bytes = ArrayVec::try_from(known.as_slice()).unwrap_or_default();
        }
        if self.below(6) == 0 {
            let place = self.below(125) as usize;
            let change = self.below(256) as u8;
            if let Some(byte) = bytes.as_mut_slice().get_mut(place) {
                *byte ^= change;
            }
        }
        Event::Claim { caller, bytes }
    }

    /// A command, sometimes one that the host doesn't send.
    fn queue(&mut self) -> Event {
        let card = self.card();
        let cla = if self.below(8) == 0 { 0x80 } else { 0x84 };
        let p2 = self.below(256) as u8;
        Event::Queue {
            card,
            command: Command {
                cla,
                ins: 0xDA,
                p1: 0x00,
                p2,
                body: ArrayVec::new(),
            },
        }
    }
}
