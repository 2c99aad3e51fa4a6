//! A card, and its three steps.

ghost use Rattle.std.specs.Prelude.{◌≡◌, ◌<◌, ◌↔◌, ◌&&◌, nat_le, length, take, drop, IsNone, IsTrue, IfNone, IfOk};
ghost use Rattle.std.specs.Prelude.{IfSome, OnErr, OnSome};
ghost use Rattle.std.specs.Bool.{OnFalse};
ghost use Rattle.std.specs.List.{list_all};
ghost use Rattle.std.specs.Str.{bytes_eq};
ghost use Rattle.issuer_base.specs.ChipData.{is_bcd};
ghost use Rattle.arpc_methods.specs.Arpc.{value91};
ghost use Rattle.cryptogram_in.specs.Cryptogram.{application_cryptogram};
ghost use Rattle.card_model.specs.Application.{script_results, core_identifier, application_data, next_fields, next_request};
ghost use Rattle.card_model.specs.CardSteps.{CardStep, Tap, Authenticate, Run, new_card, opened_within};

use crate::terminal::Terminal;
use arpc_methods::value91;
use cryptogram_in::expected;
use des_block::Key16;
use issuer_base::{Command, Method, NoMemory, Pan, Parts, Request, Suite};
use key_derive::{CardKeys, SessionKey, session_sm};
use secure_msg::unseal;
use std::alloc::Global;
use std::marker::Model;

/// The last ATC: a card that reached it makes no more requests.
pub const LAST_COUNTER: u16 = 65_535;

/// How many issuer script commands the card verification results can count.
pub const MOST_COUNTED: u8 = 15;

/// The application interchange profile of every card, tag 82: DDA, cardholder verification, terminal risk management
/// and CDA. EMV 4.3 Book 3, Annex C1.
const PROFILE: [u8; 2] = [0x39, 0x00];

/// The cryptogram information data of an ARQC, a request to go online.
const ARQC: u8 = 0x80;

/// The bit of the card verification results that is set if an issuer script command was refused.
const SCRIPT_FAILED: u8 = 0x08;

/// A chip card of either suite.
///
/// A contract sees its `CardState`: what it was issued with, its counters, its open transaction, and the commands that
/// it ran.
#[derive(Drop)]
pub struct Card {
    pan: Pan,
    psn: u8,
    dki: u8,
    method: Method,
    keys: CardKeys,
    atc: u16,
    register: u16,
    count: u8,
    failed: bool,
    open_request: Option<Request>,
    chain: Option<[u8; 8]>,
    ran: Vec<Command>,
}

impl Model for Card {
    ghost use Rattle.std.specs.Prelude.{IsTrue, ◌≤◌};
    ghost use Rattle.issuer_base.specs.ChipData.{is_bcd};
    ghost use Rattle.card_model.specs.declared.card.TheConstants.{MOST_COUNTED};
    ghost use Rattle.card_model.specs.Application.{CardState};

    ghost Value = { CardState };

    ghost view = { λ card. record {
      pan = card.pan;
      psn = card.psn;
      dki = card.dki;
      method = card.method;
      keys = card.keys;
      atc = card.atc;
      register = card.register;
      count = card.count;
      failed = card.failed;
      open_request = card.open_request;
      chain = card.chain;
      ran = card.ran.items;
    } };

    ghost invariant = { λ card. IsTrue (is_bcd card.psn) × (card.count ≤ MOST_COUNTED) };
}

impl Card {
    /// A new card: its counters are 0, no transaction is open, and it ran no command. Each `run` allocates from
    /// `alloc`.
    #[tactic(auto, unfolding(crate::specs::CardSteps::new_card))]
    pub fn new(alloc: Global, pan: Pan, psn: u8, dki: u8, method: Method, keys: CardKeys) -> Card
        requires { IsTrue (is_bcd psn) }
        ensures { result ≡ new_card pan psn dki method keys }
    {
        Card {
            pan,
            psn,
            dki,
            method,
            keys,
            atc: 0,
            register: 0,
            count: 0,
            failed: false,
            open_request: None,
            chain: None,
            ran: Vec::new(alloc),
        }
    }

    /// A tap at a terminal: the card increments its ATC, closes any open transaction, and opens a request to go online
    /// with its application cryptogram. `None` if the card is at its last ATC, and then it stays as it was.
    pub fn tap(&mut self, terminal: &Terminal) -> Option<Request>
        requires { IsTrue (list_all is_bcd terminal.now.amount) }
        ensures step { CardStep self.old (Tap terminal.now result) self.new }
        ensures last { IsNone result ↔ (self.old.atc ≡ LAST_COUNTER) }
        ensures unchanged { IfNone result (self.new ≡ self.old) }
        ensures has_valid_ac { IfSome result (λ request. request.ac
            ≡ application_cryptogram self.old.keys request) }
    {
        if self.atc == LAST_COUNTER {
            return None;
        }
        let request = self.next_request(terminal);
        self.atc += 1;
        self.open_request = Some(request);
        self.chain = None;
        Some(request)
    }

    /// Checks the issuer's answer to the open request: the value of tag 91, and the response code. Returns whether the
    /// card accepts it; the card accepts one answer to a request. If it doesn't, it stays as it was.
    pub fn authenticate(&mut self, value91: &[u8], arc: [u8; 2]) -> bool
        ensures step { CardStep self.old (Authenticate value91.now arc result) self.new }
        ensures unchanged { OnFalse result (self.new ≡ self.old) }
    {
        let Some(request) = &self.open_request else {
            return false;
        };
        if self.chain.is_some() {
            return false;
        }
        let parts = request.parts();
        let ac = parts.ac;
        let session = SessionKey::for_cryptograms(&self.keys, parts.atc);
        if !is_answer(self.method, &session, &ac, value91, arc) {
            return false;
        }
        self.register = self.atc;
        self.count = 0;
        self.failed = false;
        self.chain = Some(ac);
        true
    }

    /// Receives a sealed issuer script command. Returns whether the card ran it: it runs what was sealed at its chain,
    /// in a transaction that was authenticated, and no more commands than it can count. If memory runs out the card
    /// stays as it was.
    pub fn run(&mut self, bytes: &[u8]) -> Result<bool, NoMemory>
        ensures step { IfOk result (λ answer. CardStep self.old (Run bytes.now answer) self.new) }
        ensures unchanged { OnErr result (self.new ≡ self.old) }
    {
        self.ran.reserve(1)?;
        let Some(request) = &self.open_request else {
            return Ok(false);
        };
        let Some(chain) = self.chain else {
            return Ok(false);
        };
        let suite = self.keys.suite;
        let key = session_sm(suite, &self.keys.smi, &request.parts().ac);
        let Some(opened) = opened_within(self.count, suite, &key, &chain, bytes) else {
            self.failed = true;
            return Ok(false);
        };
        let (command, next) = opened;
        self.count += 1;
        self.chain = Some(next);
        self.ran.push_reserved(command);
        Ok(true)
    }

    /// The commands that the card ran, the first at 0.
    pub fn ran(&self) -> &[Command]
        ensures { result.now ≡ self.now.ran }
    {
        self.ran.as_slice()
    }

    /// The request of the next transaction.
    fn next_request(&self, terminal: &Terminal) -> Request
        requires counted { self.now.atc < LAST_COUNTER }
        requires decimal { IsTrue (list_all is_bcd terminal.now.amount) }
        ensures exact { result ≡ next_request self.now terminal.now }
        ensures has_valid_ac { result.ac ≡ application_cryptogram self.now.keys result }
    {
        let keys = self.keys;
        let unsigned = Request::new(self.next_fields(terminal)).unwrap();
        let mut parts = *unsigned.parts();
        let session = SessionKey::for_cryptograms(&keys, parts.atc);
        parts.ac = expected(&session, &unsigned);
        Request::new(parts).unwrap()
    }

    /// The fields of the next request, with zeros for the cryptogram.
    #[tactic(auto, unfolding(crate::specs::Application::next_fields))]
    fn next_fields(&self, terminal: &Terminal) -> Parts
        requires { self.now.atc < LAST_COUNTER }
        ensures { result ≡ next_fields self.now terminal.now }
    {
        Parts {
            pan: self.pan,
            psn: self.psn,
            aip: PROFILE,
            atc: self.atc + 1,
            tvr: terminal.tvr,
            date: terminal.date,
            kind: terminal.kind,
            amount: terminal.amount,
            other: terminal.other,
            country: terminal.country,
            currency: terminal.currency,
            un: terminal.un,
            cid: ARQC,
            iad: self.application_data(),
            ac: [0; 8],
        }
    }

    /// The issuer application data of a card that requests to go online: this project's profile.
    fn application_data(&self) -> [u8; 32]
        ensures { result ≡ application_data self.now }
    {
        let identifier = core_identifier(self.keys.suite);
        let results = self.script_results();
        let [high, low] = self.register.to_be_bytes();
        [
            0x0F, identifier, self.dki, 0xA0, 0, 0, results, 0, 0, 0, 0, 0, 0, 0, 0, 0, 0x0F, high,
            low, 0, 0, 0, 0, 0, 0, 0, 0, 0, 0, 0, 0, 0,
        ]
    }

    /// Byte 4 of the card verification results: how many issuer script commands were run, and whether one was refused.
    #[tactic(auto, unfolding(crate::specs::Application::script_results))]
    fn script_results(&self) -> u8
        ensures { result ≡ script_results self.now }
    {
        let failed = if self.failed { SCRIPT_FAILED } else { 0 };
        16 * self.count + failed
    }
}

/// The common core identifier of a card of this suite.
#[tactic(auto, unfolding(crate::specs::Application::core_identifier))]
fn core_identifier(suite: Suite) -> u8
    ensures { result ≡ core_identifier suite }
{
    match suite {
        Suite::TripleDes => 0xA5,
        Suite::Aes => 0xA6,
    }
}

/// Whether this is the value of tag 91 for a cryptogram under this session key: with this response code or, by method
/// 2, with the card status update that the value has after its first four bytes.
fn is_answer(method: Method, session: &SessionKey, ac: &[u8; 8], value: &[u8], arc: [u8; 2]) -> bool
    ensures { result ≡ (nat_le 8 (length value.now) && bytes_eq value.now
        (value91 session.now.suite method session.now.key ac.now arc (take 4 (drop 4 value.now)))) }
{
    let [_, _, _, _, a, b, c, d, ..] = *value else {
        return false;
    };
    let (suite, key) = (session.suite(), session.key());
    let expected = value91(suite, method, key, ac, arc, [a, b, c, d]);
    value == expected.as_slice()
}

/// The command that these bytes open to, and the next chain, if one more command can be counted.
#[tactic(auto, unfolding(crate::specs::CardSteps::opened_within))]
fn opened_within(
    count: u8,
    suite: Suite,
    key: &Key16,
    chain: &[u8; 8],
    bytes: &[u8],
) -> Option<(Command, [u8; 8])>
    ensures exact { result ≡ opened_within count suite key.now.0 chain.now bytes.now }
    ensures counted { OnSome result (count < MOST_COUNTED) }
{
    if count >= MOST_COUNTED {
        return None;
    }
    unseal(suite, key, chain, bytes)
}
