//! A card whose PIN its issuer can change.

ghost use Rattle.std.specs.Prelude.{◌≡◌, ◌↔◌, ℕ, List, [], ◌∷◌, ◌++◌, Some, IsNone, IsTrue, IfNone, IfOk, IfSome, OnErr};
ghost use Rattle.std.specs.Bool.{OnFalse};
ghost use Rattle.std.specs.List.{list_all};
ghost use Rattle.std.specs.Option.{option_map};
ghost use Rattle.issuer_base.specs.declared.command.Command.{Command};
ghost use Rattle.issuer_base.specs.ChipData.{is_bcd};
ghost use Rattle.cryptogram_in.specs.Cryptogram.{application_cryptogram};
ghost use Rattle.secure_msg.specs.PinChange.{SetsPin};
ghost use Rattle.pin_card.specs.LastPin.{IsLastPin};
ghost use Rattle.card_model.specs.CardSteps.{CardStep, Tap, Authenticate, Run};

use crate::reading::read_pin;
use card_model::{Card, LAST_COUNTER, Terminal};
use des_block::Key16;
use issuer_base::{Command, NoMemory, Request};
use secure_msg::Pin;
use std::marker::Model;

/// A card with a master key for secure messaging for confidentiality: it sets its PIN by the PIN changes that it runs.
///
/// A contract sees the card and the key. The PIN is that of the last PIN change of the commands that the card ran, at
/// all times.
#[derive(Drop)]
pub struct PinCard {
    card: Card,
    smc: Key16,
    pin: Option<Pin>,
}

impl Model for PinCard {
    ghost use Rattle.pin_card.specs.LastPin.{IsLastPin};
    ghost use Rattle.pin_card.specs.PinCards.{PinCardState};

    ghost Value = { PinCardState };

    ghost view = { λ pinned. record { card = pinned.card; smc = pinned.smc.0 } };

    ghost invariant = { λ pinned. IsLastPin pinned.smc.0 pinned.card.ran pinned.pin };
}

impl PinCard {
    /// A card that ran no command yet, with this master key for confidentiality. It has no PIN.
    pub fn new(card: Card, smc: Key16) -> PinCard
        requires { card.ran ≡ [] }
        ensures { result ≡ record { card = card; smc = smc.0 } }
    {
        PinCard {
            card,
            smc,
            pin: None,
        }
    }

    /// A tap at a terminal, as [`Card::tap`].
    pub fn tap(&mut self, terminal: &Terminal) -> Option<Request>
        requires { IsTrue (list_all is_bcd terminal.now.amount) }
        ensures step { CardStep self.old.card (Tap terminal.now result) self.new.card }
        ensures last { IsNone result ↔ (self.old.card.atc ≡ LAST_COUNTER) }
        ensures unchanged { IfNone result (self.new ≡ self.old) }
        ensures has_valid_ac { IfSome result (λ request. request.ac
            ≡ application_cryptogram self.old.card.keys request) }
        ensures key { self.new.smc ≡ self.old.smc }
    {
        self.card.tap(terminal)
    }

    /// Checks the issuer's answer to the open request, as [`Card::authenticate`].
    pub fn authenticate(&mut self, value91: &[u8], arc: [u8; 2]) -> bool
        ensures step { CardStep self.old.card (Authenticate value91.now arc result) self.new.card }
        ensures unchanged { OnFalse result (self.new ≡ self.old) }
        ensures key { self.new.smc ≡ self.old.smc }
    {
        self.card.authenticate(value91, arc)
    }

    /// Receives a sealed issuer script command, as [`Card::run`], and sets the PIN if it ran a PIN change. If memory
    /// runs out the card stays as it was.
    pub fn run(&mut self, bytes: &[u8]) -> Result<bool, NoMemory>
        ensures step { IfOk result (λ answer. CardStep self.old.card (Run bytes.now answer) self.new.card) }
        ensures unchanged { OnErr result (self.new ≡ self.old) }
        ensures key { self.new.smc ≡ self.old.smc }
    {
        if !self.card.run(bytes)? {
            return Ok(false);
        }
        if let Some(pin) = last_set(&self.smc, self.card.ran()) {
            self.pin = Some(pin);
        }
        Ok(true)
    }

    /// The commands that the card ran, the first at 0.
    pub fn ran(&self) -> &[Command]
        ensures { result.now ≡ self.now.card.ran }
    {
        self.card.ran()
    }

    /// The PIN that the last PIN change set; `None` if the card ran none.
    pub fn pin(&self) -> Option<&Pin>
        ensures { IsLastPin self.now.smc self.now.card.ran (option_map (λ pin. pin.now) result) }
    {
        self.pin.as_ref()
    }
}

/// The PIN that the last of these commands sets.
fn last_set(smc: &Key16, ran: &[Command]) -> Option<Pin>
    ensures { (earlier : List Command) (command : Command) (pin : List ℕ) → ran.now ≡ earlier ++ command ∷ []
        → (result ≡ Some pin) ↔ SetsPin smc.now.0 command pin }
{
    read_pin(smc, ran.last()?)
}
