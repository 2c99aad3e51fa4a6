//! The script command that changes a card's PIN, enciphered.

ghost use Rattle.std.specs.Prelude.{◌≡◌, ℕ, List, length, IsTrue};
ghost use Rattle.issuer_base.specs.declared.command.Command.{Command};
ghost use Rattle.issuer_base.specs.ScriptCommand.{is_command};
ghost use Rattle.secure_msg.specs.Pins.{is_pin};
ghost use Rattle.secure_msg.specs.PinChange.{pin_command, SetsPin};

use crate::pin::{Pin, pin_block};
use arrayvec::ArrayVec;
use des_block::Key16;
use issuer_base::{Command, Suite};
use key_derive::session_sm;
use retail_mac::cbc_encipher;

/// The class of a PIN change that the host sends: with secure messaging, whose MAC includes the header.
const CLASS: u8 = 0x84;

/// The instruction PIN change/unblock: EMV 4.3 Book 3, section 6.5.10.
pub const PIN_CHANGE: u8 = 0x24;

/// The first parameter of every PIN change.
pub const FIRST_PARAMETER: u8 = 0x00;

/// The second parameter of a PIN change whose data have the new PIN enciphered, without the current one.
pub const NEW_PIN: u8 = 0x02;

/// The command that changes a card's PIN, for a card with this master key for confidentiality. Its data are R and the
/// PIN block, enciphered under the session key that R gives. Computes the key schedules of both keys.
pub fn pin_command(smc: &Key16, r: [u8; 8], pin: &Pin) -> Command
    ensures exact { result ≡ pin_command smc.now.0 r pin.now }
    ensures sendable { IsTrue (is_command result) }
    ensures sets { SetsPin smc.now.0 result pin.now }
{
    let key = session_sm(Suite::TripleDes, smc, &r);
    let mut enciphered = ArrayVec::new();
    cbc_encipher(&key, &pin_block(pin), &mut enciphered).unwrap();
    let mut body = ArrayVec::new();
    body.try_extend_from_slice(&r).unwrap();
    body.try_extend_from_slice(enciphered.as_slice()).unwrap();
    Command {
        cla: CLASS,
        ins: PIN_CHANGE,
        p1: FIRST_PARAMETER,
        p2: NEW_PIN,
        body,
    }
}

/// A PIN change sets its PIN and no other, and commands have one last PIN at most.
///
/// The contract is a theorem; the function does nothing.
pub fn pin_changes_set_their_pin()
    ensures sets { (smc r pin : List ℕ) → length r ≡ 8 → IsTrue (is_pin pin) → SetsPin smc (pin_command smc r pin) pin }
    ensures one { (smc first second : List ℕ) (command : Command) → SetsPin smc command first
        → SetsPin smc command second
        → first ≡ second }
{}
