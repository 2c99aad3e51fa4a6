//! What a PIN change sets on a card.

ghost use Rattle.std.specs.Prelude.{◌≡◌, ◌≢◌, ℕ, ◌↔◌, List, length, Some, MatchOption};
ghost use Rattle.secure_msg.specs.PinChange.{SetsPin};
ghost use Rattle.pin_card.specs.LastPin.{is_pin_change, IsLastPin};

use crate::block::pin_in;
use arrayvec::ArrayVec;
use des_block::Key16;
use issuer_base::{Command, Suite};
use key_derive::session_sm;
use retail_mac::cbc_open;
use secure_msg::{FIRST_PARAMETER, NEW_PIN, PIN_CHANGE, Pin};

/// How many bytes the data of a PIN change have: R, and the enciphered block with its padding.
const PIN_BODY_BYTES: usize = 8 + 16;

/// The PIN that a command sets on a card with this master key for confidentiality, whatever the command's class; `None`
/// if it sets none.
pub fn read_pin(smc: &Key16, command: &Command) -> Option<Pin>
    ensures { (pin : List ℕ) → (result ≡ Some pin) ↔ SetsPin smc.now.0 command.now pin }
{
    if !is_pin_change(command) {
        return None;
    }
    let (first, enciphered) = command.body.as_slice().split_at(8);
    let mut r = [0; 8];
    r.copy_from_slice(first);
    let key = session_sm(Suite::TripleDes, smc, &r);
    let mut block = ArrayVec::new();
    if !cbc_open(&key, enciphered, &mut block) {
        return None;
    }
    pin_in(&eight_of(block.as_slice())?)
}

/// The bytes, if there are eight.
fn eight_of(bytes: &[u8]) -> Option<[u8; 8]>
    ensures { MatchOption result (length bytes.now ≢ 8) (λ eight. eight ≡ bytes.now) }
{
    let [a, b, c, d, e, f, g, h] = *bytes else {
        return None;
    };
    Some([a, b, c, d, e, f, g, h])
}

/// Whether the command has the header and the length of a PIN change.
fn is_pin_change(command: &Command) -> bool
    ensures { result ≡ is_pin_change command.now }
{
    command.ins == PIN_CHANGE
        && command.p1 == FIRST_PARAMETER
        && command.p2 == NEW_PIN
        && command.body.len() == PIN_BODY_BYTES
}

/// The PIN that the last PIN change of these commands sets on a card with this master key for confidentiality; `None`
/// if no command sets one.
pub fn last_pin(smc: &Key16, commands: &[Command]) -> Option<Pin>
    ensures { IsLastPin smc.now.0 commands.now result }
{
    let mut last = None;
    for command in commands {
        let set = read_pin(smc, command);
        if set.is_some() {
            last = set;
        }
    }
    last
}
