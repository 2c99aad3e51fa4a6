//! The PIN in a block.

ghost use Rattle.std.specs.Prelude.{◌≡◌, ℕ, ◌+◌, ◌<◌, ◌↔◌, List, slice_index, Some, IsTrue};
ghost use Rattle.secure_msg.specs.Pins.{is_pin, pin_block, nibble_at};

use secure_msg::{Pin, pin_block};

/// How many nibbles of a PIN block follow its first two: the digits, and fillers.
const DIGIT_NIBBLES: usize = 14;

/// The PIN whose block of format 2 this is; `None` if it is no such block.
pub(crate) fn pin_in(block: &[u8; 8]) -> Option<Pin>
    ensures { (pin : List ℕ) → (result ≡ Some pin) ↔ (IsTrue (is_pin pin) × (block.now ≡ pin_block pin)) }
{
    let count = usize::from(block[0] % 16);
    if count > DIGIT_NIBBLES {
        return None;
    }
    let pin = Pin::new(&digit_nibbles(block)[..count])?;
    if !is_block_of(block, &pin) {
        return None;
    }
    Some(pin)
}

fn is_block_of(block: &[u8; 8], pin: &Pin) -> bool
    ensures { IsTrue result ↔ (block.now ≡ pin_block pin.now) }
{
    *block == pin_block(pin)
}

/// The nibbles of a block after the first two.
fn digit_nibbles(block: &[u8; 8]) -> [u8; 14]
    ensures { (k : ℕ) → k < DIGIT_NIBBLES → slice_index result k ≡ nibble_at block.now (k + 2) }
{
    let mut nibbles = [0; DIGIT_NIBBLES];
    for (i, nibble) in nibbles.iter_mut().enumerate() {
        *nibble = nibble_at(block, i + 2);
    }
    nibbles
}

/// The nibble at an index of a block, of which that at 0 is the high one of the first byte.
fn nibble_at(block: &[u8; 8], index: usize) -> u8
    requires { index < 16 }
    ensures { result ≡ nibble_at block.now index }
{
    let byte = block[index / 2];
    if index % 2 == 0 { byte / 16 } else { byte % 16 }
}
