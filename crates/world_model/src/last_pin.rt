//! The last PIN of a card.
ghost use Rattle.std.specs.Prelude.{◌≡◌, ◌↔◌, ◌<◌, length, slice_get, IsTrue, Some};
ghost use Rattle.card_model.specs.Application.{CardState};
ghost use Rattle.pin_card.specs.LastPin.{IsLastPin};
ghost use Rattle.world_model.specs.FallBack.{IsGenuinelyReached};
ghost use Rattle.world_model.specs.LastPins.{IsLastQueued};

use crate::world::World;
use des_block::Key16;
use pin_card::last_pin;
use secure_msg::Pin;

impl World {
    /// Whether there is a card with this number.
    pub fn has_card(&self, card: u32) -> bool
        ensures { IsTrue result ↔ (card < length self.now.cards) }
    {
        (card as usize) < self.net.cards.len()
    }

    /// The PIN that the last PIN change of those that the card with this number ran sets, if `smc` is the card's master
    /// key for confidentiality; `None` if it ran none. It doesn't allocate.
    pub fn last_pin(&self, card: u32, smc: &Key16) -> Option<Pin>
        requires { card < length self.now.cards }
        ensures last { (state : CardState) → slice_get self.now.cards card ≡ Some state
            → IsLastPin smc.now.0 state.ran result }

        // In a genuine run it is that of the first commands of the card's queue, as many as the card ran.
        ensures genuine { IsGenuinelyReached self.now → IsLastQueued self.now card smc.now.0 result }
    {
        last_pin(smc, self.net.cards[card as usize].ran())
    }
}
