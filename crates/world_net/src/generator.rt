//! The generator of a large run: the fate of each step.
ghost use Rattle.std.specs.Prelude.{◌≡◌, ◌≤◌};
ghost use Rattle.world_net.specs.Fate.{fate_of};

/// The fate, 0 to 7, of step `index`, from 0, of a run with `cards` cards and this seed.
pub fn fate(index: u64, cards: u32, seed: u32) -> u8
    requires { 1 ≤ cards }
    ensures { result ≡ fate_of index cards seed }
{
    let round = index / u64::from(cards);
    let card = index % u64::from(cards);
    ((round % 8 + card % 8 + u64::from(seed) % 8) % 8) as u8
}
