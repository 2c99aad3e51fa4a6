//! A run: its steps, one after another, and what it comes to.
ghost use Rattle.std.specs.Prelude.{◌≡◌, ◌*◌, ◌≤◌, length, IfOk};
ghost use Rattle.world_play.specs.Room.{RoomFor, step_room, steps_of};
ghost use Rattle.issuer_base.specs.declared.limits.TheConstants.{MAX_CARDS, MAX_CARD_REQUESTS, MAX_STEPS};
ghost use Rattle.world_play.specs.Genuine.{CountsInOrder};
ghost use Rattle.world_play.specs.Play.{ComesTo};
ghost use Rattle.world_play.specs.Reaching.{IsAt};

use crate::house::House;
use crate::moves::moves_of;
use crate::opening::{new_house, new_players};
use crate::player::Player;
use crate::setting::step_of;
use crate::summary::Summary;
use crate::totals::sum_up;
use issuer_base::NoMemory;
use std::alloc::Global;
use world_net::fate;

/// Plays so many steps of so many cards, and returns its counts, which are in order. The seed shifts the fates of the
/// steps, and is in their unpredictable numbers.
///
/// Returns `NoMemory` if an allocation is refused. The stores' memory is allocated first and suffices for every step,
/// so no store fails. Later only the commands that cards run allocate. The code has two more causes of `NoMemory`: an
/// answer longer than a reply, and more than 2^64 commands that were run.
pub fn play(alloc: Global, cards: u32, steps: u32, seed: u32) -> Result<Summary, NoMemory>
    requires cards { (1 ≤ cards) × (cards ≤ MAX_CARDS) }
    requires steps { steps ≤ MAX_STEPS }
    requires counters { steps ≤ MAX_CARD_REQUESTS * cards }
    ensures comes_to { IfOk result (ComesTo cards steps seed) }
    ensures in_order { IfOk result CountsInOrder }
{
    let mut players = new_players(alloc, cards)?;
    let mut house = new_house(alloc, cards, steps)?;
    let summary = play_on(&mut house, &mut players, cards, steps, seed);
    let House { host, tally: _ } = house;
    host.close();
    summary
}

/// Plays the steps in order, and sums up.
fn play_on(
    house: &mut House,
    players: &mut Vec<Player>,
    cards: u32,
    steps: u32,
    seed: u32,
) -> Result<Summary, NoMemory>
    requires cards { (1 ≤ cards) × (cards ≤ MAX_CARDS) }
    requires steps { steps ≤ MAX_STEPS }
    requires players { length players.old.items ≡ cards }
    requires first { IsAt cards seed 0 house.old players.old.items }
    requires room { RoomFor (λ shard. step_room * steps_of cards shard steps) house.old }
    ensures { IfOk result (ComesTo cards steps seed) }
{
    play_steps(house, players, cards, steps, seed)?;
    sum_up(house, players.as_slice())
}

/// Plays the steps in order.
fn play_steps(
    house: &mut House,
    players: &mut Vec<Player>,
    cards: u32,
    steps: u32,
    seed: u32,
) -> Result<(), NoMemory>
    requires cards { (1 ≤ cards) × (cards ≤ MAX_CARDS) }
    requires steps { steps ≤ MAX_STEPS }
    requires players { length players.old.items ≡ cards }
    requires first { IsAt cards seed 0 house.old players.old.items }
    requires room { RoomFor (λ shard. step_room * steps_of cards shard steps) house.old }
    ensures { IfOk result (λ _. IsAt cards seed steps house.new players.new.items) }
{
    for index in 0..steps {
        let step = step_of(index, cards, seed);
        let moves = moves_of(fate(u64::from(index), cards, seed));
        players[step.card as usize].play(house, &step, moves)?;
    }
    Ok(())
}
