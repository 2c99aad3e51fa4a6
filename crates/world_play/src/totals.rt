//! What host and cards report at the end of a run.
ghost use Rattle.std.specs.Prelude.{◌≡◌, ℕ, ◌<◌, List, length, sum_by, IfOk};
ghost use Rattle.host_loading.specs.Books.{ShardBook};
ghost use Rattle.host_loading.specs.Hosts.{Stand};
ghost use Rattle.world_play.specs.Play.{ComesTo, one_if, shown};
ghost use Rattle.world_play.specs.Reaching.{IsAt};

use crate::house::House;
use crate::player::Player;
use crate::summary::Summary;
use issuer_base::NoMemory;
use one_caller::Solo;
use store_edge::RoomStore;

/// The counts at the end: those so far, and what host and cards report then.
pub(crate) fn sum_up(house: &House, players: &[Player]) -> Result<Summary, NoMemory>
    requires { 0 < house.now.host.issuer.shards }
    ensures { IfOk result (λ summary. (cards steps seed : ℕ) → IsAt cards seed steps house.now players.now
        → ComesTo cards steps seed summary) }
{
    let Shown { done, halted } = count_shown(&house.host);
    let ran = count_ran(players)?;
    Ok(Summary {
        done,
        ran,
        halted,
        ..house.tally
    })
}

/// What a host shows, over all cards.
struct Shown {
    /// How many commands are done.
    done: u64,

    /// How many cards are halted.
    halted: u64,
}

/// Counts what the host shows of its cards.
fn count_shown(host: &Solo<RoomStore>) -> Shown
    requires { 0 < host.now.issuer.shards }
    ensures done { (books : List ShardBook) → Stand host.now.issuer host.now.shards.items books
        → result.done ≡ sum_by (λ info. (shown host.now.issuer books info).done) host.now.issuer.cards }
    ensures halted { (books : List ShardBook) → Stand host.now.issuer host.now.shards.items books
        → result.halted ≡ sum_by (λ info. one_if (shown host.now.issuer books info).halted) host.now.issuer.cards }
{
    let mut counts = Shown { done: 0, halted: 0 };
    for number in 0..host.issuer().cards() {
        let view = host.show(number);
        counts.done += u64::from(view.done);
        counts.halted += one_if(view.halted);
    }
    counts
}

fn one_if(so: bool) -> u64
    ensures { result ≡ one_if so }
{
    if so { 1 } else { 0 }
}

/// Counts what the cards ran.
fn count_ran(players: &[Player]) -> Result<u64, NoMemory>
    ensures { IfOk result (λ ran. ran ≡ sum_by (λ player. length player.card.ran) players.now) }
{
    let mut total: u64 = 0;
    for player in players {
        let ran = player.card.ran().len() as u64;
        total = total.checked_add(ran).ok_or(NoMemory)?;
    }
    Ok(total)
}
