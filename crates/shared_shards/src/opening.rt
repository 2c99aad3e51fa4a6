//! The logs that shards open with. They exist in proofs alone, so a mark of no bytes shows them.
ghost use Rattle.std.specs.Prelude.{◌≡◌, ◌<◌, ◌≤◌, List, [], length, map, vec_len, true, IfOk, IfErr};
ghost use Rattle.issuer_base.specs.declared.limits.TheConstants.{MAX_SHARDS};
ghost use Rattle.turn_book.specs.declared.logs.Log.{Log};
ghost use Rattle.shared_shards.specs.declared.logs.LogItem.{LogItem};
ghost use Rattle.shared_shards.specs.declared.logs.LogHead.{LogHead};
ghost use Rattle.turn_book.specs.Logs.{StandFor};
ghost use Rattle.turn_book.specs.Seats.{opening_of, view_of, IsOf};
ghost use Rattle.turn_book.specs.TurnViews.{first_view};
ghost use Rattle.shared_shards.specs.ShardLogs.{StandsForLog};
ghost use Rattle.shared_shards.specs.Opening.{AreJustLoaded, AreOpeningLogs};
ghost use Rattle.shared_shards.specs.ShardSeats.{opening_in, IsSeatOf};

use crate::lists::{Lists, release_all};
use crate::locked_shard::LockedShard;
use crate::logs::{LogHead, LogItem};
use crate::turns::{ShardSeat, ShardTurns};
use atomic_table::{Mark, PerchPlay, PerchRule, RuledPerch, Table, TableRule};
use issuer_base::{MAX_SHARDS, Store};
use issuer_setup::Issuer;
use shard_book::Shard;
use std::alloc::{AllocError, Global};
use std::collections::LinkedList;
use std::marker::{Brand, PhantomData};
use std::snapshot::Snapshot;
use std::sync::Mutex;
use turn_book::{Log, OpeningLogs, TurnSeat, Turns};

/// The log of each shard.
pub(crate) type Logs = LinkedList<Log<LogItem, LogHead>>;

/// Which logs shards may open with. A caller passes `Brand`, and its proof picks it.
pub(crate) trait MayOpen {
    // Whether the shards may open with these logs.
    ghost may_open: { List (Log LogItem LogHead) → Type 0 };
}

impl MayOpen for Brand {
    ghost may_open = { λ _. Unit {0} };
}

/// The rule of a table of which nothing is asked.
struct Anything;

impl TableRule<(), (), ()> for Anything {
    ghost holds = { λ _ _. Unit {0} };

    ghost first = { λ _. tt };
}

/// There are logs that the shards may open with, and a step shows them.
struct Shows<J>(PhantomData<J>);

impl<J: MayOpen> PerchRule<Logs> for Shows<J> {
    ghost holds = { λ _ _. (logs : List (Log LogItem LogHead)) × J.may_open logs };

    ghost first = { [] };
}

impl<J: MayOpen> PerchPlay<Logs> for Shows<J> {
    ghost then = { λ _ _ _ _ after. J.may_open after };
}

/// A mark that shows logs with which shards may open, where there are any. It allocates for a moment.
fn shown<J: MayOpen, S: Store>(
    alloc: Global,
    issuer: &Issuer,
    olds: &Snapshot<Vec<S>>,
    stores: &Snapshot<Vec<S>>,
    shards: &Vec<Shard<S>>,
) -> Result<Mark<Logs>, AllocError>
    requires { (logs : List (Log LogItem LogHead)) × J.may_open logs }
    ensures { IfOk result (λ mark. J.may_open mark.view) }
{
    let _ = issuer;
    let _ = olds;
    let _ = stores;
    let _ = shards;
    let (_table, seat) = Table::<(), (), (), Anything, Global>::of_words(alloc, &[], &())?;
    let (perch, mut mark) = RuledPerch::<(), (), Logs, Shows<J>>::new(&seat, 0);
    perch.load::<Shows<J>>(&mut mark);
    Ok(mark)
}

/// A mark that shows the opening logs of shards that were loaded.
pub(crate) fn opening_logs<S: Store>(
    alloc: Global,
    issuer: &Issuer,
    olds: &Snapshot<Vec<S>>,
    stores: &Snapshot<Vec<S>>,
    shards: &Vec<Shard<S>>,
) -> Result<Mark<Logs>, AllocError>
    requires { AreJustLoaded issuer.now olds.now.value.items stores.now.value.items shards.now.items }
    ensures { IfOk result (λ mark.
        AreOpeningLogs issuer.now olds.now.value.items stores.now.value.items shards.now.items mark.view) }
{
    shown::<Brand, S>(alloc, issuer, olds, stores, shards)
}

/// The turns at these shards, which stand for the logs that the mark shows, and the first seat. Only if an allocation
/// fails, the shards come back in order.
pub(crate) fn start<S: Store>(
    alloc: Global,
    lists: Lists<S>,
    logs: &Mark<Logs>,
) -> Result<(ShardTurns<S>, ShardSeat), Vec<Shard<S>>>
    requires shards { (0 < vec_len lists.held) × (vec_len lists.held ≤ MAX_SHARDS) }
    requires counts { lists.counts.items ≡ map (λ log. length log.items) logs.now.view }
    requires stand { StandFor (λ held head items. StandsForLog held.shard head items) lists.held.items logs.now.view }
    ensures opening { IfOk result (λ made. opening_in made.0 ≡ logs.now.view) }
    ensures seat { IfOk result (λ made. IsSeatOf made.0 made.1 × (view_of made.1 ≡ first_view (opening_in made.0))) }
    ensures refused { IfErr result (λ back. back.items ≡ map (λ held. held.shard) lists.held.items) }
{
    let Lists {
        held,
        counts,
        spare,
    } = lists;
    match start_with::<Brand, S>(alloc, held, counts.as_slice(), logs) {
        Ok((turns, seat)) => {
            let spare = Mutex::new(spare);
            Ok((ShardTurns { turns, spare }, seat))
        }
        Err(held) => Err(release_all(held, spare)),
    }
}

/// The turns at these shards, which stand for the logs that the caller picks.
fn start_with<J: OpeningLogs<LogItem, LogHead>, S: Store>(
    alloc: Global,
    held: Vec<LockedShard<S>>,
    counts: &[u64],
    logs: &Mark<Logs>,
) -> Result<
    (
        Turns<LockedShard<S>, LogItem, LogHead>,
        TurnSeat<LogItem, LogHead>,
    ),
    Vec<LockedShard<S>>,
>
    requires shards { (0 < vec_len held) × (vec_len held ≤ MAX_SHARDS) }
    requires counts { counts.now ≡ map (λ log. length log.items) J.opening }
    requires stand { StandFor (λ held head items. StandsForLog held.shard head items) held.items J.opening }
    ensures opening { IfOk result (λ made. opening_of made.0 ≡ J.opening) }
    ensures seat { IfOk result (λ made. IsOf made.1 made.0 × (view_of made.1 ≡ first_view J.opening)) }
    ensures refused { IfErr result (λ back. back.items ≡ held.items) }
{
    let _ = logs;
    Turns::load::<J>(alloc, held, counts)
}
