//! The loading of a host for several callers.
ghost use Rattle.std.specs.Prelude.{◌≡◌, ℕ, ◌<◌, ◌≤◌, ◌*◌, [], length, vec_len, vec_capacity, All, IfOk, IfErr};
ghost use Rattle.issuer_base.specs.declared.limits.TheConstants.{MAX_CALLERS};
ghost use Rattle.line_checks.specs.declared.lines_ahead.TheConstants.{MOST_AHEAD};
ghost use Rattle.shared_laws.specs.OpeningLogs.{HostComesBackTogether};
ghost use Rattle.host_loading.specs.Loading.{AreOnlyRead};
ghost use Rattle.shared_shards.specs.ShardSeats.{opening_in};
ghost use Rattle.shared_callers.specs.OneLane.{IsNewLane, places_in};
ghost use Rattle.shared_callers.specs.Parts.{lines_of, texts_of};
ghost use Rattle.shared_callers.specs.Seated.{AreSeated};
ghost use Rattle.shared_callers.specs.declared.half_block.TheConstants.{MOST_EACH};

use crate::half_block::{HalfBlock, MOST_EACH};
use crate::lane::{Lane, LaneRoom};
use crate::lanes::Lanes;
use crate::part::Part;
use host_calls::{Host, HostBack, LoadFault, Pass};
use issuer_base::{MAX_CALLERS, NoMemory, Store};
use issuer_setup::Issuer;
use line_checks::MOST_AHEAD;
use std::alloc::Global;
use std::thread::Threads;

/// How many lines a half block of few callers has.
const LINES_OF_FEW: usize = 512;

/// The memory of all lanes, and the parts of the half block that they don't have.
struct AllRoom {
    lanes: Vec<Lane>,
    rooms: Vec<LaneRoom>,
    parts: Vec<Part>,
}

impl<S: Store> Lanes<S> {
    ghost use Rattle.shared_callers.specs.Lanes.{AreLoadedFrom};

    /// Loads the host as `Host::load_together` does, for 1 to [`MAX_CALLERS`] callers. No later call allocates. If an
    /// allocation for the lanes fails, the stores come back as they were, and the error names shard 0.
    pub fn load<R: Threads + Sync>(
        rt: &R,
        alloc: Global,
        olds: &mut Vec<S>,
        stores: Vec<S>,
        issuer: Issuer,
        callers: u8,
    ) -> Result<Lanes<S>, HostBack<S>>
    where
        S: Send,
        requires count { (length olds.old.items ≡ issuer.shards) × (length stores.items ≡ issuer.shards) }
        requires callers { (0 < callers) × (callers ≤ MAX_CALLERS) }
        ensures loaded { IfOk result (AreLoadedFrom issuer callers olds.old.items olds.new.items stores.items) }
        ensures olds { AreOnlyRead S.size S.bytes S.disk S.room olds.old.items olds.new.items }
        ensures stopped { IfErr result (λ back. HostComesBackTogether S.size S.bytes S.disk S.faults issuer
            olds.old.items olds.new.items stores.items back.shard back.fault back.stores.items) }
    {
        let each = lines_each(usize::from(callers));
        let Ok(
            AllRoom {
                lanes,
                rooms,
                parts,
            },
        ) = take_room(alloc, callers, each)
        else {
            return Err(HostBack {
                fault: LoadFault::NoMemory,
                shard: 0,
                stores,
            });
        };
        let (host, mut first) = match Host::load_together(
            rt, alloc, olds, stores, issuer, callers,
        ) {
            Ok(made) => made,
            Err(back) => {
                lanes.destroy_empty();
                return Err(back);
            }
        };
        let lanes = seat_all(&host, &mut first, lanes, rooms);
        Ok(Lanes {
            host,
            first,
            lanes,
            half: HalfBlock::new(parts, each),
        })
    }
}

/// How many lines of a half block are for each of so many callers: of up to four callers an equal part of 512. Of more it
/// is as many as are checked together, for each four callers once: the more threads a half block takes, the more each of
/// them costs.
fn lines_each(callers: usize) -> usize
    requires { (0 < callers) × (callers ≤ MAX_CALLERS) }
    ensures { (MOST_AHEAD ≤ result) × (result ≤ MOST_EACH) }
{
    (LINES_OF_FEW / callers).max(MOST_AHEAD * (callers / 4).max(1))
}

/// Allocates the memory of all lanes, one for each caller, and of as many parts, each for so many lines.
fn take_room(alloc: Global, callers: u8, each: usize) -> Result<AllRoom, NoMemory>
    requires { (0 < callers) × (each ≤ MOST_EACH) }
    ensures lanes { IfOk result (λ room. (room.lanes.items ≡ []) × (callers ≤ vec_capacity room.lanes)) }
    ensures rooms { IfOk result (λ room. (vec_len room.rooms ≡ callers) × (vec_len room.parts ≡ callers)) }
    ensures count { IfOk result (λ room. All (λ lane. places_in lane ≡ each) room.rooms.items) }
    ensures parts { IfOk result (λ room. All (λ part. part.lines.room ≡ each) room.parts.items) }
    ensures none { IfOk result (λ room. All (λ part. (lines_of part ≡ []) × (texts_of part ≡ [])) room.parts.items) }
{
    let count = usize::from(callers);
    let mut rooms = Vec::with_capacity(alloc, count)?;
    let mut parts = Vec::with_capacity(alloc, count)?;
    for _ in 0..count {
        rooms.push_reserved(LaneRoom::new(alloc, each)?);
        parts.push_reserved(Part::new(alloc, each)?);
    }
    let lanes = Vec::with_capacity(alloc, count)?;
    Ok(AllRoom {
        lanes,
        rooms,
        parts,
    })
}

/// Splits off a pass for each lane.
fn seat_all<S: Store>(
    host: &Host<S>,
    first: &mut Pass,
    mut lanes: Vec<Lane>,
    mut rooms: Vec<LaneRoom>,
) -> Vec<Lane>
    requires first { AreSeated host.now first.old [] }
    requires room { (lanes.items ≡ []) × (vec_len rooms ≤ vec_capacity lanes) }
    ensures seated { AreSeated host.now first.new result.items }
    ensures new { All (IsNewLane host.now.issuer (opening_in host.now.turns)) result.items }
    ensures count { vec_len result ≡ vec_len rooms }
    ensures room { (count : ℕ) → All (λ room. places_in room ≡ count) rooms.items
        → All (λ lane. lane.lines.room ≡ count) result.items }
{
    let step = rooms.len() as u64;
    let mut number = 0u64;
    while let Some(room) = rooms.pop() {
        number += 1;
        let pass = host.split(first);
        let lane = Lane::new(pass, room, number, step);
        lanes.push_reserved(lane);
    }
    lanes
}
