//! What a run begins with: its cards, and its host over empty stores.
ghost use Rattle.std.specs.Prelude.{◌≡◌, ◌*◌, ◌<◌, ◌≤◌, ℕ, [], length, map, replicate, slice_get, Some, IfOk};
ghost use Rattle.std.specs.List.{range_with_len};
ghost use Rattle.host_loading.specs.Hosts.{Stand};
ghost use Rattle.host_loading.specs.Loading.{AreLoaded};
ghost use Rattle.host_loading.specs.StoreRoom.{HaveRoom};
ghost use Rattle.shard_book.specs.declared.replay.LoadFault.TheVariants.{NoMemory as LacksMemory};
ghost use Rattle.store_edge.specs.RoomStores.{RoomState};
ghost use Rattle.world_play.specs.Room.{AreEmpty, HaveRoomToLoad, IsOpened, step_room, steps_of};
ghost use Rattle.world_play.specs.Play.{empty_book, new_player, no_counts};
ghost use Rattle.world_play.specs.Setting.{issuer, key_set};

use crate::house::House;
use crate::player::Player;
use crate::setting::{KEY_SET, SHARDS, card_info, issuer};
use crate::summary::Summary;
use card_model::Card;
use host_loading::{HostBack, LoadFault};
use issuer_base::{NoMemory, Suite};
use issuer_setup::{CardInfo, Issuer};
use key_derive::MasterCiphers;
use one_caller::Solo;
use std::alloc::Global;
use store_edge::RoomStore;

/// How many bytes of room a store has for no step.
const LEAST_ROOM: u64 = 64;

/// How many bytes of room a store has for each step of its shard's cards.
const STEP_ROOM: u64 = 1_024;

/// A player for each card.
pub(crate) fn new_players(alloc: Global, cards: u32) -> Result<Vec<Player>, NoMemory>
    ensures { IfOk result (λ made. made.items ≡ map new_player (range_with_len 0 cards)) }
{
    let ciphers = MasterCiphers::new(&KEY_SET);
    let mut players = Vec::with_capacity(alloc, cards as usize)?;
    for number in 0..cards {
        players.push_reserved(new_player(alloc, &ciphers, number));
    }
    Ok(players)
}

/// The player of the card with this number, before any step.
#[tactic(auto, unfolding(issuer_base::specs::ChipData::is_bcd))]
fn new_player(alloc: Global, ciphers: &MasterCiphers, number: u32) -> Player
    requires { ciphers.now ≡ key_set }
    ensures { result ≡ new_player number }
{
    let info = card_info(number);
    let keys = ciphers
        .card_keys(Suite::TripleDes, &info.pan, info.psn)
        .unwrap();
    let CardInfo { pan, psn, method } = info;
    Player {
        card: Card::new(alloc, pan, psn, KEY_SET.dki, method, keys),
        request: None,
        reply: None,
        held: None,
    }
}

/// The host of an issuer of so many cards, over empty stores with room for so many steps. The old stores are empty too.
pub(crate) fn new_house(alloc: Global, cards: u32, steps: u32) -> Result<House, NoMemory>
    requires { 1 ≤ cards }
    ensures issuer { IfOk result (λ house. house.host.issuer ≡ issuer cards) }
    ensures books { IfOk result (λ house. Stand house.host.issuer house.host.shards.items (replicate 4 empty_book)) }
    ensures tally { IfOk result (λ house. house.tally ≡ no_counts) }
    ensures room { IfOk result (λ house. HaveRoom
        (λ shard. step_room * steps_of cards shard steps) house.host.shards.items) }
{
    let mut olds = stores(alloc, cards, 0)?;
    let stores = stores(alloc, cards, steps)?;
    let issuer = issuer(alloc, cards)?;
    Ok(House {
        host: load(alloc, &mut olds, stores, issuer)?,
        tally: Summary::default(),
    })
}

/// The host of an issuer over empty stores and old stores. The stores have room, so loading fails only out of memory.
fn load(
    alloc: Global,
    olds: &mut Vec<RoomStore>,
    stores: Vec<RoomStore>,
    issuer: Issuer,
) -> Result<Solo<RoomStore>, NoMemory>
    requires count { (length olds.old.items ≡ issuer.shards) × (length stores.items ≡ issuer.shards) }
    requires empty { AreEmpty olds.old.items × AreEmpty stores.items }
    requires works { HaveRoomToLoad (λ _. 0) olds.old.items stores.items }
    ensures issuer { IfOk result (λ host. host.issuer ≡ issuer) }
    ensures loaded { IfOk result (λ host.
        AreLoaded issuer olds.old.items olds.new.items stores.items host.shards.items) }
    ensures room { IfOk result (λ host. (spare : ℕ → ℕ) → HaveRoomToLoad spare olds.old.items stores.items
        → HaveRoom spare host.shards.items) }
{
    match Solo::load(alloc, olds, stores, issuer) {
        Ok(host) => Ok(host),
        Err(
            HostBack {
                fault,
                shard: _,
                stores: _,
            },
        ) => Err(out_of_memory(fault)),
    }
}

/// The error of stores that can't be loaded: out of memory.
fn out_of_memory(fault: LoadFault) -> NoMemory
    requires { fault ≡ LacksMemory }
{
    match fault {
        LoadFault::NoMemory => NoMemory,
        _ => unreachable!(),
    }
}

/// An empty store for each shard.
fn stores(alloc: Global, cards: u32, steps: u32) -> Result<Vec<RoomStore>, NoMemory>
    requires { 1 ≤ cards }
    ensures count { IfOk result (λ made. length made.items ≡ 4) }
    ensures opened { IfOk result (λ made. (shard : ℕ) (store : RoomState) → slice_get made.items shard ≡ Some store
        → IsOpened cards steps shard store) }
{
    let mut stores = Vec::with_capacity(alloc, usize::from(SHARDS))?;
    for shard in 0..SHARDS {
        let room = LEAST_ROOM + STEP_ROOM * u64::from(steps_of(cards, steps, shard));
        stores.push_reserved(RoomStore::new(alloc, room as usize)?);
    }
    Ok(stores)
}

/// How many of so many steps are those of cards of this shard.
fn steps_of(cards: u32, steps: u32, shard: u8) -> u32
    requires { 1 ≤ cards }
    ensures { result ≡ steps_of cards shard steps }
{
    let mut count = 0;
    for index in 0..steps {
        if u32::from(shard) == index % cards % u32::from(SHARDS) {
            count += 1;
        }
    }
    count
}
