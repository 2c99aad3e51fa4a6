//! Feeds of two shards: what a standby takes of them, however they are cut.
ghost use Rattle.std.specs.Prelude.{◌≡◌, ◌≤◌, length, vec_capacity, [], true, IfOk, IsTrue};
ghost use Rattle.host_loading.specs.Hosts.{AreShards};
ghost use Rattle.standby_node.specs.Standing.{live_in, shards_in};

use crate::journals::{store, two_shards};
use host_loading::{HostBack, Lists, load_all, take_lists, take_stores};
use issuer_base::Store;
use issuer_setup::Issuer;
use memory_edge::MemoryStore;
use standby_node::{FeedFault, Standby};
use std::alloc::Global;
use std::test::Fail;

/// A feed, how feeding it to empty journals ends, and the texts of the two journals then.
struct Row {
    name: &'static str,
    feed: &'static str,
    fed: Result<(), FeedFault>,
    first: &'static str,
    second: &'static str,
}

/// Feeds with no bad line.
static TAKEN: [Row; 6] = [
    Row {
        name: "in order, of both shards",
        feed: "0 0 s 4000000000000002ffff 00 3\n1 0 s 4000000000000010ffff 00 1\n0 1 q 4000000000000002ffff 00 84160000\n",
        fed: Ok(()),
        first: "v2\ns 4000000000000002ffff 00 3\nq 4000000000000002ffff 00 84160000\n",
        second: "v2\ns 4000000000000010ffff 00 1\n",
    },
    Row {
        name: "second, first, second, first",
        feed: "0 1 q 4000000000000002ffff 00 84160000\n0 0 s 4000000000000002ffff 00 3\n0 1 q 4000000000000002ffff 00 84160000\n0 0 s 4000000000000002ffff 00 3\n",
        fed: Ok(()),
        first: "v2\ns 4000000000000002ffff 00 3\nq 4000000000000002ffff 00 84160000\n",
        second: "v2\n",
    },
    Row {
        name: "the second alone",
        feed: "0 1 q 4000000000000002ffff 00 84160000\n",
        fed: Ok(()),
        first: "v2\n",
        second: "v2\n",
    },
    Row {
        name: "a torn last line",
        feed: "0 0 s 4000000000000002ffff 00 3",
        fed: Ok(()),
        first: "v2\n",
        second: "v2\n",
    },
    Row {
        name: "what follows another index isn't read",
        feed: "0 0 s 4000000000000002ffff 00 3\n0 0 x\n0 2 x\n1 1 \n",
        fed: Ok(()),
        first: "v2\ns 4000000000000002ffff 00 3\n",
        second: "v2\n",
    },
    Row {
        name: "an empty feed",
        feed: "",
        fed: Ok(()),
        first: "v2\n",
        second: "v2\n",
    },
];

/// Feeds with a bad line.
static REFUSED: [Row; 6] = [
    Row {
        name: "no record",
        feed: "0 0 x\n",
        fed: Err(FeedFault::BadFeed(1)),
        first: "v2\n",
        second: "v2\n",
    },
    Row {
        name: "a record that isn't legal",
        feed: "0 0 s 4000000000000002ffff 00 3\n0 1 s 4000000000000010ffff 00 3\n",
        fed: Err(FeedFault::BadFeed(2)),
        first: "v2\ns 4000000000000002ffff 00 3\n",
        second: "v2\n",
    },
    Row {
        name: "no shard of the node",
        feed: "0 1 x\n2 0 s 4000000000000002ffff 00 3\n0 0 s 4000000000000002ffff 00 3\n",
        fed: Err(FeedFault::BadFeed(2)),
        first: "v2\n",
        second: "v2\n",
    },
    Row {
        name: "a leading zero",
        feed: "00 0 s 4000000000000002ffff 00 3\n",
        fed: Err(FeedFault::BadFeed(1)),
        first: "v2\n",
        second: "v2\n",
    },
    Row {
        name: "an empty line",
        feed: "0 0 s 4000000000000002ffff 00 3\n\n",
        fed: Err(FeedFault::BadFeed(2)),
        first: "v2\ns 4000000000000002ffff 00 3\n",
        second: "v2\n",
    },
    Row {
        name: "an index of 2^63",
        feed: "0 9223372036854775808 x\n",
        fed: Err(FeedFault::BadFeed(1)),
        first: "v2\n",
        second: "v2\n",
    },
];

/// Two shards over empty journals, and room for their stores. The first store fails at the listed calls.
fn load_both(alloc: Global, issuer: &Issuer, fails: &[u64]) -> Result<Lists<MemoryStore>, Fail>
    requires { issuer.now.shards ≡ 2 }
    ensures shards { IfOk result (λ lists. AreShards issuer.now lists.shards.items) }
    ensures room { IfOk result (λ lists. (lists.back.items ≡ []) × (2 ≤ vec_capacity lists.back)) }
{
    let mut olds = Vec::new(alloc);
    olds.push(store(alloc, Vec::new(alloc), &[])?)?;
    olds.push(store(alloc, Vec::new(alloc), &[])?)?;
    let mut stores = Vec::new(alloc);
    stores.push(store(alloc, Vec::new(alloc), fails)?)?;
    stores.push(store(alloc, Vec::new(alloc), &[])?)?;
    let lists = take_lists(alloc, 2)?;
    match load_all(alloc, issuer, &mut olds, stores, lists) {
        Ok(lists) => Ok(lists),
        Err(
            HostBack {
                fault: _,
                shard: _,
                stores: _,
            },
        ) => Err("two shards".into()),
    }
}

/// Feeds two pieces. After a fault of the first the second isn't fed.
fn feed_both(
    standby: &mut Standby<MemoryStore>,
    issuer: &Issuer,
    first: &[u8],
    second: &[u8],
) -> Result<(), FeedFault>
    requires live { IsTrue (live_in standby.old) }
    requires shards { AreShards issuer.now (shards_in standby.old) }
    ensures { AreShards issuer.now (shards_in standby.new) }
{
    let fed = standby.feed(issuer, first);
    if !standby.is_live() {
        return fed;
    }
    standby.feed(issuer, second)
}

/// How feeding two pieces to empty journals ended, and the texts of the journals then.
#[derive(Drop)]
struct Ended {
    fed: Result<(), FeedFault>,
    live: bool,
    first: Vec<u8>,
    second: Vec<u8>,
}

/// Feeds two pieces to empty journals. The first store fails at the listed calls.
fn end_of_feed(
    alloc: Global,
    issuer: &Issuer,
    first: &[u8],
    second: &[u8],
    fails: &[u64],
) -> Result<Ended, Fail>
    requires { issuer.now.shards ≡ 2 }
{
    let Lists { shards, back } = load_both(alloc, issuer, fails)?;
    let mut standby = Standby::new(shards);
    let fed = feed_both(&mut standby, issuer, first, second);
    let live = standby.is_live();
    let stores = take_stores(standby.promote(), back);
    Ok(Ended {
        fed,
        live,
        first: text_at(&stores, 0)?,
        second: text_at(&stores, 1)?,
    })
}

/// The text of the store with this index.
fn text_at(stores: &Vec<MemoryStore>, index: usize) -> Result<Vec<u8>, Fail> {
    let store = stores.get(index).ok_or("a store")?;
    match store.image(store.len()).map_err(|_| "an image")? {
        Some(text) => Ok(text),
        None => Err("an image".into()),
    }
}

/// Whether the feed of the row ends as it says, cut anywhere.
fn ends_so(alloc: Global, issuer: &Issuer, row: &Row) -> Result<bool, Fail>
    requires { issuer.now.shards ≡ 2 }
{
    let feed = row.feed.as_bytes();
    for cut in 0..=feed.len() {
        let ended = end_of_feed(alloc, issuer, &feed[..cut], &feed[cut..], &[])?;
        if ended.fed != row.fed || ended.live != row.fed.is_ok() {
            return Ok(false);
        }
        if ended.first.as_slice() != row.first.as_bytes()
            || ended.second.as_slice() != row.second.as_bytes()
        {
            return Ok(false);
        }
    }
    Ok(true)
}

#[test]
fn takes_the_next_records_however_the_feed_is_cut(rt: HostRuntime) -> Result<(), Fail> {
    let issuer = two_shards(rt.alloc())?;
    for row in &TAKEN {
        assert!(rt; ends_so(rt.alloc(), &issuer, row)?, "{}", row.name);
    }
    Ok(())
}

#[test]
fn stops_at_the_first_bad_line(rt: HostRuntime) -> Result<(), Fail> {
    let issuer = two_shards(rt.alloc())?;
    for row in &REFUSED {
        assert!(rt; ends_so(rt.alloc(), &issuer, row)?, "{}", row.name);
    }
    Ok(())
}

/// How a feed whose line ends in so many bytes `x` ends: with a newline behind them, if all went well before it.
fn end_of_long_line(
    alloc: Global,
    issuer: &Issuer,
    size: usize,
) -> Result<Result<(), FeedFault>, Fail>
    requires { issuer.now.shards ≡ 2 }
{
    let mut line = vec![in alloc; b'x'; size]?;
    let ended = end_of_feed(alloc, issuer, b"0 7 ", &line, &[])?;
    if ended.fed.is_err() {
        return Err("a line that isn't whole".into());
    }
    line.push(b'\n')?;
    Ok(end_of_feed(alloc, issuer, b"0 7 ", &line, &[])?.fed)
}

/// A line may have 524 bytes with its newline, whether it is passed over or not.
#[test]
fn a_line_of_525_bytes_is_bad(rt: HostRuntime) -> Result<(), Fail> {
    let issuer = two_shards(rt.alloc())?;
    for (size, fed) in [
        (519, Ok(())),
        (520, Err(FeedFault::BadFeed(1))),
        (2_000, Err(FeedFault::BadFeed(1))),
    ] {
        assert!(rt;
            end_of_long_line(rt.alloc(), &issuer, size)? == fed,
            "{size}"
        );
    }
    Ok(())
}

/// The record at which a store fails isn't in its journal's records, and the standby isn't live.
#[test]
fn stops_where_a_store_fails(rt: HostRuntime) -> Result<(), Fail> {
    let alloc = rt.alloc();
    let issuer = two_shards(alloc)?;
    // the load makes three calls
    let ended = end_of_feed(
        alloc,
        &issuer,
        b"1 0 s 4000000000000010ffff 00 1\n",
        b"0 0 s 4000000000000002ffff 00 3\n",
        &[3],
    )?;
    assert!(rt; ended.fed == Err(FeedFault::StoreFault(0)));
    assert!(rt; !ended.live);
    assert!(rt; ended.second.as_slice() == b"v2\ns 4000000000000010ffff 00 1\n".as_slice());
    Ok(())
}
