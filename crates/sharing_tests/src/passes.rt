//! Two passes of one host over a store in memory: which one wins a request's claim, and the answers to each.
ghost use Rattle.std.specs.Prelude.{◌≡◌, IfOk, MatchResult};
ghost use Rattle.shared_seats.specs.SeatNames.{first_names, after_split, split_off};
ghost use Rattle.host_calls.specs.Passes.{claims_of, IsFree, Holds};
ghost use Rattle.shared_laws.specs.PreChecks.{HasPassed};

use crate::hosts::{empty_stores, is_fresh, is_kept, sample, store};
use cvr_settle::Flight;
use host_calls::{CardView, Checked, Host, HostBack, Pass};
use issuer_base::{Answer, Refusal};
use memory_edge::MemoryStore;
use sample_issuer::{AES_REQUEST, REQUEST};
use std::alloc::Global;
use std::sync::Wait;
use std::test::Fail;

/// The same card's requests on its counters 9 and 6.
pub(crate) const NINTH: &str =
    "A 5A0840000000000000029F260807332ABBD4FE880C9F2701809F10200FA501A00000000000000000000000000F0000000000000000000000000000009F37041A2B3C4D9F36020009950500000080009A032601159C01009F02060000000123455F2A020978820239009F1A020276";

pub(crate) const SIXTH: &str =
    "A 5A0840000000000000029F2608C1B01DE98A830E399F2701809F10200FA501A00000000000000000000000000F0000000000000000000000000000009F37041A2B3C4D9F36020006950500000080009A032601159C01009F02060000000123455F2A020978820239009F1A020276";

/// A host and its two passes.
struct Two {
    host: Host<MemoryStore>,
    first: Pass,
    other: Pass,
}

/// A host of one shard over an empty store, which fails at the listed calls.
fn open(alloc: Global, fails: &[u64]) -> Result<Two, Fail>
    ensures free { IfOk result (λ two. IsFree two.host two.first × IsFree two.host two.other) }
    ensures first { IfOk result (λ two. (claims_of two.first).names ≡ after_split first_names) }
    ensures other { IfOk result (λ two. (claims_of two.other).names ≡ split_off first_names) }
{
    let issuer = sample(alloc, 1)?;
    let mut olds = empty_stores(alloc, 1)?;
    let mut stores = Vec::new(alloc);
    stores.push(store(alloc, "", fails)?)?;
    match Host::load(alloc, &mut olds, stores, issuer) {
        Ok((host, mut first)) => {
            let other = host.split(&mut first);
            Ok(Two { host, first, other })
        }
        Err(
            HostBack {
                fault: _,
                shard: _,
                stores: _,
            },
        ) => Err("a host".into()),
    }
}

/// The answer to a line that passed the checks, or the refusal.
fn end<R: Wait>(
    rt: &R,
    host: &Host<MemoryStore>,
    pass: &mut Pass,
    checked: Result<Checked, Refusal>,
) -> Answer
    requires held { MatchResult checked (λ checked. Holds host.now pass.old checked × HasPassed host.now.issuer checked) (λ _. IsFree host.now pass.old) }
    ensures free { IsFree host.now pass.new }
    ensures names { (claims_of pass.new).names ≡ (claims_of pass.old).names }
{
    match checked {
        Ok(checked) => host.finish(rt, pass, checked),
        Err(refusal) => Answer::Refused(refusal),
    }
}

/// The view of the first card.
fn show<R: Wait>(rt: &R, host: &Host<MemoryStore>, pass: &mut Pass) -> Option<CardView>
    requires free { IsFree host.now pass.old }
    ensures free { IsFree host.now pass.new }
    ensures names { (claims_of pass.new).names ≡ (claims_of pass.old).names }
{
    if host.issuer().cards() == 0 {
        return None;
    }
    Some(host.show(rt, pass, 0))
}

/// Joins the passes, and closes the host.
fn close(host: Host<MemoryStore>, mut first: Pass, other: Pass)
    requires free { IsFree host first × IsFree host other }
    requires first { (claims_of first).names ≡ after_split first_names }
    requires other { (claims_of other).names ≡ split_off first_names }
{
    host.join(&mut first, other);
    host.close(first);
}

#[test]
fn a_lost_claim_is_pending_until_it_is_kept(rt: HostRuntime) -> Result<(), Fail> {
    for line in [REQUEST, AES_REQUEST] {
        let Two {
            host,
            mut first,
            mut other,
        } = open(rt.alloc(), &[])?;
        let won = host.pre_check(&mut first, line.as_bytes());
        let lost = host.pre_check(&mut other, line.as_bytes());
        let pending = end(&rt, &host, &mut other, lost);
        let fresh = end(&rt, &host, &mut first, won);
        let kept = host.authorise(&rt, &mut other, line.as_bytes());
        let shown = show(&rt, &host, &mut first);
        close(host, first, other);
        assert!(rt; pending == Answer::Refused(Refusal::Pending), "{line}");
        assert!(rt; is_fresh(&fresh, 0), "{line}");
        assert!(rt; is_kept(&kept, 0), "{line}");
        assert!(rt;
            matches!(&shown, Some(view) if view.hi == Some(7)),
            "{line}"
        );
    }
    Ok(())
}

/// A card without records, and then with a status, and a command in flight with the reply to its request.
#[test]
fn a_caller_shows_what_another_recorded(rt: HostRuntime) -> Result<(), Fail> {
    let Two {
        host,
        mut first,
        mut other,
    } = open(rt.alloc(), &[])?;
    let before = show(&rt, &host, &mut other);
    let queued = host.authorise(&rt, &mut first, b"Q 4000000000000002 00 84160000");
    let set = host.authorise(&rt, &mut first, b"S 4000000000000002 00 3");
    let fresh = host.authorise(&rt, &mut first, REQUEST.as_bytes());
    let after = show(&rt, &host, &mut other);
    close(host, first, other);
    let new = CardView {
        hi: None,
        status: 0,
        queued: 0,
        done: 0,
        flight: None,
        halted: false,
    };
    let launched = CardView {
        hi: Some(7),
        status: 3,
        queued: 1,
        flight: Some(Flight {
            counter: 7,
            size: 1,
        }),
        ..new
    };
    assert!(rt; queued == Answer::Queued { shard: 0, place: 0 });
    assert!(rt; set == Answer::Set { shard: 0, place: 1 });
    assert!(rt; is_fresh(&fresh, 2));
    assert!(rt; before == Some(new));
    assert!(rt; after == Some(launched));
    Ok(())
}

#[test]
fn records_stand_in_the_order_of_finishing(rt: HostRuntime) -> Result<(), Fail> {
    let Two {
        host,
        mut first,
        mut other,
    } = open(rt.alloc(), &[])?;
    let ninth = host.pre_check(&mut first, NINTH.as_bytes());
    let sixth = host.pre_check(&mut other, SIXTH.as_bytes());
    let sixth = end(&rt, &host, &mut other, sixth);
    let ninth = end(&rt, &host, &mut first, ninth);
    close(host, first, other);
    assert!(rt; is_fresh(&sixth, 0));
    assert!(rt; is_fresh(&ninth, 1));
    Ok(())
}

#[test]
fn a_claim_given_back_is_won_by_another(rt: HostRuntime) -> Result<(), Fail> {
    let Two {
        host,
        mut first,
        mut other,
    } = open(rt.alloc(), &[3])?;
    let failed = host.authorise(&rt, &mut first, REQUEST.as_bytes());
    let fresh = host.authorise(&rt, &mut other, REQUEST.as_bytes());
    close(host, first, other);
    assert!(rt; failed == Answer::Refused(Refusal::StoreFault));
    assert!(rt; is_fresh(&fresh, 0));
    Ok(())
}
