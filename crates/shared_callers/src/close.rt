//! The close of a host of several callers to which lines were dealt.
ghost use Rattle.std.specs.Prelude.{◌≡◌, ℕ, List, [], map, take};
ghost use Rattle.issuer_base.specs.declared.answer.Answer.{Answer};
ghost use Rattle.issuer_base.specs.declared.limits.TheConstants.{KEPT_BYTES};
ghost use Rattle.shared_seats.specs.SeatNames.{IsWhole};
ghost use Rattle.host_calls.specs.Passes.{claims_of, IsFree};
ghost use Rattle.shared_callers.specs.Joins.{HasJoined};
ghost use Rattle.shared_callers.specs.Seated.{AreSeated};

use crate::lane::Lane;
use crate::lanes::Lanes;
use host_calls::{Host, Pass};
use issuer_base::Store;

impl<S: Store> Lanes<S> {
    ghost use Rattle.shared_callers.specs.Lanes.{issuer_in, opening_logs, callers_in, waiting_in, LanesServe, HasClosed};

    /// Joins all passes, closes the host, and returns the stores in the order of their shards' numbers. It doesn't
    /// allocate.
    ///
    /// The callers' answers obey the laws of several callers, for lines of any length: `lines` are those of the run, of
    /// which `deal` took the first [`KEPT_BYTES`](issuer_base::KEPT_BYTES) bytes each.
    pub fn close(self) -> Vec<S>
        requires { waiting_in self ≡ 0 }
        ensures { (lines : List (List ℕ)) (answers due : List Answer)
            → LanesServe self (map (take KEPT_BYTES) lines) answers due []
            → HasClosed S.bytes S.disk S.faults (issuer_in self) (opening_logs self) (callers_in self)
            lines answers result.items }
    {
        let Lanes {
            host,
            mut first,
            lanes,
            half: _,
        } = self;
        join_all(&host, &mut first, lanes);
        host.close(first)
    }
}

/// Joins the passes of all lanes into the first one.
fn join_all<S: Store>(host: &Host<S>, first: &mut Pass, mut lanes: Vec<Lane>)
    requires { AreSeated host.now first.old lanes.items }
    ensures free { IsFree host.now first.new }
    ensures whole { IsWhole (claims_of first.new).names }
    ensures joined { HasJoined first.old lanes.items first.new }
{
    while let Some(lane) = lanes.pop() {
        let pass = lane.into_pass();
        host.join(first, pass);
    }
    lanes.destroy_empty();
}
