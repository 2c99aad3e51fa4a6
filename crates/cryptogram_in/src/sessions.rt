//! Session keys in lanes: EMV 4.3 Book 2, Annex A1.3.1.

ghost use Rattle.std.specs.Prelude.{◌≡◌, ℕ, ◌<◌, ◌≤◌, ◌++◌, length, map, replicate, slice_index_or, slice_set};
ghost use Rattle.issuer_base.specs.declared.request.Suite.TheVariants.{TripleDes};
ghost use Rattle.des_lanes.specs.Lanes.{key_in, key_at};
ghost use Rattle.key_derive.specs.SessionKey.{counter_bytes, session_ac};

use arrayvec::ArrayVec;
use des_block::Key16;
use des_lanes::{LaneBlocks, LaneKeys};

/// The session key of each ATC, under the master key of its lane.
pub(crate) fn sessions(keys: &[Key16], counters: &[u16]) -> LaneKeys
    requires few { length keys.now ≤ 128 }
    requires paired { length counters.now ≡ length keys.now }
    ensures { (lane : ℕ) → lane < length keys.now
        → key_in lane result ≡ session_ac TripleDes (key_at keys.now lane) (slice_index_or counters.now lane 0) }
{
    let master = LaneKeys::new(keys);
    let mut left = LaneBlocks::new(values(counters, 0xF0).as_slice());
    let mut right = LaneBlocks::new(values(counters, 0x0F).as_slice());
    master.encipher(&mut left);
    master.encipher(&mut right);
    LaneKeys { left, right }
}

/// The diversification values of the ATCs, with this third byte.
fn values(counters: &[u16], third: u8) -> ArrayVec<[u8; 8], 128>
    requires { length counters.now ≤ 128 }
    ensures { result.items ≡ map (λ atc. slice_set (counter_bytes atc ++ replicate 6 0) 2 third) counters.now }
{
    let mut values = ArrayVec::new();
    for counter in counters {
        let [high, low] = counter.to_be_bytes();
        values.push([high, low, third, 0, 0, 0, 0, 0]);
    }
    values
}
