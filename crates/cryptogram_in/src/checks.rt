//! Checks of cryptograms of triple DES in lanes, which give the session keys of those that are right.

ghost use Rattle.std.specs.Prelude.{◌≡◌, ◌≤◌, ℕ, ◌<◌, ◌++◌, ◌∷◌, Some, None, length, map, slice_index_or, [], if◌then◌else◌};
ghost use Rattle.std.specs.Str.{bytes_eq};
ghost use Rattle.des_lanes.specs.Lanes.{key_in};
ghost use Rattle.cryptogram_in.specs.Checks.{blank, check_of, des_session, des_mac, right_session};

use crate::input;
use crate::sessions::sessions;
use arrayvec::ArrayVec;
use des_block::Key16;
use des_lanes::LaneKeys;
use issuer_base::Request;
use key_derive::joined;
use std::marker::Model;

/// The fewest cryptograms of triple DES that are worth lanes: somewhat more than where both ways take as long.
pub const FEWEST_IN_LANES: usize = 48;

/// Up to 128 cryptograms of triple DES that are to be checked, and all that they depend on. Each part of all checks is in
/// a list of its own, as the lanes take it.
///
/// A contract sees the list of the checks.
#[derive(Drop)]
pub struct DesChecks {
    /// The cards' master keys for application cryptograms, and then zeros.
    keys: [Key16; 128],

    /// The application transaction counters.
    counters: ArrayVec<u16, 128>,

    /// The data under the cryptograms.
    inputs: ArrayVec<[u8; 65], 128>,

    /// The cryptograms.
    cryptograms: ArrayVec<[u8; 8], 128>,
}

impl Model for DesChecks {
    ghost use Rattle.std.specs.Prelude.{◌≡◌, ◌≤◌, List, length};
    ghost use Rattle.cryptogram_in.specs.Checks.{DesCheck, checks_from};

    ghost Value = { List DesCheck };

    ghost view = { λ checks. checks_from checks.keys checks.counters.items checks.inputs.items
        checks.cryptograms.items };

    ghost invariant = { λ checks. (length checks.counters.items ≤ 128) × (length checks.keys ≡ 128)
        × (length checks.inputs.items ≡ length checks.counters.items)
        × (length checks.cryptograms.items ≡ length checks.counters.items) };
}

impl DesChecks {
    /// No check.
    pub fn new() -> DesChecks
        ensures { result ≡ [] }
    {
        DesChecks {
            keys: [Key16([0; 16]); 128],
            counters: ArrayVec::new(),
            inputs: ArrayVec::new(),
            cryptograms: ArrayVec::new(),
        }
    }

    /// Adds the check of a request's cryptogram under this master key of its card.
    #[inline]
    pub fn push(&mut self, key: Key16, request: &Request)
        requires { length self.old < 128 }
        ensures { self.new ≡ self.old ++ check_of key request.now ∷ [] }
    {
        let parts = request.parts();
        self.keys[self.counters.len()] = key;
        self.counters.push(parts.atc);
        self.inputs.push(input(request));
        self.cryptograms.push(parts.ac);
    }

    /// Adds a check of zeros.
    pub fn push_blank(&mut self)
        requires { length self.old < 128 }
        ensures { self.new ≡ self.old ++ blank ∷ [] }
    {
        self.keys[self.counters.len()] = Key16([0; 16]);
        self.counters.push(0);
        self.inputs.push([0; 65]);
        self.cryptograms.push([0; 8]);
    }

    /// The session key of each cryptogram that is right, in all eight bytes. All are computed in lanes: for fewer than
    /// [`FEWEST_IN_LANES`], this takes longer than to check them one by one.
    pub fn right_sessions(&self) -> ArrayVec<Option<Key16>, 128>
        ensures { result.items ≡ map right_session self.now }
    {
        let sessions = self.sessions();
        let macs = self.macs(&sessions);
        let left = sessions.left.first(macs.len());
        let right = sessions.right.first(macs.len());
        let mut found = ArrayVec::new();
        for (i, mac) in macs.as_slice().iter().enumerate() {
            let session = joined(left.as_slice()[i], right.as_slice()[i]);
            found.push(if_right(&self.cryptograms.as_slice()[i], mac, session));
        }
        found
    }

    /// The session key of each check.
    fn sessions(&self) -> LaneKeys
        ensures { (lane : ℕ) → lane < length self.now
            → key_in lane result ≡ slice_index_or (map des_session self.now) lane [] }
    {
        let counters = self.counters.as_slice();
        sessions(&self.keys[..counters.len()], counters)
    }

    /// The cryptogram that each check expects, under its session key.
    fn macs(&self, sessions: &LaneKeys) -> ArrayVec<[u8; 8], 128>
        requires { (lane : ℕ) → lane < length self.now
            → key_in lane sessions.now ≡ slice_index_or (map des_session self.now) lane [] }
        ensures { result.items ≡ map des_mac self.now }
    {
        let inputs = self.inputs.as_slice();
        sessions.macs(inputs).first(inputs.len())
    }
}

/// The session key, if the cryptogram is the expected one.
fn if_right(cryptogram: &[u8; 8], expected: &[u8; 8], session: Key16) -> Option<Key16>
    ensures { result ≡ (if bytes_eq cryptogram.now expected.now then Some session else None) }
{
    if cryptogram == expected {
        return Some(session);
    }
    None
}
