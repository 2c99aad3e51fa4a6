//! The key sets of an issuer, each named by its derivation key index.
ghost use Rattle.std.specs.Prelude.{◌≡◌, ◌<◌, ◌≤◌, [], None, Some, length, slice_get, IfSome, IfOk, IfErr};
ghost use Rattle.std.specs.List.{list_any, position};
ghost use Rattle.std.specs.Option.{option_map};
ghost use Rattle.issuer_setup.specs.KeyList.{has_dki, has_suite, key_of, first_repeat, bad_key, AreKeys};

use arrayvec::ArrayVec;
use issuer_base::{MAX_KEY_SETS, Suite};
use key_derive::KeySet;
use std::marker::Model;

/// The key sets that an issuer may have: 1 to 16, no two of one derivation key index.
///
/// A contract sees the list of them.
#[derive(Drop)]
pub struct KeySets {
    kept: ArrayVec<KeySet, MAX_KEY_SETS>,
}

impl Model for KeySets {
    ghost use Rattle.std.specs.Prelude.{◌≡◌, List, None};
    ghost use Rattle.key_derive.specs.declared.card.KeySet.{KeySet};
    ghost use Rattle.issuer_setup.specs.KeyList.{bad_key};

    ghost Value = { List KeySet };

    ghost view = { λ keys. keys.kept.items };

    ghost invariant = { λ keys. bad_key keys.kept.items ≡ None };
}

impl KeySets {
    /// These key sets; or the index of the first that has the derivation key index of an earlier one, or 0 if
    /// there is no key set.
    pub fn new(keys: ArrayVec<KeySet, MAX_KEY_SETS>) -> Result<KeySets, u32>
        ensures same { IfOk result (λ kept. (bad_key keys.items ≡ None) × (kept ≡ keys.items)) }
        ensures refused { IfErr result (λ index. bad_key keys.items ≡ Some index) }
    {
        match bad_key(keys.as_slice()) {
            None => Ok(KeySets { kept: keys }),
            Some(index) => Err(index),
        }
    }

    /// The key sets, in the order of the configuration.
    pub fn as_slice(&self) -> &[KeySet]
        ensures same { result.now ≡ self.now }
        ensures valid { AreKeys self.now }
    {
        self.kept.as_slice()
    }

    /// The index of the key set with this derivation key index.
    pub(crate) fn place_of(&self, dki: u8) -> Option<usize>
        ensures { result ≡ position (has_dki dki) self.now }
    {
        self.as_slice().iter().position(|set| set.dki == dki)
    }

    /// The key set with this derivation key index; `None` if no key set has it.
    pub(crate) fn find(&self, dki: u8) -> Option<&KeySet>
        ensures { option_map (λ set. set.now) result ≡ key_of dki self.now }
    {
        self.as_slice().iter().find(|set| set.dki == dki)
    }

    /// Whether the key set at this index has keys of the suite.
    pub(crate) fn has_suite(&self, place: usize, suite: Suite) -> bool
        requires { place < length self.now }
        ensures { IfSome (slice_get self.now place) (λ set. result ≡ has_suite suite set) }
    {
        match suite {
            Suite::TripleDes => true,
            Suite::Aes => self.as_slice()[place].aes.is_some(),
        }
    }

    /// The first key set.
    pub(crate) fn first(&self) -> &KeySet
        ensures { slice_get self.now 0 ≡ Some result.now }
    {
        &self.as_slice()[0]
    }
}

/// The index at which these key sets are refused.
#[tactic(auto, unfolding(crate::specs::KeyList::bad_key))]
fn bad_key(keys: &[KeySet]) -> Option<u32>
    requires { length keys.now ≤ MAX_KEY_SETS }
    ensures { result ≡ bad_key keys.now }
{
    if keys.is_empty() {
        return Some(0);
    }
    first_repeat(keys)
}

/// The index of the first key set that has the derivation key index of an earlier one; `None` if none has.
fn first_repeat(keys: &[KeySet]) -> Option<u32>
    requires { length keys.now ≤ MAX_KEY_SETS }
    ensures { result ≡ first_repeat [] keys.now }
{
    for (index, set) in keys.iter().enumerate() {
        if has_key(&keys[..index], set.dki) {
            return Some(index as u32);
        }
    }
    None
}

/// Whether a key set has this derivation key index.
fn has_key(keys: &[KeySet], dki: u8) -> bool
    ensures { result ≡ list_any (has_dki dki) keys.now }
{
    keys.iter().any(|set| set.dki == dki)
}
