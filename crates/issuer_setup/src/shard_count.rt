//! How many shards an issuer has.
ghost use Rattle.std.specs.Prelude.{◌≡◌, true};
ghost use Rattle.issuer_setup.specs.Shards.{are_shards, shards_from};

use issuer_base::MAX_SHARDS;
use std::marker::Model;

/// A number of shards that an issuer may have: 1 to 16.
///
/// A contract sees the number.
#[derive(Clone, Copy)]
pub struct ShardCount {
    count: u8,
}

impl Model for ShardCount {
    ghost use Rattle.std.specs.Prelude.{◌≡◌, ℕ, true};
    ghost use Rattle.issuer_setup.specs.Shards.{are_shards};

    ghost Value = { ℕ };

    ghost view = { λ shards. shards.count };

    ghost invariant = { λ shards. are_shards shards.count ≡ true };

    ghost inverse = { λ count. record { count = count } };
}

impl ShardCount {
    /// So many shards; `None` if an issuer may not have so many.
    pub fn new(count: u8) -> Option<ShardCount>
        ensures { result ≡ shards_from count }
    {
        if (1..=MAX_SHARDS).contains(&count) {
            Some(ShardCount { count })
        } else {
            None
        }
    }

    /// The number.
    pub fn get(self) -> u8
        ensures same { result ≡ self }
        ensures valid { are_shards self ≡ true }
    {
        self.count
    }
}
