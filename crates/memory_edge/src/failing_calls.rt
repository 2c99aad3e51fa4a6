//! Which calls of an object in memory fail.
ghost use Rattle.std.specs.Prelude.{◌≡◌, true};
ghost use Rattle.issuer_base.specs.OutsideFaults.{CountsFaults};
ghost use Rattle.memory_edge.specs.OutsideMemory.{is_next_listed, no_calls, one_more};

use std::marker::Model;

/// Which calls of an object in memory fail, and how many were made and failed.
///
/// Both counts saturate at 2^64 - 1.
#[derive(Drop)]
pub struct FailingCalls {
    listed: Vec<u64>,
    made: u64,
    faults: u64,
}

impl Model for FailingCalls {
    ghost use Rattle.memory_edge.specs.OutsideMemory.{Calls};

    ghost Value = { Calls };

    ghost view = { λ c. record { fails = c.listed.items; made = c.made; faults = c.faults } };
}

impl FailingCalls {
    /// No call was made yet, and the listed ones will fail, counted from 0.
    pub fn new(listed: Vec<u64>) -> FailingCalls
        ensures { result ≡ no_calls listed.items }
    {
        FailingCalls {
            listed,
            made: 0,
            faults: 0,
        }
    }

    /// Whether the next call is one of those that fail.
    pub fn is_next_listed(&self) -> bool
        ensures { result ≡ is_next_listed self.now }
    {
        self.listed.contains(&self.made)
    }

    /// Counts a call, and returns whether it is one of those that fail.
    pub fn count_call(&mut self) -> bool
        ensures listed { result ≡ is_next_listed self.old }
        ensures counted { self.new ≡ record self.old { made = one_more self.old.made } }
    {
        let listed = self.is_next_listed();
        self.made = self.made.saturating_add(1);
        listed
    }

    /// Counts a fault.
    pub fn count_fault(&mut self)
        ensures counted { self.new ≡ record self.old { faults = one_more self.old.faults } }
        ensures count { CountsFaults self.old.faults self.new.faults true }
    {
        self.faults = self.faults.saturating_add(1);
    }
}
