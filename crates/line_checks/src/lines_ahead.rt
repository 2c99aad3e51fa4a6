//! What was looked up for lines, or for the records of a journal's lines, that wait for their turns.
ghost use Rattle.std.specs.Prelude.{◌≡◌, ◌<◌, ◌≤◌, ◌==◌, ℕ, List, [], ◌∷◌, ◌++◌, length, slice_get, All, IfOk};
ghost use Rattle.std.specs.List.{AllZip};
ghost use Rattle.std.specs.Option.{option_map};
ghost use Rattle.line_checks.specs.LookedUp.{AreLookUps, IsLookedUpAgain, IsReady};
ghost use Rattle.line_checks.specs.declared.lines_ahead.TheConstants.{MOST_AHEAD};

use crate::in_lanes::check_in_lanes;
use crate::looked_up::LookedUp;
use issuer_base::{NoMemory, Refusal};
use issuer_setup::Issuer;
use std::alloc::Global;
use std::marker::Model;

/// The most lines that are looked up ahead of their turns: as many as [`check_in_lanes`] takes.
pub const MOST_AHEAD: usize = 128;

/// What the look-ups of lines gave, in the order of the lines, until their turns: at most [`MOST_AHEAD`].
///
/// A contract sees the list.
#[derive(Drop)]
pub struct LinesAhead {
    found: Vec<Result<LookedUp, Refusal>>,
}

impl Model for LinesAhead {
    ghost use Rattle.std.specs.Prelude.{◌≤◌, List, Result, length, vec_capacity};
    ghost use Rattle.issuer_base.specs.declared.answer.Refusal.{Refusal};
    ghost use Rattle.line_checks.specs.declared.looked_up.LookedUp.{LookedUp};
    ghost use Rattle.line_checks.specs.declared.lines_ahead.TheConstants.{MOST_AHEAD};

    ghost Value = { List (Result LookedUp Refusal) };

    ghost view = { λ ahead. ahead.found.items };

    ghost invariant = { λ ahead. (length ahead.found.items ≤ MOST_AHEAD) × (MOST_AHEAD ≤ vec_capacity ahead.found) };
}

impl LinesAhead {
    /// Those of no line. Only this call allocates.
    pub fn new(alloc: Global) -> Result<LinesAhead, NoMemory>
        ensures { IfOk result (λ ahead. ahead ≡ []) }
    {
        Ok(LinesAhead {
            found: Vec::with_capacity(alloc, MOST_AHEAD)?,
        })
    }

    /// How many there are.
    pub fn len(&self) -> usize
        ensures count { result ≡ length self.now }
        ensures within { result ≤ MOST_AHEAD }
    {
        self.found.len()
    }

    /// Whether there is none.
    pub fn is_empty(&self) -> bool
        ensures { result ≡ (length self.now == 0) }
    {
        self.found.is_empty()
    }

    /// Whether there are as many as there may be.
    pub fn is_full(&self) -> bool
        ensures count { result ≡ (length self.now == MOST_AHEAD) }
        ensures within { length self.now ≤ MOST_AHEAD }
    {
        self.found.len() == MOST_AHEAD
    }

    /// Appends what the look-up of the next line gave.
    pub fn add(&mut self, found: Result<LookedUp, Refusal>)
        requires { length self.old < MOST_AHEAD }
        ensures { self.new ≡ self.old ++ found ∷ [] }
    {
        self.found.push_reserved(found);
    }

    /// Checks the cryptograms of the requests together, by [`check_in_lanes`]. What the look-ups gave stays.
    pub fn check(&mut self, issuer: &Issuer)
        requires { All (IsReady issuer.now) self.old }
        ensures again { AllZip (IsLookedUpAgain issuer.now) self.old self.new }
        ensures same { (lines : List (List ℕ)) → AreLookUps issuer.now lines self.old
            → AreLookUps issuer.now lines self.new }
        ensures count { length self.new ≡ length self.old }
    {
        check_in_lanes(issuer, self.found.as_mut_slice());
    }

    /// What the look-up of the line with this index gave; `None` if there are not as many.
    pub fn get(&self, index: usize) -> Option<&Result<LookedUp, Refusal>>
        ensures { option_map (λ found. found.now) result ≡ slice_get self.now index }
    {
        self.found.get(index)
    }

    /// Removes all.
    pub fn clear(&mut self)
        ensures { self.new ≡ [] }
    {
        self.found.clear();
    }
}
