//! Clearing lines that were looked up and wait to be judged.
ghost use Rattle.std.specs.Prelude.{◌≡◌, ◌+◌, ◌<◌, ◌==◌, List, ℕ, [], ◌∷◌, ◌++◌, length, map, slice_get, IfOk};
ghost use Rattle.std.specs.Option.{option_map};
ghost use Rattle.cryptogram_in.specs.Checks.{DesCheck, right_session};
ghost use Rattle.issuer_setup.specs.IssuerSetup.{Setup};
ghost use Rattle.line_checks.specs.declared.lines_ahead.TheConstants.{MOST_AHEAD};
ghost use Rattle.clearing_check.specs.ClearingLine.{AreAhead, none_ahead};

use crate::presented::{add_check, goes_in_lanes, keep_verdict, look_up};
use crate::verdict::Verdict;
use cryptogram_in::{DesChecks, FEWEST_IN_LANES};
use des_block::Key16;
use issuer_base::{MAX_CHIP_BYTES, NoMemory};
use issuer_setup::Issuer;
use line_checks::{LookedUpRequest, MOST_AHEAD};
use std::alloc::Global;
use std::marker::Model;

/// What the look-ups of clearing lines gave, in the order of the lines, until they are judged: at most [`MOST_AHEAD`].
///
/// A contract sees the list, and the check of each cryptogram.
#[derive(Drop)]
pub struct PresentedAhead {
    found: Vec<Result<LookedUpRequest, Verdict>>,

    /// The check of each request's cryptogram, if its card's key is of triple DES; a check of zeros for anything else.
    checks: DesChecks,

    /// The chip data of the last line.
    data: [u8; MAX_CHIP_BYTES],
}

impl Model for PresentedAhead {
    ghost use Rattle.std.specs.Prelude.{◌≡◌, ◌≤◌, length, vec_capacity};
    ghost use Rattle.line_checks.specs.declared.lines_ahead.TheConstants.{MOST_AHEAD};
    ghost use Rattle.clearing_check.specs.ClearingLine.{LookUps};

    ghost Value = { LookUps };

    ghost view = { λ ahead. record { found = ahead.found.items; checks = ahead.checks } };

    ghost invariant = { λ ahead. (length ahead.found.items ≤ MOST_AHEAD) × (MOST_AHEAD ≤ vec_capacity ahead.found)
        × (length ahead.checks ≡ length ahead.found.items) };
}

impl PresentedAhead {
    /// Those of no line. Only this call allocates.
    pub fn new(alloc: Global) -> Result<PresentedAhead, NoMemory>
        ensures { IfOk result (λ ahead. ahead ≡ none_ahead) }
    {
        Ok(PresentedAhead {
            found: Vec::with_capacity(alloc, MOST_AHEAD)?,
            checks: DesChecks::new(),
            data: [0; MAX_CHIP_BYTES],
        })
    }

    /// How many lines there are.
    pub fn len(&self) -> usize
        ensures { result ≡ length self.now.found }
    {
        self.found.len()
    }

    /// Whether there are as many as there may be.
    pub fn is_full(&self) -> bool
        ensures { result ≡ (length self.now.found == MOST_AHEAD) }
    {
        self.found.len() == MOST_AHEAD
    }

    /// Looks up the next line, without its newline. Its cryptogram isn't checked.
    pub fn add(&mut self, issuer: &Issuer, line: &[u8])
        requires { length self.old.found < MOST_AHEAD }
        ensures ahead { (lines : List (List ℕ)) → AreAhead issuer.now lines self.old
            → AreAhead issuer.now (lines ++ line.now ∷ []) self.new }
        ensures count { length self.new.found ≡ length self.old.found + 1 }
    {
        let found = look_up(issuer, line, &mut self.data);
        add_check(issuer, &found, &mut self.checks);
        self.found.push_reserved(found);
    }

    /// Checks the cryptograms of the requests of triple DES together, in lanes, if there are enough of them:
    /// [`FEWEST_IN_LANES`]. It doesn't allocate.
    pub fn check(&mut self)
        ensures same { (issuer : Setup) (lines : List (List ℕ)) → AreAhead issuer lines self.old
            → AreAhead issuer lines self.new }
        ensures count { length self.new.found ≡ length self.old.found }
    {
        if self.count_in_lanes() >= FEWEST_IN_LANES {
            self.check_all();
        }
    }

    /// How many requests of triple DES there are.
    fn count_in_lanes(&self) -> usize {
        self.found
            .iter()
            .filter(|found| goes_in_lanes(found))
            .count()
    }

    /// Checks all cryptograms of triple DES. It is a function of its own, so that few lines don't pay for its arrays.
    #[inline(never)]
    fn check_all(&mut self)
        ensures same { (issuer : Setup) (lines : List (List ℕ)) → AreAhead issuer lines self.old
            → AreAhead issuer lines self.new }
        ensures count { length self.new.found ≡ length self.old.found }
    {
        let sessions = self.checks.right_sessions();
        keep_verdicts(self.found.as_mut_slice(), sessions.as_slice());
    }

    /// What the look-up of the line with this index gave; `None` if there are not as many.
    pub fn get(&self, index: usize) -> Option<&Result<LookedUpRequest, Verdict>>
        ensures { option_map (λ found. found.now) result ≡ slice_get self.now.found index }
    {
        self.found.get(index)
    }

    /// Removes all.
    pub fn clear(&mut self)
        ensures { self.new ≡ none_ahead }
    {
        self.found.clear();
        self.checks = DesChecks::new();
    }
}

/// Keeps the verdict of each check, by the session keys that the checks gave.
fn keep_verdicts(found: &mut [Result<LookedUpRequest, Verdict>], sessions: &[Option<Key16>])
    requires { length sessions.now ≡ length found.old }
    ensures { (issuer : Setup) (lines : List (List ℕ)) (checks : List DesCheck)
        → sessions.now ≡ map right_session checks
        → AreAhead issuer lines (record { found = found.old; checks = checks })
        → AreAhead issuer lines (record { found = found.new; checks = checks }) }
{
    for (i, element) in found.iter_mut().enumerate() {
        keep_verdict(element, sessions[i]);
    }
}
