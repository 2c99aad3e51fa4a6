//! The primary account number of a card.
ghost use Rattle.std.specs.Prelude.{◌≡◌, ◌≤◌, ◌==◌, ◌↔◌, length, IsTrue, nat_le};
ghost use Rattle.std.specs.Cmp.Lexicographic.{pointwise};
ghost use Rattle.std.specs.Cmp.Rules.{comparing};
ghost use Rattle.std.specs.List.{list_all};
ghost use Rattle.std.proofs.Common.{rules};
ghost use Rattle.issuer_base.specs.CardNumber.{is_pan, pan_from};

use crate::limits::{MAX_PAN_DIGITS, MIN_PAN_DIGITS};
use std::marker::Model;

/// A card's primary account number: 8 to 19 decimal digits, from the left, each a value from 0 to 9.
///
/// A contract sees the list of its digits.
#[derive(Clone, Copy)]
pub struct Pan {
    /// The digits, and zeros after them.
    digits: [u8; MAX_PAN_DIGITS],

    /// How many digits there are.
    count: u8,
}

impl Model for Pan {
    ghost use Rattle.std.specs.Prelude.{◌≡◌, List, ℕ, IsTrue, length, take};
    ghost use Rattle.issuer_base.specs.CardNumber.{is_pan, filled_up};

    ghost Value = { List ℕ };

    ghost view = { λ pan. take pan.count pan.digits };

    ghost invariant = { λ pan. IsTrue (is_pan (take pan.count pan.digits))
        × (length (take pan.count pan.digits) ≡ pan.count)
        × (filled_up (take pan.count pan.digits) ≡ pan.digits) };

    ghost inverse = { λ digits. record { digits = filled_up digits; count = length digits } };

    ghost inverse_ok = { λ pan h. Prim.simp (h.1, h.2) };
}

impl PartialEq for Pan {
    ghost eq = { pointwise ◌==◌ };

    ghost laws = { Prim.search (comparing, rules) };

    fn eq(&self, other: &Pan) -> bool {
        self.digits == other.digits && self.count == other.count
    }
}

impl Eq for Pan {
    ghost laws = { Prim.search (comparing, rules) };
}

impl Pan {
    /// The account number with these digits. `None` where there are fewer than 8 or more than 19, or
    /// one is above 9.
    #[tactic(auto, unfolding(crate::specs::CardNumber::pan_from))]
    #[inline(always)]
    pub fn new(digits: &[u8]) -> Option<Pan>
        ensures { result ≡ pan_from digits.now }
    {
        if !is_account_number(digits) {
            return None;
        }
        let mut filled = [0; MAX_PAN_DIGITS];
        filled[..digits.len()].copy_from_slice(digits);
        Some(Pan {
            digits: filled,
            count: digits.len() as u8,
        })
    }

    /// The digits, from the left.
    pub fn digits(&self) -> &[u8]
        ensures same { result.now ≡ self.now }
        ensures valid { IsTrue (is_pan self.now) }
    {
        &self.digits[..usize::from(self.count)]
    }

    /// Whether the two are the same number, as `==` is.
    pub fn is_same(&self, other: &Pan) -> bool
        ensures { IsTrue result ↔ (self.now ≡ other.now) }
    {
        self == other
    }
}

#[tactic(auto, unfolding(crate::specs::CardNumber::is_pan))]
fn is_account_number(digits: &[u8]) -> bool
    ensures exact { result ≡ is_pan digits.now }
    ensures fits { IsTrue result → length digits.now ≤ MAX_PAN_DIGITS }
{
    (MIN_PAN_DIGITS..=MAX_PAN_DIGITS).contains(&digits.len()) && are_digits(digits)
}

/// Whether each is at most 9. The loop has no branch per digit, so that the compiler can vectorise it.
fn are_digits(digits: &[u8]) -> bool
    ensures { result ≡ list_all (λ digit. nat_le digit 9) digits.now }
{
    let mut are_small = true;
    for digit in digits {
        are_small &= *digit <= 9;
    }
    are_small
}
