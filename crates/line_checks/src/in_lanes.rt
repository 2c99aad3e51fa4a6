//! Checks of many requests' cryptograms at once, ahead of each request's turn.
ghost use Rattle.std.specs.Prelude.{◌≡◌, ◌<◌, ◌≤◌, [], length, All};
ghost use Rattle.std.specs.List.{AllZip};
ghost use Rattle.cryptogram_in.specs.Checks.{DesCheck, right_session};
ghost use Rattle.issuer_setup.specs.IssuerSetup.{Setup};
ghost use Rattle.line_checks.specs.LookedUp.{AppendsOne, IsReady, IsCheckOf, IsLookedUpAgain};

use crate::looked_up::LookedUp;
use cryptogram_in::{DesChecks, FEWEST_IN_LANES};
use des_block::Key16;
use issuer_base::Refusal;
use issuer_setup::Issuer;

/// Checks the cryptograms of the requests among up to 128 results of look-ups together, if enough of them are of triple
/// DES: [`FEWEST_IN_LANES`]. Each of these requests then has its verdict, and
/// [`LookedUpRequest::check`](crate::LookedUpRequest::check) doesn't compute its cryptogram again. It doesn't allocate.
pub fn check_in_lanes(issuer: &Issuer, found: &mut [Result<LookedUp, Refusal>])
    requires few { length found.old ≤ 128 }
    requires ready { All (IsReady issuer.now) found.old }
    ensures { AllZip (IsLookedUpAgain issuer.now) found.old found.new }
{
    if count_in_lanes(found) >= FEWEST_IN_LANES {
        check_all(issuer, found);
    }
}

/// Checks all cryptograms of triple DES. It is a function of its own, so that few requests don't pay for its arrays.
#[inline(never)]
fn check_all(issuer: &Issuer, found: &mut [Result<LookedUp, Refusal>])
    requires few { length found.old ≤ 128 }
    requires ready { All (IsReady issuer.now) found.old }
    ensures { AllZip (IsLookedUpAgain issuer.now) found.old found.new }
{
    let mut checks = DesChecks::new();
    add_checks(issuer, found, &mut checks);
    let sessions = checks.right_sessions();
    for (i, element) in found.iter_mut().enumerate() {
        keep_verdict(element, sessions.as_slice()[i]);
    }
}

/// How many requests of triple DES there are.
fn count_in_lanes(found: &[Result<LookedUp, Refusal>]) -> usize {
    found.iter().filter(|element| is_in_lanes(element)).count()
}

fn is_in_lanes(found: &Result<LookedUp, Refusal>) -> bool {
    match found {
        Ok(LookedUp::Request(sought)) => sought.request.suite().goes_in_lanes(),
        _ => false,
    }
}

/// Adds the check of each request of triple DES, at the index of the request. At each other index is a check of zeros.
fn add_checks(issuer: &Issuer, found: &[Result<LookedUp, Refusal>], checks: &mut DesChecks)
    requires few { length found.now ≤ 128 }
    requires ready { All (IsReady issuer.now) found.now }
    requires empty { checks.old ≡ [] }
    ensures { AllZip (IsCheckOf issuer.now) found.now checks.new }
{
    for element in found {
        add_check(issuer, element, checks);
    }
}

/// Adds the check of a request of triple DES, and for anything else a check of zeros.
fn add_check(issuer: &Issuer, found: &Result<LookedUp, Refusal>, checks: &mut DesChecks)
    requires ready { IsReady issuer.now found.now }
    requires room { length checks.old < 128 }
    ensures { AppendsOne (IsCheckOf issuer.now found.now) checks.old checks.new }
{
    match found {
        Ok(LookedUp::Request(sought)) => sought.add_check(issuer, checks),
        _ => checks.push_blank(),
    }
}

/// Keeps the verdict of the check that gave this session key, or none, if it is that of a request whose key is of triple
/// DES.
fn keep_verdict(found: &mut Result<LookedUp, Refusal>, session: Option<Key16>)
    ensures { (issuer : Setup) (check : DesCheck) → IsReady issuer found.old → IsCheckOf issuer found.old check
        → session ≡ right_session check → IsLookedUpAgain issuer found.old found.new }
{
    if let Ok(LookedUp::Request(sought)) = found {
        sought.keep_verdict(session);
    }
}
