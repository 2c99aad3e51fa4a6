//! A card's application cryptogram, and the check of it, of one request or of up to 128 at once: EMV 4.3 Book 2, section
//! 8.1. With AES it is this project's profile.
//!
//! The cryptograms of many requests under triple DES are computed side by side, in lanes. No call allocates.
#![tactic(auto)]

mod checks;
mod joined;
mod sessions;

ghost use Rattle.std.specs.Prelude.{◌≡◌, ◌↔◌, length, IsTrue};
ghost use Rattle.key_derive.specs.SessionKey.{counter_bytes};
ghost use Rattle.cryptogram_in.specs.Cryptogram.{input, cryptogram_under};

pub use checks::{DesChecks, FEWEST_IN_LANES};
use issuer_base::Request;
use joined::Joined;
use key_derive::{MacKey, SessionKey};

/// The data under the application cryptogram: the ten data elements that EMV 4.3 Book 2, section 8.1.1
/// recommends, and the whole issuer application data, which is this project's profile.
pub fn input(request: &Request) -> [u8; 65]
    ensures { result ≡ input request.now }
{
    let parts = request.parts();
    let mut text = Joined::new();
    text.add(&parts.amount);
    text.add(&parts.other);
    text.add(&parts.country);
    text.add(&parts.tvr);
    text.add(&parts.currency);
    text.add(&parts.date);
    text.add(&[parts.kind]);
    text.add(&parts.un);
    text.add(&parts.aip);
    text.add(&counter_bytes(parts.atc));
    text.add(&parts.iad);
    text.whole()
}

fn counter_bytes(atc: u16) -> [u8; 2]
    ensures { result ≡ counter_bytes atc }
{
    atc.to_be_bytes()
}

/// The application cryptogram that a card computes over the request under this session key: the MAC of its suite, EMV
/// 4.3 Book 2, section 8.1.2. Computes the key schedules of the session key, and eleven block operations of DES or five of
/// AES.
pub fn expected(session: &SessionKey, request: &Request) -> [u8; 8]
    ensures { result ≡ cryptogram_under session.now request.now }
{
    MacKey::new(session.suite(), session.key()).mac(&input(request))
}

/// Whether the request's cryptogram is the expected one under this session key, in all eight bytes.
pub fn holds(session: &SessionKey, request: &Request) -> bool
    ensures right { IsTrue result ↔ (request.now.ac ≡ cryptogram_under session.now request.now) }
    ensures len { length (cryptogram_under session.now request.now) ≡ 8 }
{
    expected(session, request) == request.parts().ac
}
