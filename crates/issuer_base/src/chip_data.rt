//! The formats of the bytes of a request's fields: EMV 4.3 Book 3, Annex A.
ghost use Rattle.std.specs.Prelude.{◌≡◌};
ghost use Rattle.std.specs.List.{list_all};
ghost use Rattle.issuer_base.specs.ChipData.{is_bcd, is_core_identifier, has_profile};

use crate::request::Suite;

/// Whether both nibbles of the byte are decimal digits: EMV 4.3 Book 3, section 4.3, format n.
#[tactic(auto, unfolding(crate::specs::ChipData::is_bcd))]
pub fn is_decimal(byte: u8) -> bool
    ensures { result ≡ is_bcd byte }
{
    byte / 16 <= 9 && byte % 16 <= 9
}

/// Whether all nibbles of the bytes are decimal digits.
pub fn are_decimal(bytes: &[u8]) -> bool
    ensures { result ≡ list_all is_bcd bytes.now }
{
    bytes.iter().all(|byte| is_decimal(*byte))
}

/// Whether issuer application data have the profile's form: 0F first, then the common core identifier, A5 for triple
/// DES or A6 for AES, and 0F before the issuer's discretionary data, at index 16. Shorter data don't.
#[tactic(auto, unfolding(crate::specs::ChipData::has_profile))]
pub fn has_profile(iad: &[u8]) -> bool
    ensures { result ≡ has_profile iad.now }
{
    iad.len() > 16 && iad[0] == 0x0F && is_core_identifier(iad[1]) && iad[16] == 0x0F
}

fn is_core_identifier(byte: u8) -> bool
    ensures { result ≡ is_core_identifier byte }
{
    Suite::of(byte).is_some()
}
