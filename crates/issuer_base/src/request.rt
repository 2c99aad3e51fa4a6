//! The fields of a request, and a request whose fields have their forms.
ghost use Rattle.std.specs.Prelude.{◌≡◌, ◌<◌, ◌↔◌, IsTrue, true};
ghost use Rattle.std.specs.List.{list_all, flat_map};
ghost use Rattle.issuer_base.specs.ChipData.{is_request, request_from, is_arqc, cvr, suite_named, suite_of, dki, script_count, last_online, amount_value, is_bcd, decimal, digits_of};

use crate::chip_data::{are_decimal, has_profile, is_decimal};
use crate::pan::Pan;
use std::marker::Model;

/// The algorithms of a card's keys, cryptograms and secure messaging. The common core identifier of a request's issuer
/// application data names it.
#[derive(Clone, Copy, PartialEq, Eq, Debug)]
pub enum Suite {
    /// Triple DES and the retail MAC, EMV 4.3 Book 2, Annexes A1 and B1: the identifier A5.
    TripleDes,

    /// AES-128 and CMAC, by this project's profile: the identifier A6.
    Aes,
}

impl Suite {
    /// The suite that a common core identifier names. `None` for any other byte.
    #[tactic(auto, unfolding(crate::specs::ChipData::suite_named))]
    pub fn of(identifier: u8) -> Option<Suite>
        ensures { result ≡ suite_named identifier }
    {
        match identifier {
            0xA5 => Some(Suite::TripleDes),
            0xA6 => Some(Suite::Aes),
            _ => None,
        }
    }

    /// Whether cryptograms of this suite are checked many at once, in lanes.
    pub fn goes_in_lanes(self) -> bool
        ensures { IsTrue result ↔ (self ≡ Suite.TripleDes) }
    {
        match self {
            Suite::TripleDes => true,
            Suite::Aes => false,
        }
    }
}

/// The fields of one request for a cryptogram's check, as the terminal sends them: EMV 4.3 Book 3, Annex A.
#[derive(Clone, Copy, PartialEq, Eq)]
pub struct Parts {
    /// The primary account number, tag 5A.
    pub pan: Pan,

    /// The card's sequence number, two decimal digits, tag 5F34; 0 where the card has none.
    pub psn: u8,

    /// The application interchange profile, tag 82.
    pub aip: [u8; 2],

    /// The application transaction counter, tag 9F36.
    pub atc: u16,

    /// The terminal verification results, tag 95.
    pub tvr: [u8; 5],

    /// The transaction date, as YYMMDD, tag 9A.
    pub date: [u8; 3],

    /// The transaction type, tag 9C.
    pub kind: u8,

    /// The amount authorised, twelve decimal digits, tag 9F02.
    pub amount: [u8; 6],

    /// The other amount, tag 9F03.
    pub other: [u8; 6],

    /// The terminal's country code, tag 9F1A.
    pub country: [u8; 2],

    /// The transaction's currency code, tag 5F2A.
    pub currency: [u8; 2],

    /// The unpredictable number, tag 9F37.
    pub un: [u8; 4],

    /// The cryptogram information data, tag 9F27.
    pub cid: u8,

    /// The issuer application data, tag 9F10.
    pub iad: [u8; 32],

    /// The application cryptogram, tag 9F26.
    pub ac: [u8; 8],
}

impl Parts {
    /// Whether all fields are the same, as `==` is.
    pub fn is_same(&self, other: &Parts) -> bool
        ensures { IsTrue result ↔ (self.now ≡ other.now) }
    {
        self == other
    }
}

/// A request whose fields have the forms that the host reads.
///
/// A contract sees its `Parts`.
#[derive(Clone, Copy, PartialEq, Eq)]
pub struct Request {
    fields: Parts,
}

impl Model for Request {
    ghost use Rattle.std.specs.Prelude.{IsTrue};
    ghost use Rattle.issuer_base.specs.declared.request.Parts.{Parts};
    ghost use Rattle.issuer_base.specs.ChipData.{is_request};

    ghost Value = { Parts };

    ghost view = { λ request. request.fields };

    ghost invariant = { λ request. IsTrue (is_request request.fields) };

    ghost inverse = { λ parts. record { fields = parts } };
}

impl Request {
    /// The request with these fields. `None` where the sequence number or the amount isn't decimal, or
    /// the issuer application data isn't of the profile's form: 0F first, then the common core
    /// identifier A5 or A6, and 0F before the issuer's discretionary data.
    #[tactic(auto, unfolding(crate::specs::ChipData::request_from))]
    #[inline(always)]
    pub fn new(parts: Parts) -> Option<Request>
        ensures { result ≡ request_from parts }
    {
        if has_form(&parts) {
            Some(Request { fields: parts })
        } else {
            None
        }
    }

    /// The fields.
    pub fn parts(&self) -> &Parts
        ensures same { result.now ≡ self.now }
        ensures valid { IsTrue (is_request self.now) }
    {
        &self.fields
    }

    /// Whether the two have the same fields, as `==` is.
    pub fn is_same(&self, other: &Request) -> bool
        ensures { IsTrue result ↔ (self.now ≡ other.now) }
    {
        self == other
    }

    /// Whether the cryptogram is an ARQC, a request to go online, and the first of its transaction:
    /// both the cryptogram information data and the card verification results say so.
    #[tactic(auto, unfolding(crate::specs::ChipData::is_arqc))]
    pub fn is_arqc(&self) -> bool
        ensures { result ≡ is_arqc self.now }
    {
        self.fields.cid & 0xC0 == 0x80 && self.cvr()[0] & 0xF0 == 0xA0
    }

    /// The card verification results.
    #[tactic(auto, unfolding(crate::specs::ChipData::cvr))]
    pub fn cvr(&self) -> [u8; 5]
        ensures { result ≡ cvr self.now }
    {
        let mut results = [0; 5];
        results.copy_from_slice(&self.fields.iad[3..8]);
        results
    }

    /// The suite of the request's card.
    #[tactic(auto, unfolding(crate::specs::ChipData::suite_of))]
    pub fn suite(&self) -> Suite
        ensures { result ≡ suite_of self.now }
    {
        match Suite::of(self.fields.iad[1]) {
            Some(suite) => suite,
            None => unreachable!(),
        }
    }

    /// The derivation key index, which names the issuer's key set.
    #[tactic(auto, unfolding(crate::specs::ChipData::dki))]
    pub fn dki(&self) -> u8
        ensures { result ≡ dki self.now }
    {
        self.fields.iad[2]
    }

    /// How many issuer script commands the card has processed since it last verified an ARPC.
    #[tactic(auto, unfolding(crate::specs::ChipData::script_count))]
    pub fn script_count(&self) -> u8
        ensures { result ≡ script_count self.now }
    {
        self.cvr()[3] / 16
    }

    /// The ATC of the last transaction in which the card verified an ARPC: the card's last online ATC
    /// register.
    #[tactic(auto, unfolding(crate::specs::ChipData::last_online))]
    pub fn last_online(&self) -> u16
        ensures { result ≡ last_online self.now }
    {
        u16::from_be_bytes([self.fields.iad[17], self.fields.iad[18]])
    }

    /// The amount authorised, in the currency's smallest unit.
    #[tactic(auto, unfolding(crate::specs::ChipData::amount_value))]
    pub fn amount_value(&self) -> u64
        ensures exact { result ≡ amount_value self.now }
        ensures below { result < 1_000_000_000_000 }
    {
        decimal_value(&self.fields.amount)
    }
}

#[tactic(auto, unfolding(crate::specs::ChipData::is_request))]
fn has_form(parts: &Parts) -> bool
    ensures { result ≡ is_request parts.now }
{
    is_decimal(parts.psn) && are_decimal(&parts.amount) && has_profile(&parts.iad)
}

/// The number that these BCD bytes encode.
fn decimal_value(amount: &[u8; 6]) -> u64
    requires { list_all is_bcd amount.now ≡ true }
    ensures exact { result ≡ decimal (flat_map digits_of amount.now) }
    ensures below { result < 1_000_000_000_000 }
{
    let mut value = 0;
    for byte in amount {
        value = value * 100 + u64::from(byte / 16 * 10 + byte % 16);
    }
    value
}
