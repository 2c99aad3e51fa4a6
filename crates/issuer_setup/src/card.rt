//! A card of an issuer.

use issuer_base::{Method, Pan};

/// A card of the issuer, as the configuration names it.
#[derive(Drop)]
pub struct CardInfo {
    /// The primary account number, tag 5A.
    pub pan: Pan,

    /// The card's sequence number, two decimal digits, tag 5F34.
    pub psn: u8,

    /// The method by which its ARPC is computed.
    pub method: Method,
}
