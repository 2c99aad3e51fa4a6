//! The terminal's data of a transaction.

/// The terminal's data of a transaction: EMV 4.3 Book 3, Annex A.
#[derive(Clone, Copy)]
pub struct Terminal {
    /// The terminal verification results, tag 95.
    pub tvr: [u8; 5],

    /// The transaction date, as YYMMDD, tag 9A.
    pub date: [u8; 3],

    /// The transaction type, tag 9C.
    pub kind: u8,

    /// The amount authorised, twelve decimal digits, tag 9F02.
    pub amount: [u8; 6],

    /// The other amount, tag 9F03.
    pub other: [u8; 6],

    /// The terminal's country code, tag 9F1A.
    pub country: [u8; 2],

    /// The transaction's currency code, tag 5F2A.
    pub currency: [u8; 2],

    /// The unpredictable number, tag 9F37.
    pub un: [u8; 4],
}
