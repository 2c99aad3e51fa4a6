//! What is kept of a decided record.

/// What is kept of a decided record: what a transaction certificate is compared with, where the record is, and whether
/// it is certified. 32 bytes.
#[derive(Clone, Copy)]
pub struct Filed {
    /// The number of the card.
    pub card: u32,

    /// The application transaction counter, tag 9F36.
    pub atc: u16,

    /// The amount authorised, twelve decimal digits, tag 9F02.
    pub amount: [u8; 6],

    /// The transaction's currency code, tag 5F2A.
    pub currency: [u8; 2],

    /// The transaction date, as YYMMDD, tag 9A.
    pub date: [u8; 3],

    /// The unpredictable number, tag 9F37.
    pub un: [u8; 4],

    /// Whether the issuer approved.
    pub approved: bool,

    /// The shard of the journal that has the record.
    pub shard: u8,

    /// The index of the record in that journal, from 0.
    pub place: u64,

    /// Whether a transaction certificate agreed with the record.
    pub certified: bool,
}
