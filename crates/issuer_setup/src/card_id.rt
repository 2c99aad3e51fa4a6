//! The names of cards in integers, for lookup by hash.
ghost use Rattle.std.specs.Prelude.{◌≡◌, ◌+◌, ◌≤◌, length, IsTrue};
ghost use Rattle.issuer_base.specs.CardNumber.{is_pan};
ghost use Rattle.issuer_setup.specs.CardIds.{card_id, word_at};

use issuer_base::Pan;

/// The name of a card: its account number in three words of eight digits, and its sequence number.
///
/// An account number has 8 to 19 digits. So each is among the first eight, the eight in the middle or the last eight.
#[derive(PartialEq, Eq, Hash, Drop)]
pub(crate) struct CardId {
    first: u64,
    middle: u64,
    last: u64,

    /// How many digits the account number has.
    count: u8,
    psn: u8,
}

impl CardId {
    /// The name with this account and sequence number.
    #[tactic(auto, using(crate::proofs::CardIdLemmas::pan_sized), unfolding(crate::specs::CardIds::card_id))]
    pub(crate) fn new(pan: &Pan, psn: u8) -> CardId
        ensures id { result ≡ card_id (record { pan = pan.now; psn = psn }) }
        ensures valid { IsTrue (is_pan pan.now) }
    {
        let digits = pan.digits();
        let last = digits.len() - 8;
        CardId {
            first: word(digits, 0),
            middle: word(digits, last / 2),
            last: word(digits, last),
            count: digits.len() as u8,
            psn,
        }
    }
}

/// The eight digits from this index, a byte each.
fn word(digits: &[u8], index: usize) -> u64
    requires { index + 8 ≤ length digits.now }
    ensures { result ≡ word_at digits.now index }
{
    u64::from_le_bytes(digits[index..index + 8].try_into().unwrap())
}
