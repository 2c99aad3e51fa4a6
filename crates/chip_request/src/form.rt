//! The forms of the fields' values.
ghost use Rattle.std.specs.Prelude.{◌≡◌, ◌==◌, ◌≤◌, ◌*◌, length, nat_le, take, take_while};
ghost use Rattle.std.specs.List.{list_all, flat_map};
ghost use Rattle.issuer_base.specs.CardNumber.{pan_from};
ghost use Rattle.issuer_base.specs.ChipData.{digits_of};
ghost use Rattle.chip_request.specs.Forms.{fits, account_number_in};

use issuer_base::{Pan, are_decimal, has_profile};

/// What the value of a field has to be.
#[derive(Clone, Copy)]
pub(crate) enum Form {
    /// So many bytes.
    Bytes(usize),
    /// So many bytes of two decimal digits each.
    Decimal(usize),
    /// An account number of 8 to 19 digits in 4 to 10 bytes, padded at its end with nibbles F.
    AccountNumber,
    /// Issuer application data of the profile's form, in 32 bytes.
    ApplicationData,
}

impl Form {
    /// Whether a value has this form.
    pub(crate) fn fits(self, value: &[u8]) -> bool
        ensures { result ≡ fits self value.now }
    {
        match self {
            Form::Bytes(count) => value.len() == count,
            Form::Decimal(count) => value.len() == count && are_decimal(value),
            Form::AccountNumber => account_number(value).is_some(),
            Form::ApplicationData => value.len() == 32 && has_profile(value),
        }
    }
}

/// The account number in a value, or `None` if it isn't of that form. A value of digits alone, as most are, is tried
/// first, and one of 16 digits before any other.
#[tactic(auto, unfolding(crate::specs::Fields::has_account_number, crate::specs::Fields::leading_digits, issuer_base::specs::CardNumber::pan_from))]
pub(crate) fn account_number(value: &[u8]) -> Option<Pan>
    ensures { result ≡ account_number_in value.now }
{
    let count = value.len();
    if count < 4 || count > 10 {
        return None;
    }
    if count == 8 {
        if let Some(pan) = sixteen_digits(value) {
            return Some(pan);
        }
    }
    let spread = nibbles_of(value);
    let nibbles = &spread[..2 * count];
    if let Some(pan) = Pan::new(nibbles) {
        return Some(pan);
    }
    let (digits, filling) = nibbles.split_at(decimal_prefix_length(nibbles));
    if !is_filling(filling) {
        return None;
    }
    Pan::new(digits)
}

/// The account number whose digits are the nibbles of eight bytes. All sizes are constant, so that the compiler can
/// handle all digits together.
fn sixteen_digits(value: &[u8]) -> Option<Pan>
    requires { length value.now ≡ 8 }
    ensures { result ≡ pan_from (flat_map digits_of value.now) }
{
    let mut nibbles = [0; 16];
    for place in 0..8 {
        nibbles[2 * place] = value[place] / 16;
        nibbles[2 * place + 1] = value[place] % 16;
    }
    Pan::new(&nibbles)
}

/// The nibbles of a value, as a prefix of the array.
fn nibbles_of(value: &[u8]) -> [u8; 20]
    requires { length value.now ≤ 10 }
    ensures { take (2 * length value.now) result ≡ flat_map digits_of value.now }
{
    let mut nibbles = [0; 20];
    for (place, byte) in value.iter().enumerate() {
        nibbles[2 * place] = byte / 16;
        nibbles[2 * place + 1] = byte % 16;
    }
    nibbles
}

fn decimal_prefix_length(nibbles: &[u8]) -> usize
    ensures count { result ≡ length (take_while (λ nibble. nat_le nibble 9) nibbles.now) }
    ensures within { result ≤ length nibbles.now }
{
    nibbles.iter().take_while(|nibble| **nibble <= 9).count()
}

fn is_filling(nibbles: &[u8]) -> bool
    ensures { result ≡ list_all (λ nibble. nibble == 15) nibbles.now }
{
    nibbles.iter().all(|nibble| *nibble == 0xF)
}
