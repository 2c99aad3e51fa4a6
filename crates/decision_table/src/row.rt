//! A row of a decision table.
ghost use Rattle.std.specs.Prelude.{◌≡◌, ◌==◌};
ghost use Rattle.std.specs.List.{list_all};
ghost use Rattle.issuer_base.specs.ChipData.{amount_value};
ghost use Rattle.decision_table.specs.Fitting.{has_bits, is_for, fits};
ghost use Rattle.decision_table.specs.Tables.{tells_approval, takes_all};

use issuer_base::Request;

/// The greatest amount of a request, in the currency's smallest unit: twelve decimal digits.
pub const MAX_AMOUNT: u64 = 999_999_999_999;

/// One row of a decision table: which requests it matches, and what it decides.
#[derive(Clone, Copy, Default)]
pub struct TableRow {
    /// Which bits of the terminal verification results, tag 95, are compared.
    pub tvr_mask: [u8; 5],

    /// The required value of these bits.
    pub tvr_value: [u8; 5],

    /// Which bits of the card verification results are compared.
    pub cvr_mask: [u8; 5],

    /// The required value of these bits.
    pub cvr_value: [u8; 5],

    /// The least amount, in the currency's smallest unit.
    pub least: u64,

    /// The greatest amount, in the same unit, inclusive.
    pub most: u64,

    /// The required status of the card; `None` if it may have any.
    pub status: Option<u8>,

    /// The authorisation response code of the reply, tag 8A.
    pub arc: [u8; 2],

    /// Whether the reply approves.
    pub approve: bool,

    /// The card status update of the reply. Its layout is this project's profile: byte 2 bit 8 is set exactly if
    /// the reply approves.
    pub csu: [u8; 4],
}

/// Whether the row matches a card of this status and this request, whose amount is also given.
#[tactic(auto, unfolding(crate::specs::Fitting::fits))]
pub(crate) fn fits(row: &TableRow, status: u8, request: &Request, amount: u64) -> bool
    requires { amount ≡ amount_value request.now }
    ensures { result ≡ fits status request.now row.now }
{
    is_for(row.status, status)
        && row.least <= amount
        && amount <= row.most
        && has_bits(&row.tvr_mask, &row.tvr_value, &request.parts().tvr)
        && has_bits(&row.cvr_mask, &row.cvr_value, &request.cvr())
}

/// Whether a row that requires this status, or none, matches a card of that status.
fn is_for(wanted: Option<u8>, status: u8) -> bool
    ensures { result ≡ is_for wanted status }
{
    match wanted {
        Some(wanted) => wanted == status,
        None => true,
    }
}

/// Whether these bytes under the mask are the value.
fn has_bits(mask: &[u8; 5], value: &[u8; 5], bytes: &[u8; 5]) -> bool
    ensures { result ≡ has_bits mask.now value.now bytes.now }
{
    for index in 0..5 {
        if bytes[index] & mask[index] != value[index] {
            return false;
        }
    }
    true
}

/// Whether the row's card status update has the row's approval.
#[tactic(auto, unfolding(crate::specs::Tables::tells_approval))]
pub fn tells_approval(row: &TableRow) -> bool
    ensures { result ≡ tells_approval row.now }
{
    let approved = row.csu[1] & 0x80 == 0x80;
    if row.approve { approved } else { !approved }
}

/// Whether the row compares no bit, amount or status, and so matches every request.
#[tactic(auto, unfolding(crate::specs::Tables::takes_all))]
pub(crate) fn takes_all(row: &TableRow) -> bool
    ensures { result ≡ takes_all row.now }
{
    are_zeros(&row.tvr_mask)
        && are_zeros(&row.tvr_value)
        && are_zeros(&row.cvr_mask)
        && are_zeros(&row.cvr_value)
        && row.least == 0
        && row.most == MAX_AMOUNT
        && row.status.is_none()
}

fn are_zeros(bytes: &[u8; 5]) -> bool
    ensures { result ≡ list_all (λ byte. byte == 0) bytes.now }
{
    bytes.iter().all(|byte| *byte == 0)
}
