//! What the check of a line finds.

use claim_words::Claim;
use line_checks::{CheckedOrder, CheckedRequest};

/// What a line asks of a card that the issuer has, once it passed every check. It must be finished: it can't be
/// dropped.
pub enum Checked {
    /// A request is to be decided, and whether its ATC was claimed for it.
    Decide { found: CheckedRequest, claim: Claim },

    /// An order for a card is to be recorded.
    Order(CheckedOrder),
}
