//! The elements of a part parsed in order, up to the first that is malformed.
ghost use Rattle.std.specs.Prelude.{◌≡◌, ◌≤◌, length, map, IfOk};
ghost use Rattle.serde_json.specs.View.{view};
ghost use Rattle.config_read.specs.Elements.{card_in, key_set_in, row_in};
ghost use Rattle.config_read.specs.Front.{front};

use crate::elements::{read_card, read_key_set, read_row};
use arrayvec::ArrayVec;
use decision_table::TableRow;
use issuer_base::{MAX_KEY_SETS, MAX_TABLE_ROWS, NoMemory};
use issuer_setup::CardInfo;
use key_derive::KeySet;
use serde_json::Value;
use std::alloc::Global;

/// Parses the elements as key sets, up to the first that is malformed.
pub(crate) fn front_keys(elements: &[Value]) -> ArrayVec<KeySet, MAX_KEY_SETS>
    requires { length elements.now ≤ MAX_KEY_SETS }
    ensures { result.items ≡ front key_set_in (map view elements.now) }
{
    let mut keys = ArrayVec::new();
    for element in elements {
        let Some(set) = read_key_set(element) else {
            return keys;
        };
        keys.push(set);
    }
    keys
}

/// Parses the elements as cards, up to the first that is malformed.
pub(crate) fn front_cards(alloc: Global, elements: &[Value]) -> Result<Vec<CardInfo>, NoMemory>
    ensures cards { IfOk result (λ cards. cards.items ≡ front card_in (map view elements.now)) }
    ensures few { IfOk result (λ cards. length cards.items ≤ length elements.now) }
{
    let mut cards = Vec::with_capacity(alloc, elements.len())?;
    for element in elements {
        let Some(card) = read_card(element) else {
            return Ok(cards);
        };
        cards.push_reserved(card);
    }
    Ok(cards)
}

/// Parses the elements as rows, up to the first that is malformed.
pub(crate) fn front_rows(elements: &[Value]) -> ArrayVec<TableRow, MAX_TABLE_ROWS>
    requires { length elements.now ≤ MAX_TABLE_ROWS }
    ensures { result.items ≡ front row_in (map view elements.now) }
{
    let mut rows = ArrayVec::new();
    for element in elements {
        let Some(row) = read_row(element) else {
            return rows;
        };
        rows.push(row);
    }
    rows
}
