//! Parsers for one element of each list of a configuration: a key set, a card, a row of the decision table.
ghost use Rattle.std.specs.Prelude.{◌≡◌, codes};
ghost use Rattle.std.specs.Option.{option_and_then, option_zip};
ghost use Rattle.serde_json.specs.Find.{get};
ghost use Rattle.serde_json.specs.View.{view};
ghost use Rattle.config_read.specs.Elements.{aes_pair_in, bytes_member, card_in, key_set_in, smc_in, number_up_to, row_in, status_from, where_told};
ghost use Rattle.config_read.specs.RowParts.{decision_in};

use crate::json_value::{number_member, text_member};
use crate::words::{read_bytes, read_method, read_option, read_pan, read_psn, up_to};
use decision_table::{MAX_AMOUNT, TableRow, tells_approval};
use des_block::Key16;
use issuer_setup::CardInfo;
use key_derive::{AesPair, KeySet};
use serde_json::Value;

/// Parses an element as a key set.
#[tactic(auto, unfolding(crate::specs::Elements::key_set_in))]
pub(crate) fn read_key_set(element: &Value) -> Option<KeySet>
    ensures { result ≡ key_set_in (view element.now) }
{
    Some(KeySet {
        dki: small_number(element, "dki")?,
        option: read_option(text_member(element, "option")?)?,
        ac: Key16(bytes_member(element, "ac")?),
        smi: Key16(bytes_member(element, "smi")?),
        aes: read_aes_pair(element)?,
        smc: read_smc(element)?,
    })
}

/// Parses the AES keys of a key set: both members, or neither, which is the inner `None`.
#[tactic(auto, unfolding(crate::specs::Elements::aes_pair_in))]
fn read_aes_pair(element: &Value) -> Option<Option<AesPair>>
    ensures { result ≡ aes_pair_in (view element.now) }
{
    if element.get("aes_ac").is_none() && element.get("aes_smi").is_none() {
        return Some(None);
    }
    Some(Some(AesPair {
        ac: Key16(bytes_member(element, "aes_ac")?),
        smi: Key16(bytes_member(element, "aes_smi")?),
    }))
}

/// Parses the key for confidentiality of a key set, if the member is there; if it isn't, the inner `None`.
#[tactic(auto, unfolding(crate::specs::Elements::smc_in))]
fn read_smc(element: &Value) -> Option<Option<Key16>>
    ensures { result ≡ smc_in (view element.now) }
{
    if element.get("smc").is_none() {
        return Some(None);
    }
    Some(Some(Key16(bytes_member(element, "smc")?)))
}

/// Parses an element as a card.
#[tactic(auto, unfolding(crate::specs::Elements::card_in))]
pub(crate) fn read_card(element: &Value) -> Option<CardInfo>
    ensures { result ≡ card_in (view element.now) }
{
    Some(CardInfo {
        pan: read_pan(text_member(element, "pan")?)?,
        psn: read_psn(text_member(element, "psn")?)?,
        method: read_method(number_member(element, "method")?)?,
    })
}

/// Parses an element as a row of the decision table.
#[tactic(auto, unfolding(crate::specs::Elements::row_in))]
pub(crate) fn read_row(element: &Value) -> Option<TableRow>
    ensures { result ≡ row_in (view element.now) }
{
    let (tvr_mask, tvr_value) = read_bits(element, "tvr_mask", "tvr_value")?;
    let (cvr_mask, cvr_value) = read_bits(element, "cvr_mask", "cvr_value")?;
    let (least, most) = read_amounts(element)?;
    let status = read_status(element)?;
    let (arc, approve, csu) = read_decision(element)?;
    told(TableRow {
        tvr_mask,
        tvr_value,
        cvr_mask,
        cvr_value,
        least,
        most,
        status,
        arc,
        approve,
        csu,
    })
}

/// The mask and the value of these members.
fn read_bits(element: &Value, mask: &str, value: &str) -> Option<([u8; 5], [u8; 5])>
    ensures { result ≡ option_zip
        (bytes_member mask.now 5 (view element.now))
        (bytes_member value.now 5 (view element.now)) }
{
    Some((bytes_member(element, mask)?, bytes_member(element, value)?))
}

/// The least and the greatest amount of a row.
fn read_amounts(element: &Value) -> Option<(u64, u64)>
    ensures { result ≡ option_zip
        (number_up_to (codes "least") MAX_AMOUNT (view element.now))
        (number_up_to (codes "most") MAX_AMOUNT (view element.now)) }
{
    Some((
        read_amount(element, "least")?,
        read_amount(element, "most")?,
    ))
}

fn read_amount(element: &Value, name: &str) -> Option<u64>
    ensures { result ≡ number_up_to name.now MAX_AMOUNT (view element.now) }
{
    up_to(MAX_AMOUNT, number_member(element, name)?)
}

/// Parses the status of a row: 0 to 9, or any status, which is the inner `None`.
fn read_status(element: &Value) -> Option<Option<u8>>
    ensures { result ≡ option_and_then status_from (get (codes "status") (view element.now)) }
{
    let status = element.get("status")?;
    if status.is_null() {
        return Some(None);
    }
    Some(Some(up_to(9, status.as_u64()?)? as u8))
}

/// What a row decides: the response code, whether it approves, the card status update.
fn read_decision(element: &Value) -> Option<([u8; 2], bool, [u8; 4])>
    ensures { result ≡ decision_in (view element.now) }
{
    Some((
        bytes_member(element, "arc")?,
        element.get("approve")?.as_bool()?,
        bytes_member(element, "csu")?,
    ))
}

/// The row, if its card status update states the same decision.
fn told(row: TableRow) -> Option<TableRow>
    ensures { result ≡ where_told row }
{
    if tells_approval(&row) {
        Some(row)
    } else {
        None
    }
}

/// The number of this member, if it is at most 255.
fn small_number(element: &Value, name: &str) -> Option<u8>
    ensures { result ≡ number_up_to name.now 255 (view element.now) }
{
    Some(up_to(255, number_member(element, name)?)? as u8)
}

/// The bytes that the text of this member spells in hexadecimal.
fn bytes_member<const N: usize>(element: &Value, name: &str) -> Option<[u8; N]>
    ensures { result ≡ bytes_member name.now N (view element.now) }
{
    read_bytes(text_member(element, name)?)
}
