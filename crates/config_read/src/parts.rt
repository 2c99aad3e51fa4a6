//! The parts of a configuration, in order, each with its first fault.
ghost use Rattle.std.specs.Prelude.{◌≡◌, ◌≢◌, ◌+◌, ◌<◌, ◌≤◌, length, map, MatchResult, IfOk, Ok, Err, codes};
ghost use Rattle.std.specs.Option.{option_and_then};
ghost use Rattle.serde_json.specs.View.{view};
ghost use Rattle.issuer_setup.specs.Shards.{shards_from};
ghost use Rattle.config_read.specs.Json.{number_member};
ghost use Rattle.config_read.specs.Parts.{cards_in, keys_in, part_elements, shards_in, table_in};

use crate::fault::{ConfigFault, ConfigPart};
use crate::front::{front_cards, front_keys, front_rows};
use crate::json_value::{list_member, number_member};
use decision_table::Table;
use issuer_base::{MAX_CARDS, MAX_KEY_SETS, MAX_TABLE_ROWS};
use issuer_setup::{Cards, CardsFault, KeySets, ShardCount};
use serde_json::Value;
use std::alloc::Global;

/// Parses the number of shards, 1 to 16.
pub(crate) fn read_shards(value: &Value) -> Result<ShardCount, ConfigFault>
    ensures { result ≡ shards_in (view value.now) }
{
    shard_count(value).ok_or(ConfigFault::of_part(ConfigPart::Shards))
}

fn shard_count(value: &Value) -> Option<ShardCount>
    ensures { result ≡ option_and_then shards_from (number_member (codes "shards") (view value.now)) }
{
    match number_member(value, "shards")? {
        count @ 0..=255 => ShardCount::new(count as u8),
        _ => None,
    }
}

/// Parses the 1 to 16 key sets, no two with the same index.
pub(crate) fn read_keys(value: &Value) -> Result<KeySets, ConfigFault>
    ensures { result ≡ keys_in (view value.now) }
{
    let elements = part_elements(ConfigPart::Keys, "keys", MAX_KEY_SETS, value)?;
    let keys = match KeySets::new(front_keys(elements)) {
        Ok(keys) => keys,
        Err(place) => return Err(ConfigFault::of_element(ConfigPart::Keys, place)),
    };
    all_said(ConfigPart::Keys, keys.as_slice().len(), elements)?;
    Ok(keys)
}

/// Parses the 1 to 4,096 cards, no two with the same account and sequence number.
pub(crate) fn read_cards(alloc: Global, value: &Value) -> Result<Cards, ConfigFault>
    ensures { MatchResult result
        (λ cards. cards_in (view value.now) ≡ Ok cards)
        (λ fault. fault ≢ ConfigFault.NoMemory → cards_in (view value.now) ≡ Err fault) }
{
    let elements = part_elements(ConfigPart::Cards, "cards", MAX_CARDS, value)?;
    let cards = match Cards::new(alloc, front_cards(alloc, elements)?) {
        Ok(cards) => cards,
        Err(CardsFault::Card(place)) => return Err(ConfigFault::of_element(
            ConfigPart::Cards,
            place,
        )),
        Err(CardsFault::NoMemory) => return Err(ConfigFault::NoMemory),
    };
    all_said(ConfigPart::Cards, cards.as_slice().len(), elements)?;
    Ok(cards)
}

/// Parses the 1 to 64 rows, of which the last matches every request.
pub(crate) fn read_table(value: &Value) -> Result<Table, ConfigFault>
    ensures { result ≡ table_in (view value.now) }
{
    let elements = part_elements(ConfigPart::Table, "table", MAX_TABLE_ROWS, value)?;
    let rows = front_rows(elements);
    all_said(ConfigPart::Table, rows.len(), elements)?;
    match Table::new(rows) {
        Some(table) => Ok(table),
        None => Err(ConfigFault::At {
            part: ConfigPart::Table,
            index: elements.len() as u32,
        }),
    }
}

/// The elements of a part, if it is a list of 1 to `most`.
fn part_elements<'a>(
    part: ConfigPart,
    name: &str,
    most: usize,
    value: &'a Value,
) -> Result<&'a [Value], ConfigFault>
    ensures elements { MatchResult result
        (λ elements. part_elements part name.now most (view value.now) ≡ Ok (map view elements.now))
        (λ fault. part_elements part name.now most (view value.now) ≡ Err fault) }
    ensures some { IfOk result (λ elements. 1 ≤ length elements.now) }
    ensures few { IfOk result (λ elements. length elements.now ≤ most) }
{
    match list_member(value, name) {
        Some(elements) if !elements.is_empty() && elements.len() <= most => Ok(elements),
        _ => Err(ConfigFault::of_part(part)),
    }
}

/// The fault of the first malformed element, if only the first `said` elements were parsed.
fn all_said(part: ConfigPart, said: usize, elements: &[Value]) -> Result<(), ConfigFault>
    requires { length elements.now ≤ MAX_CARDS }
    ensures { MatchResult result
        (λ _. length elements.now ≤ said)
        (λ fault. (said < length elements.now) × (fault ≡ ConfigFault.At part (said + 1))) }
{
    if said < elements.len() {
        return Err(ConfigFault::of_element(part, said as u32));
    }
    Ok(())
}
