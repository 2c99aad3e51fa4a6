//! A JSON value parsed from bytes, and its members.
ghost use Rattle.std.specs.Prelude.{◌≡◌, ◌≢◌, Some, None, map, IfOk, IfErr};
ghost use Rattle.std.specs.Option.{option_map};
ghost use Rattle.serde_json.specs.View.{view};
ghost use Rattle.config_read.specs.Json.{json_of, list_member, number_member, text_member};

use crate::fault::ConfigFault;
use serde_json::Value;
use std::alloc::Global;

/// Parses these bytes as one JSON value.
#[tactic(auto, unfolding(crate::specs::Json::json_of))]
pub(crate) fn read_json(alloc: Global, bytes: &[u8]) -> Result<Value, ConfigFault>
    ensures value { IfOk result (λ value. json_of bytes.now ≡ Some (view value)) }
    ensures none { IfErr result (λ fault. fault ≢ ConfigFault.NoMemory
        → (fault ≡ ConfigFault.NotJson) × (json_of bytes.now ≡ None)) }
{
    match Value::from_slice(alloc, bytes) {
        Ok(value) => Ok(value),
        Err(error) if error.is_memory() => Err(ConfigFault::NoMemory),
        Err(_) => Err(ConfigFault::NotJson),
    }
}

/// The text of the member with this name. `None` if there is no such member, or it is no text.
pub(crate) fn text_member<'a>(element: &'a Value, name: &str) -> Option<&'a str>
    ensures { option_map (λ text. text.now) result ≡ text_member name.now (view element.now) }
{
    element.get(name)?.as_str()
}

/// The unsigned whole number of the member with this name. `None` if there is no such member, or it is no such
/// number.
pub(crate) fn number_member(element: &Value, name: &str) -> Option<u64>
    ensures { result ≡ number_member name.now (view element.now) }
{
    element.get(name)?.as_u64()
}

/// The elements of the list of the member with this name. `None` if there is no such member, or it is no list.
pub(crate) fn list_member<'a>(value: &'a Value, name: &str) -> Option<&'a [Value]>
    ensures { option_map (λ elements. map view elements.now) result ≡ list_member name.now (view value.now) }
{
    Some(value.get(name)?.as_array()?.as_slice())
}
