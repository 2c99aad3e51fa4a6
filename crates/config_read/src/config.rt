//! The parser of a configuration: an issuer, or its first fault.
ghost use Rattle.std.specs.Prelude.{◌≡◌, ◌≢◌, Ok, Err, IfOk, IfErr};
ghost use Rattle.serde_json.specs.View.{view};
ghost use Rattle.config_read.specs.Configuration.{configured, setup_in, HasValidParts};

use crate::fault::{ConfigFault, ConfigPart};
use crate::json_value::read_json;
use crate::parts::{read_cards, read_keys, read_shards, read_table};
use issuer_setup::Issuer;
use serde_json::Value;
use std::alloc::Global;

/// The most bytes of a configuration.
pub const MAX_CONFIG_BYTES: usize = 4_194_304;

/// Parses these bytes as a configuration. The error is `NotJson` for a text that isn't one JSON value, and `NoMemory`
/// if memory runs out. Else it is the first fault of the configuration. A text of more than 4,194,304 bytes is a fault
/// of the whole.
#[tactic(auto, unfolding(crate::specs::Configuration::configured))]
pub fn read_config(alloc: Global, bytes: &[u8]) -> Result<Issuer, ConfigFault>
    ensures issuer { IfOk result (λ issuer. configured bytes.now ≡ Ok issuer) }
    ensures valid { IfOk result HasValidParts }
    ensures refused { IfErr result (λ fault. fault ≢ ConfigFault.NoMemory → configured bytes.now ≡ Err fault) }
{
    if bytes.len() > MAX_CONFIG_BYTES {
        return Err(ConfigFault::of_part(ConfigPart::Whole));
    }
    let value = read_json(alloc, bytes)?;
    read_issuer(alloc, &value)
}

/// Parses a JSON value as an issuer.
fn read_issuer(alloc: Global, value: &Value) -> Result<Issuer, ConfigFault>
    ensures issuer { IfOk result (λ issuer. setup_in (view value.now) ≡ Ok issuer) }
    ensures valid { IfOk result HasValidParts }
    ensures refused { IfErr result (λ fault. fault ≢ ConfigFault.NoMemory → setup_in (view value.now) ≡ Err fault) }
{
    if !value.is_object() {
        return Err(ConfigFault::of_part(ConfigPart::Whole));
    }
    let shards = read_shards(value)?;
    let keys = read_keys(value)?;
    let cards = read_cards(alloc, value)?;
    let table = read_table(value)?;
    Ok(Issuer::of(alloc, shards, keys, cards, table)?)
}
