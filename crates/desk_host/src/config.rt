//! The configuration: read to its end, and taken as an issuer's keys and cards.
ghost use Rattle.std.specs.Prelude.{◌≡◌, false, IfOk, IfErr};
ghost use Rattle.issuer_base.specs.OutsideFaults.{CountsFaults};
ghost use Rattle.desk_host.specs.Configuration.{HasSoundParts, IsRead, is_read_fault, Says, GivesNoIssuer};
ghost use Rattle.desk_host.specs.Configuration.{is_read_cause, is_read_stop, config_stop};

use answer_text::Stop;
use config_read::{ConfigFault, ConfigPart, MAX_CONFIG_BYTES, read_config};
use issuer_base::{ReadFault, Source};
use issuer_setup::Issuer;
use std::alloc::Global;

const CHUNK_BYTES: usize = 4_096;

/// Why a text was not read to its end.
pub(crate) enum TextFault {
    /// The input failed.
    Read,
    /// No memory was left.
    NoMemory,
}

/// The bytes of an input, to its end or to the first past the limit.
pub(crate) fn read_text<S: Source>(alloc: Global, source: &mut S) -> Result<Vec<u8>, TextFault>
    ensures text { IfOk result (λ text. IsRead (S.left source.old) (S.left source.new) text.items) }
    ensures count { CountsFaults (S.faults source.old) (S.faults source.new) (is_read_fault result) }
{
    let mut text = Vec::new(alloc);
    let mut chunk = [0; CHUNK_BYTES];
    while text.len() <= MAX_CONFIG_BYTES {
        let room = CHUNK_BYTES.min(MAX_CONFIG_BYTES + 1 - text.len());
        let count = match source.read(&mut chunk[..room]) {
            Ok(0) => break,
            Ok(count) => count,
            Err(ReadFault) => return Err(TextFault::Read),
        };
        if text.extend_from_slice(&chunk[..count]).is_err() {
            return Err(TextFault::NoMemory);
        }
    }
    Ok(text)
}

/// The issuer that a configuration says, which is read to its end or to the first byte past the limit; or how the run
/// stops where it says none: it is broken, the input failed, or memory was wanting.
pub fn read_issuer<S: Source>(alloc: Global, source: &mut S) -> Result<Issuer, Stop>
    ensures says { IfOk result (λ issuer. Says (S.left source.old) issuer) }
    ensures sound { IfOk result HasSoundParts }
    ensures none { IfErr result (GivesNoIssuer (S.left source.old)) }
    ensures count { CountsFaults (S.faults source.old) (S.faults source.new) (is_read_stop result) }
{
    let text = match read_text(alloc, source) {
        Ok(text) => text,
        Err(TextFault::Read) => return Err(Stop::ReadFault),
        Err(TextFault::NoMemory) => return Err(Stop::NoMemory),
    };
    match read_config(alloc, &text) {
        Ok(issuer) => Ok(issuer),
        Err(fault) => Err(config_stop(fault)),
    }
}

/// How a run stops where its configuration says no issuer.
fn config_stop(fault: ConfigFault) -> Stop
    ensures stop { result ≡ config_stop fault }
    ensures cause { is_read_cause result ≡ false }
{
    match fault {
        ConfigFault::NotJson => Stop::Config {
            part: ConfigPart::Whole.number(),
            index: 0,
        },
        ConfigFault::At { part, index } => Stop::Config {
            part: part.number(),
            index,
        },
        ConfigFault::NoMemory => Stop::NoMemory,
    }
}
