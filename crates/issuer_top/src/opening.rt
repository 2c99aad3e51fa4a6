//! The configuration: it is opened at the desk, and its issuer read.
ghost use Rattle.std.specs.Prelude.{◌≡◌, Ok, IfOk, IfErr};
ghost use Rattle.std.specs.Option.{option_map};
ghost use Rattle.desk_host.specs.Configuration.{HasSoundParts};
ghost use Rattle.issuer_top.specs.Opening.{stop_of, IsConfigured, OpensNoIssuer};
ghost use Rattle.issuer_top.specs.Seen.{desk_seen, input_seen};

use answer_text::Stop;
use desk_host::read_issuer;
use issuer_base::{Desk, DeskFault};
use issuer_setup::Issuer;
use std::alloc::Global;

/// A configuration that gave no issuer, and why.
pub struct NotOpened<I> {
    /// Why the run stops.
    pub cause: Stop,
    /// The configuration, if it was opened.
    pub config: Option<I>,
}

/// Opens the configuration under this name at the desk, and reads its issuer.
pub fn open_issuer<D: Desk>(
    alloc: Global,
    desk: &mut D,
    name: &str,
) -> Result<(Issuer, D::Input), NotOpened<D::Input>>
    ensures says { IfOk result (λ opened. IsConfigured (D.holds desk.old name.now) (Ok opened.0)) }
    ensures sound { IfOk result (λ opened. HasSoundParts opened.0) }
    ensures kept { D.holds desk.new ≡ D.holds desk.old }
    ensures kept_logs { D.logs desk.new ≡ D.logs desk.old }
    ensures stood { IfOk result (λ opened. D.faults desk.new ≡ D.faults desk.old) }
    ensures none { IfErr result (λ none. OpensNoIssuer (desk_seen D.Desk desk.old desk.new) name.now
        (option_map (input_seen D.Input.Source) none.config) none.cause) }
{
    let mut config = match desk.read(name) {
        Ok(config) => config,
        Err(fault) => {
            return Err(NotOpened {
                cause: stop_of(fault),
                config: None,
            });
        }
    };
    match read_issuer(alloc, &mut config) {
        Ok(issuer) => Ok((issuer, config)),
        Err(cause) => Err(NotOpened {
            cause,
            config: Some(config),
        }),
    }
}

/// Why a run stops where the desk gives no input.
pub fn stop_of(fault: DeskFault) -> Stop
    ensures { result ≡ stop_of fault }
{
    match fault {
        DeskFault::Fault => Stop::ReadFault,
        DeskFault::NoMemory => Stop::NoMemory,
    }
}
