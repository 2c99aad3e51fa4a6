//! The issuer's authorisation host, over files and the standard output.
#![tactic(auto)]

use issuer_base::OpenGate;
use issuer_top::{Ended, issue};
use std::process::ExitCode;
use store_edge::{FileDesk, FileSink, Process, StartFault};

/// The status of a run that has no output.
const NO_OUTPUT: u8 = 4;

/// The status of a run without memory for its arguments.
const NO_MEMORY: u8 = 7;

fn main(rt: HostRuntime) -> ExitCode {
    let process = match Process::start(&rt) {
        Ok(process) => process,
        Err(StartFault::NoDevice) => return ExitCode::from(NO_OUTPUT),
        Err(StartFault::NoMemory) => return ExitCode::from(NO_MEMORY),
    };
    let mut out = FileSink::new(rt);
    let Ended {
        status,
        desk,
        config,
        requests,
        olds,
        stores,
    } = issue(&rt, process.words(), FileDesk::new(rt), &mut out, &OpenGate);
    process.end(desk, config, requests, olds, stores);
    ExitCode::from(status)
}
