//! The rule of one partition over several machines: turns on the standard input, answered on the standard output.
#![tactic(auto)]

use bridge_serve::{Ended, serve};
use issuer_base::{Desk, DeskFault};
use std::process::ExitCode;
use store_edge::{FileDesk, FileSink, Process, StartFault};

/// The name of the standard input as a file.
const INPUT: &str = "/dev/stdin";

/// The status of a run that has no output.
const NO_OUTPUT: u8 = 4;

/// The status of a run without memory for its arguments.
const NO_MEMORY: u8 = 7;

fn main(rt: HostRuntime) -> ExitCode {
    let _process = match Process::start(&rt) {
        Ok(process) => process,
        Err(StartFault::NoDevice) => return ExitCode::from(NO_OUTPUT),
        Err(StartFault::NoMemory) => return ExitCode::from(NO_MEMORY),
    };
    let ended = match FileDesk::new(rt).read(INPUT) {
        Ok(mut source) => serve(rt.alloc(), &mut source, FileSink::new(rt)).ended,
        Err(DeskFault::Fault) => Ended::NoInput,
        Err(DeskFault::NoMemory) => Ended::NoMemory,
    };
    ExitCode::from(ended.status())
}
