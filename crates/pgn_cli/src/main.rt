//! The program `pgnotify`: standard input and output as a source and a sink that count their faults, and one call of `program`
//! over them, which calls `run_notify`, writes one line to standard error where the run is not done, and gives the exit status.
//!
//! What the machine's streams give and take no contract can say. Standard input is read through a buffer, so that what comes in small pieces,
//! as a client's messages and frames, takes few reads.
#![tactic(auto)]

mod arguments;
mod fault_line;
mod program;

use arguments::words;
use fault_line::fault_line;
use pgn_run::Status;
use pgn_service::Means;
use pgn_streams::{Input, Output, drawn};
use program::program;
use std::io::BufReader;
use std::process::ExitCode;

fn main(rt: HostRuntime) -> ExitCode {
    let mut errors = Output::new(rt.stderr());
    let Ok(reader) = BufReader::new(rt.alloc(), rt.stdin()) else {
        let status = Status::NoMemory;
        let _ = fault_line(&mut errors, &status);
        return ExitCode::from(status.code());
    };
    let means = Means {
        rt: &rt,
        alloc: rt.alloc(),
        hashes: drawn(&rt),
    };
    ExitCode::from(program(
        &means,
        words(&rt),
        &mut Input::new(reader),
        &mut Output::new(rt.stdout()),
        &mut errors,
    ))
}
