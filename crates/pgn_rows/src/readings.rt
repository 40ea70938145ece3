use crate::printer::{put, put_command, put_fault, put_sections};
use pgn_base::{Command, LINE_BYTES_MAX, Seed};
use pgn_command::parse_line;
use pgn_scenario::read_scenario;
use std::alloc::{AllocError, Global};

/// What stands in place of a command that is not there.
pub const NO_LINE: &[u8] = b"no line, or no memory";

/// Puts what a line of SQL reads as.
pub fn put_line(text: &mut Vec<u8>, alloc: Global, line: &str) {
    match command_of(alloc, line) {
        Some(command) => {
            put_command(text, &command);
            drop(command);
        }
        None => put(text, NO_LINE),
    }
    put(text, b"\n");
}

/// The command that a line reads as, unless it can be no line of an input, or memory does not suffice.
pub fn command_of(alloc: Global, line: &str) -> Option<Command> {
    if line.len() > LINE_BYTES_MAX || line.as_bytes().contains(&0) {
        return None;
    }
    match parse_line(alloc, line) {
        Ok(command) => Some(command),
        Err(AllocError) => None,
    }
}

/// Puts what a case reads as: its fault or its scenario.
pub fn put_scenario(text: &mut Vec<u8>, alloc: Global, case: &[u8]) {
    match read_scenario(alloc, Seed::fixed(), case) {
        Ok(Ok(scenario)) => {
            put_sections(text, &scenario);
            drop(scenario);
        }
        Ok(Err(fault)) => put_fault(text, fault),
        Err(AllocError) => put(text, b"no memory"),
    }
    put(text, b"\n=====\n");
}
