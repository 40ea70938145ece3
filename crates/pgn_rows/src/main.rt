//! Worked rows: inputs with the outputs that they must give, as files, and the program that compares them.
//!
//! Standard input names the rows, one a line. The files of a row lie in the folder in which the program runs: `NAME.input` and
//! `NAME.output`. What is done with an input is told by the name's ending:
//!
//! - `.lines`: each line of the input is a line of SQL, and the output has what it reads as, a line each;
//! - `.faults`: the output has for each case of the input its fault, or the scenario that it reads as;
//! - `.asked`: each case of the input has the words of a command line, a word a line, and the output has what they ask for, a line each;
//! - `.blocks`: the lines of a case are told to one block, one after another, and the output has the answer to each.
//!
//! Rows of other endings, and of none, are played by `tools/play` on the program that was built.
//!
//! After each case of an input a LF, `=====` and a LF follow, which are no part of it: a case that ends in a LF has an empty line
//! before its `=====`. A character `…` in a line of SQL or in a case, and the byte after it, stand for 65,536 of that byte, as many
//! as a line may have.
//!
//! A row that comes out right prints its name, so that standard output is to be standard input again. A row that differs prints
//! its name, the text that is wanted and the text that is found.
#![tactic(auto)]

mod answers;
mod command_lines;
mod parts;
mod printer;
mod readings;
mod row;

use row::put_row;
use std::fs::Files;
use std::io;
use std::io::Write;

// What cannot be written is missed by who compares the output.
fn main(rt: HostRuntime) -> io::Result<()> {
    let names = io::read_to_string(rt.alloc(), rt.stdin())?;
    print_rows(&rt, &mut rt.stdout(), names.as_str());
    drop(names);
    Ok(())
}

fn print_rows<R: Files + AllocGlobal, W: Write>(rt: &R, out: &mut W, names: &str) {
    for name in names.lines() {
        print_row(rt, out, name);
    }
}

fn print_row<R: Files + AllocGlobal, W: Write>(rt: &R, out: &mut W, name: &str) {
    let mut report = Vec::new(rt.alloc());
    put_row(rt, &mut report, name);
    let _ = out.write_all(report.as_slice());
    drop(report);
}
