ghost use Rattle.std.specs.Prelude.{◌≡◌};
ghost use Rattle.pgn_cli.specs.Program.{refused_for};

use std::alloc::{AllocError, Global};
use std::env;
use std::env::{Args, Env};
use std::io::ErrorKind;

/// Why the words of the command line are not there.
#[derive(Clone, Copy)]
pub enum NoWords {
    /// Memory did not suffice for them.
    Memory,
    /// One of them is not UTF-8.
    NotText,
}

/// The words of the command line after the program's name.
pub fn words<R: Env + AllocGlobal>(rt: &R) -> Result<Vec<String>, NoWords> {
    match env::args(rt) {
        Ok(all) => after_the_first(rt.alloc(), all),
        Err(error) => Err(why(error.kind())),
    }
}

// Why the words were refused by this kind of error.
fn why(kind: ErrorKind) -> NoWords
    ensures { result ≡ refused_for kind }
{
    match kind {
        ErrorKind::OutOfMemory => NoWords::Memory,
        _ => NoWords::NotText,
    }
}

fn after_the_first(alloc: Global, all: Args) -> Result<Vec<String>, NoWords> {
    let mut words = Vec::new(alloc);
    for word in all.skip(1) {
        match words.push(word) {
            Ok(()) => {}
            Err(_) => return Err(NoWords::Memory),
        }
    }
    Ok(words)
}
