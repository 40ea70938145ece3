ghost use Rattle.std.specs.Prelude.{◌≡◌, ◌≤◌, ℕ, Bool, codes, Option, Ok, Err, map, IfOk, unwrap_or};
ghost use Rattle.clap.specs.Matches.{found_of};
ghost use Rattle.clap.specs.Walk.{rows_of};
ghost use Rattle.clap.specs.Simple.{subcommand_rows_of};
ghost use Rattle.clap.specs.declared.error.kind.ErrorKind.TheVariants.{OutOfMemory};
ghost use Rattle.pgn_options.specs.declared.asked.Asked.{Asked};
ghost use Rattle.pgn_options.specs.declared.asked.Asked.TheVariants.{Drill};
ghost use Rattle.pgn_options.specs.declared.options.Options.{Options};
ghost use Rattle.pgn_options.specs.Parse.{Finds, FindsNumbers, FindsOptions, FindsTooMuch, IsFoundAs, IsFoundFlag};
ghost use Rattle.pgn_options.specs.Words.{AreNoCommand, AskFor, IsWithin, check_with, format_numbered, run_with, serve_with};

use crate::command::command;
use crate::options::Options;
use crate::{Asked, SEATS_DEFAULT};
use clap::ArgMatches;
use clap::error::ErrorKind;
use pgn_base::{Format, PAGES_DEFAULT, PATIENCE_DEFAULT};
use std::alloc::{AllocError, Global};

/// Why words are not read.
#[derive(Clone, Copy)]
pub enum WordsFault {
    /// They are no command.
    BadWords,
    Memory,
}

/// What words ask for, those after the program's name.
pub fn read_words<'a>(alloc: Global, words: &'a [&'a str]) -> Result<Asked, WordsFault>
    ensures asked { IfOk result (λ asked. AskFor (map (λ word. word.now) words.now) asked) }
    ensures within { IfOk result IsWithin }
    ensures bad_words { result ≡ Err WordsFault.BadWords
        → AreNoCommand (map (λ word. word.now) words.now) }
{
    let command = match command(alloc) {
        Ok(command) => command,
        Err(AllocError) => return Err(WordsFault::Memory),
    };
    match command.try_get_matches_from(words) {
        Ok(matches) => asked_of(&matches),
        Err(error) => Err(fault_of(error.kind())),
    }
}

// Why words were refused by this kind of error.
fn fault_of(kind: ErrorKind) -> WordsFault
    ensures { kind ≡ OutOfMemory → result ≡ WordsFault.Memory }
{
    match kind {
        ErrorKind::OutOfMemory => WordsFault::Memory,
        _ => WordsFault::BadWords,
    }
}

// What a command that was found asks for.
fn asked_of(matches: &ArgMatches<'_>) -> Result<Asked, WordsFault>
    ensures found { (asked : Asked) → Finds (subcommand_rows_of matches.now) asked
        → result ≡ Ok asked }
    ensures too_much { FindsTooMuch (subcommand_rows_of matches.now)
        → result ≡ Err WordsFault.BadWords }
{
    let Some((name, found)) = matches.subcommand() else {
        return Err(WordsFault::BadWords);
    };
    if name == "run" {
        run_of(&options_of(found)).ok_or(WordsFault::BadWords)
    } else if name == "drill" {
        drill_of(found)
    } else if name == "wire" {
        Ok(Asked::Wire)
    } else if name == "check" {
        check_of(&options_of(found)).ok_or(WordsFault::BadWords)
    } else {
        serve_of(&options_of(found)).ok_or(WordsFault::BadWords)
    }
}

// The options that were found.
fn options_of(found: &ArgMatches<'_>) -> Options
    ensures { (given : Options) → FindsOptions (rows_of (found_of found.now)) given
        → result ≡ given }
{
    Options {
        pages: small_of(found, "pages"),
        patience: number_of(found, "patience"),
        format: number_of(found, "format"),
        seats: small_of(found, "seats"),
        live: live_of(found),
    }
}

// What `run` asks for with these options. It does not take `--seats`.
fn run_of(given: &Options) -> Option<Asked>
    ensures { result ≡ run_with given.now }
{
    if given.seats.is_some() {
        return None;
    }
    Some(Asked::Run {
        pages: given.pages.unwrap_or(PAGES_DEFAULT),
        patience: given.patience.unwrap_or(PATIENCE_DEFAULT),
        format: format_of(given.format),
        live: given.live,
    })
}

// `check` takes the options of `run` but for `--live`.
fn check_of(given: &Options) -> Option<Asked>
    ensures { result ≡ check_with given.now }
{
    if given.seats.is_some() || given.live {
        return None;
    }
    Some(Asked::Check {
        pages: given.pages.unwrap_or(PAGES_DEFAULT),
        patience: given.patience.unwrap_or(PATIENCE_DEFAULT),
        format: format_of(given.format),
    })
}

// `serve` takes `--seats` alone.
fn serve_of(given: &Options) -> Option<Asked>
    ensures { result ≡ serve_with given.now }
{
    if given.pages.is_some() || given.patience.is_some() || given.format.is_some() || given.live {
        return None;
    }
    Some(Asked::Serve {
        seats: given.seats.unwrap_or(SEATS_DEFAULT),
    })
}

// The format of this number; the first where none is given.
fn format_of(number: Option<u64>) -> Format
    ensures { result ≡ format_numbered (unwrap_or number 1) }
{
    match number {
        Some(2) => Format::Two,
        _ => Format::One,
    }
}

// Whether `--live` was found.
fn live_of(found: &ArgMatches<'_>) -> bool
    ensures { (given : Bool) → IsFoundFlag (codes "live") (rows_of (found_of found.now)) given
        → result ≡ given }
{
    found.get_flag("live")
}

fn drill_of(found: &ArgMatches<'_>) -> Result<Asked, WordsFault>
    ensures { (seed sessions notes : ℕ)
        → FindsNumbers (rows_of (found_of found.now)) seed sessions notes
        → result ≡ Ok (Drill seed sessions notes) }
{
    let Some(seed) = number_of(found, "seed") else {
        return Err(WordsFault::BadWords);
    };
    let Some(sessions) = small_of(found, "sessions") else {
        return Err(WordsFault::BadWords);
    };
    let Some(notes) = small_of(found, "notes") else {
        return Err(WordsFault::BadWords);
    };
    Ok(Asked::Drill {
        seed,
        sessions,
        notes,
    })
}

// The number that was found for an argument, if one was.
fn number_of(found: &ArgMatches<'_>, id: &str) -> Option<u64>
    ensures { (least most : ℕ) (number : Option ℕ) → most ≤ 18446744073709551615
        → IsFoundAs least most id.now (rows_of (found_of found.now)) number → result ≡ number }
{
    found.get_one::<u64>(id)
}

// The same where it is one of 32 bits.
fn small_of(found: &ArgMatches<'_>, id: &str) -> Option<u32>
    ensures { (least most : ℕ) (number : Option ℕ) → most ≤ 4294967295
        → IsFoundAs least most id.now (rows_of (found_of found.now)) number → result ≡ number }
{
    found.get_one::<u32>(id)
}
