ghost use Rattle.std.specs.Prelude.{◌≡◌, false, [], IfOk};
ghost use Rattle.clap.specs.Simple.{App, app_of, with_rule, with_subcommand};
ghost use Rattle.clap.specs.Walk.{Rule, rule_of};
ghost use Rattle.clap.specs.declared.builder.value_parser.ValueParser.TheVariants.{Unsigned};
ghost use Rattle.pgn_options.specs.Parse.{IsApp, drill_app, flag_rule, option_rule, options_app, program_app, program_shape, word_rule};

use crate::{DRILL_NOTES_MAX, DRILL_SESSIONS_MAX, PATIENCE_MAX, SEATS_MAX};
use clap::builder::ValueParser;
use clap::{Arg, ArgAction, Command};
use pgn_base::{PAGES_MAX, PAGES_MIN};
use std::alloc::{AllocError, Global};

/// The command that words are parsed with.
pub(crate) fn command<'a>(alloc: Global) -> Result<Command<'a>, AllocError>
    ensures { IfOk result (λ command. app_of command ≡ program_app) }
{
    let command = with_command(Ok(program(alloc)), drill(alloc));
    let command = with_command(command, Ok(Command::new(alloc, "wire")));
    let command = with_command(command, options(alloc, "run"));
    let command = with_command(command, options(alloc, "check"));
    with_command(command, options(alloc, "serve"))
}

// The program without its commands.
fn program<'a>(alloc: Global) -> Command<'a>
    ensures { app_of result ≡ record { top = program_shape; subs = [] } }
{
    Command::new(alloc, "pgnotify")
        .no_binary_name(true)
        .disable_help_flag(true)
        .disable_help_subcommand(true)
        .subcommand_required(true)
}

// A command with one more below it, where both could be made.
fn with_command<'a>(
    command: Result<Command<'a>, AllocError>,
    below: Result<Command<'a>, AllocError>,
) -> Result<Command<'a>, AllocError>
    ensures { (app sub : App) → IfOk command.entry (λ it. app_of it ≡ app)
        → IfOk below.entry (IsApp sub)
        → IfOk result (λ whole. app_of whole ≡ with_subcommand app sub.top) }
{
    match below {
        Ok(below) => match command {
            Ok(command) => command.subcommand(below),
            Err(AllocError) => {
                // Dropped here, by a call: there are several ways out.
                drop(below);
                Err(AllocError)
            }
        },
        Err(AllocError) => {
            drop(command);
            Err(AllocError)
        }
    }
}

// A command with all options.
fn options<'a>(alloc: Global, name: &'a str) -> Result<Command<'a>, AllocError>
    ensures { IfOk result (IsApp (options_app name.now)) }
{
    let command = Ok(Command::new(alloc, name));
    let pages = option(alloc, "pages", PAGES_MIN as u64, PAGES_MAX as u64);
    let command = with_argument(command, pages);
    let command = with_argument(command, option(alloc, "patience", 1, PATIENCE_MAX));
    let command = with_argument(command, option(alloc, "format", 1, 2));
    let command = with_argument(command, option(alloc, "seats", 1, SEATS_MAX as u64));
    with_argument(command, flag(alloc, "live"))
}

fn drill<'a>(alloc: Global) -> Result<Command<'a>, AllocError>
    ensures { IfOk result (IsApp drill_app) }
{
    let command = Ok(Command::new(alloc, "drill"));
    let command = with_argument(command, word(alloc, "seed", 0, u64::MAX));
    let sessions = word(alloc, "sessions", 1, DRILL_SESSIONS_MAX as u64);
    let command = with_argument(command, sessions);
    with_argument(command, word(alloc, "notes", 1, DRILL_NOTES_MAX as u64))
}

// A command with one more argument, where it could be made.
fn with_argument<'a>(
    command: Result<Command<'a>, AllocError>,
    argument: Arg<'a>,
) -> Result<Command<'a>, AllocError>
    requires { argument.global ≡ false }
    ensures { (app : App) (rule : Rule) → rule_of argument.entry ≡ rule
        → IfOk command.entry (IsApp app)
        → IfOk result (IsApp (with_rule app rule)) }
{
    match command {
        Ok(command) => command.arg(argument),
        Err(AllocError) => {
            drop(argument);
            Err(AllocError)
        }
    }
}

// An option that takes a number.
fn option<'a>(alloc: Global, name: &'a str, least: u64, most: u64) -> Arg<'a>
    ensures rule { rule_of result ≡ option_rule name.now (Unsigned least most) }
    ensures local { result.global ≡ false }
{
    Arg::new(alloc, name)
        .long(name)
        .action(ArgAction::Set)
        .value_parser(ValueParser::unsigned(least, most))
}

// An option without a value.
fn flag<'a>(alloc: Global, name: &'a str) -> Arg<'a>
    ensures rule { rule_of result ≡ flag_rule name.now }
    ensures local { result.global ≡ false }
{
    Arg::new(alloc, name).long(name).action(ArgAction::SetTrue)
}

// A word that has to be there, and is a number.
fn word<'a>(alloc: Global, name: &'a str, least: u64, most: u64) -> Arg<'a>
    ensures rule { rule_of result ≡ word_rule name.now (Unsigned least most) }
    ensures local { result.global ≡ false }
{
    Arg::new(alloc, name)
        .required(true)
        .action(ArgAction::Set)
        .value_parser(ValueParser::unsigned(least, most))
}
