ghost use Rattle.std.specs.Prelude.{◌≤◌, ◌∷◌, length, Contains};
ghost use Rattle.pgn_base.specs.declared.limits.TheConstants.{LINE_BYTES_MAX};
ghost use Rattle.pgn_requests.specs.Phrases as told;
ghost use Rattle.pgn_statements.specs.Lexemes.{meant, all_meant};
ghost use Rattle.pgn_statements.specs.Calls.{CallIsValid};
ghost use Rattle.pgn_statements.specs.Steps.{Gives, asks_beside};

use crate::assigning::{reset, set, show};
use crate::calls::called;
use crate::lexemes::collect_spread;
use crate::lines::{commanded, notifies, unread};
use crate::transaction_modes::{are_modes, past_work};
use crate::words::{after_one, are_two, is_all_of, is_call, is_key, is_one, is_one_number};
use pgn_base::Command;
use pgn_command::Lexeme;
use pgn_requests::{Request, Settled, TOKENS_MAX};
use std::alloc::{AllocError, Global};

/// What a bare text asks for that the grammar refuses at this byte.
pub fn asked_of(alloc: Global, text: &str, at: u32) -> Result<Request, AllocError>
    requires short { length text.now ≤ LINE_BYTES_MAX }
    requires no_nul { Contains text.now 0 → ⊥ }
    ensures { Gives result (told.asked_of text.now at) }
{
    let mut lexemes = Vec::new(alloc);
    collect_spread(&mut lexemes, text)?;
    if lexemes.len() > TOKENS_MAX {
        return unread(alloc, text, at);
    }
    calls_or_asks(alloc, text, at, lexemes.as_slice())
}

// What the tokens ask for, or the call with brackets that they are.
fn calls_or_asks(
    alloc: Global,
    text: &str,
    at: u32,
    lexemes: &[Lexeme<'_>],
) -> Result<Request, AllocError>
    requires { CallIsValid (all_meant lexemes.now) }
    ensures { Gives result (told.calls_or_asks text.now at (all_meant lexemes.now)) }
{
    match called(lexemes) {
        Some(call) => notifies(alloc, text, call),
        None => asked(alloc, text, at, lexemes),
    }
}

// What the tokens ask for.
fn asked(alloc: Global, text: &str, at: u32, lexemes: &[Lexeme<'_>]) -> Result<Request, AllocError>
    ensures { Gives result (told.asks text.now at (all_meant lexemes.now)) }
{
    match lexemes {
        [first, rest @ ..] => asked_by(alloc, text, at, first, rest),
        [] => unread(alloc, text, at),
    }
}

// What the tokens ask for, by the first of them.
fn asked_by(
    alloc: Global,
    text: &str,
    at: u32,
    first: &Lexeme<'_>,
    rest: &[Lexeme<'_>],
) -> Result<Request, AllocError>
    ensures { Gives result (told.asks text.now at (meant first.now ∷ all_meant rest.now)) }
{
    if is_key(first, "set") {
        return set(alloc, text, at, rest);
    }
    if is_key(first, "reset") {
        return reset(alloc, text, at, rest);
    }
    if is_key(first, "show") {
        return show(alloc, text, at, rest);
    }
    asked_beside(alloc, text, at, first, rest)
}

// The same, where they ask for no setting.
fn asked_beside(
    alloc: Global,
    text: &str,
    at: u32,
    first: &Lexeme<'_>,
    rest: &[Lexeme<'_>],
) -> Result<Request, AllocError>
    ensures { Gives result (asks_beside text.now at (meant first.now) (all_meant rest.now)) }
{
    if is_key(first, "begin") {
        return begin(alloc, text, at, rest);
    }
    if is_key(first, "start") {
        return start(alloc, text, at, rest);
    }
    if is_key(first, "select") {
        return select(alloc, text, at, rest);
    }
    other(alloc, text, at, first, rest)
}

// What the tokens after a command's word ask for where they are none of the settings.
fn other(
    alloc: Global,
    text: &str,
    at: u32,
    first: &Lexeme<'_>,
    rest: &[Lexeme<'_>],
) -> Result<Request, AllocError>
    ensures { Gives result (told.other_asks text.now at (meant first.now) (all_meant rest.now)) }
{
    let is_all = is_one(rest, "all");
    if is_key(first, "deallocate") && (is_all || are_two(rest, "prepare", "all")) {
        return Ok(Request::Settles(Settled::Deallocates));
    }
    if is_key(first, "close") && is_all {
        return Ok(Request::Settles(Settled::Closes));
    }
    if is_key(first, "discard") && is_all {
        return Ok(Request::Discards);
    }
    unread(alloc, text, at)
}

// After BEGIN.
fn begin(alloc: Global, text: &str, at: u32, lexemes: &[Lexeme<'_>]) -> Result<Request, AllocError>
    ensures { Gives result (told.begin_asks text.now at (all_meant lexemes.now)) }
{
    if are_modes(past_work(lexemes), TOKENS_MAX) {
        return commanded(alloc, text, Command::Begin);
    }
    unread(alloc, text, at)
}

// After START.
fn start(alloc: Global, text: &str, at: u32, lexemes: &[Lexeme<'_>]) -> Result<Request, AllocError>
    ensures { Gives result (told.start_asks text.now at (all_meant lexemes.now)) }
{
    match after_one(lexemes, "transaction") {
        Some(rest) if are_modes(rest, TOKENS_MAX) => commanded(alloc, text, Command::Start),
        _ => unread(alloc, text, at),
    }
}

// After SELECT.
fn select(alloc: Global, text: &str, at: u32, lexemes: &[Lexeme<'_>]) -> Result<Request, AllocError>
    ensures { Gives result (told.select_asks text.now at (all_meant lexemes.now)) }
{
    if is_one_number(lexemes, "1") {
        return Ok(Request::Settles(Settled::One));
    }
    if is_call(lexemes, "version") {
        return Ok(Request::Settles(Settled::Version));
    }
    if is_call(lexemes, "pg_backend_pid") {
        return Ok(Request::Settles(Settled::Process));
    }
    if is_all_of(lexemes, "pg_listening_channels") {
        return commanded(alloc, text, Command::ListeningChannels);
    }
    unread(alloc, text, at)
}
