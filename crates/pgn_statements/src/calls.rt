ghost use Rattle.pgn_command.specs.Statements.{text_bytes};
ghost use Rattle.pgn_requests.specs.Phrases as told;
ghost use Rattle.pgn_statements.specs.Lexemes.{meant, all_meant};
ghost use Rattle.pgn_statements.specs.Calls.{IsCall, IsArgument};

use crate::words::{after_sign, after_two, is_one_sign, is_sign};
use pgn_command::{Lexeme, Text, is_word};

/// The arguments of a call of pg_notify.
#[derive(Clone, Copy)]
pub struct Call<'a> {
    pub channel: Text<'a>,
    pub payload: Text<'a>,
}

/// An argument, and the tokens after it.
#[derive(Clone, Copy)]
pub struct Argument<'l, 'a> {
    pub text: Text<'a>,
    pub rest: &'l [Lexeme<'a>],
}

/// The call of pg_notify that the tokens are, each argument between brackets or without.
pub fn called<'a>(lexemes: &[Lexeme<'a>]) -> Option<Call<'a>>
    ensures { IsCall result (told.called (all_meant lexemes.now)) }
{
    let Some(rest) = after_two(lexemes, "select", "pg_notify") else {
        return None;
    };
    match after_sign(rest, b'(') {
        Some(rest) => first_of(rest),
        None => None,
    }
}

// The call whose arguments and end the tokens are.
fn first_of<'a>(lexemes: &[Lexeme<'a>]) -> Option<Call<'a>>
    ensures { IsCall result (told.first_of (all_meant lexemes.now)) }
{
    let Some(channel) = argument_of(lexemes) else {
        return None;
    };
    match after_sign(channel.rest, b',') {
        Some(rest) => second_of(channel.text, rest),
        None => None,
    }
}

// The same, behind the first argument and its comma.
fn second_of<'a>(channel: Text<'a>, lexemes: &[Lexeme<'a>]) -> Option<Call<'a>>
    ensures { IsCall result (told.second_of (text_bytes channel.entry) (all_meant lexemes.now)) }
{
    let Some(payload) = argument_of(lexemes) else {
        return None;
    };
    if is_one_sign(payload.rest, b')') {
        Some(Call {
            channel,
            payload: payload.text,
        })
    } else {
        None
    }
}

// The argument that tokens begin with.
fn argument_of<'l, 'a>(lexemes: &'l [Lexeme<'a>]) -> Option<Argument<'l, 'a>>
    ensures { IsArgument result (told.argument_of (all_meant lexemes.now)) }
{
    match bracketed(lexemes) {
        Some(argument) => Some(argument),
        None => unbracketed(lexemes),
    }
}

// The argument between brackets that tokens begin with.
fn bracketed<'l, 'a>(lexemes: &'l [Lexeme<'a>]) -> Option<Argument<'l, 'a>>
    ensures { IsArgument result (told.bracketed (all_meant lexemes.now)) }
{
    match lexemes {
        [open, one, close, rest @ ..] if is_sign(open, b'(') && is_sign(close, b')') => argued(
            one, rest,
        ),
        _ => None,
    }
}

// The argument without brackets that tokens begin with.
fn unbracketed<'l, 'a>(lexemes: &'l [Lexeme<'a>]) -> Option<Argument<'l, 'a>>
    ensures { IsArgument result (told.unbracketed (all_meant lexemes.now)) }
{
    match lexemes {
        [one, rest @ ..] => argued(one, rest),
        [] => None,
    }
}

// The argument that a token is, before others.
fn argued<'l, 'a>(one: &Lexeme<'a>, rest: &'l [Lexeme<'a>]) -> Option<Argument<'l, 'a>>
    ensures { IsArgument result (told.argued (meant one.now) (all_meant rest.now)) }
{
    let text = match one {
        Lexeme::Literal(inside) => Text::Literal(*inside),
        Lexeme::Word(word) if is_word(word, "null") => Text::Null,
        _ => return None,
    };
    Some(Argument { text, rest })
}
