ghost use Rattle.std.specs.Prelude.{◌≡◌, ◌<◌, ◌≤◌, length, drop, cond, MatchOption};
ghost use Rattle.std.specs.Str.Parse.{IsNumeral, digits_value};
ghost use Rattle.pgn_base.specs.declared.limits.TheConstants.{LINE_BYTES_MAX};
ghost use Rattle.pgn_language.specs.Tokens.{tokens};
ghost use Rattle.pgn_language.specs.Grammar.{Key, Name, Quote, Count, Punct, text_of, value_of};
ghost use Rattle.pgn_command.specs.Texts.{single};
ghost use Rattle.pgn_command.specs.Reading.{front_lexeme, front_at, front_verb, nothing_ahead, takes, IsTaken, IsKept};
ghost use Rattle.pgn_command.specs.Statements.{ident_lexeme};

use crate::Enclosed;
use crate::lexer::Lexer;
use crate::statement::{Ident, Stop};
use crate::token::{Lexeme, Token};
use crate::verb::{Verb, is_word, verb_of};
use pgn_base::REPEATS_MAX;
use std::marker::Model;

/// The tokens of a line that are ahead: the first of them, and what is left of the line after it.
#[derive(Drop)]
pub struct Parser<'a> {
    token: Token<'a>,
    lexer: Lexer<'a>,
}

impl<'a> Model for Parser<'a> {
    ghost use Rattle.std.specs.Prelude.{◌+◌, ◌≤◌, length};
    ghost use Rattle.pgn_language.specs.Tokens.{tokens_from};
    ghost use Rattle.pgn_base.specs.declared.limits.TheConstants.{LINE_BYTES_MAX};
    ghost use Rattle.pgn_command.specs.Lexing.{shown, EndsAt, HasDigits};
    ghost use Rattle.pgn_command.specs.Reading.{Ahead};

    ghost Value = { Ahead };

    ghost view = { λ p. record {
      tokens = shown p.token.lexeme p.token.at (tokens_from p.lexer.at 0 p.lexer.rest.now);
      end = p.lexer.at + length p.lexer.rest.now;
    } };

    ghost invariant = { λ p. EndsAt p.token.lexeme p.token.at p.lexer.rest.now (p.lexer.at + length p.lexer.rest.now) × (p.token.at ≤ LINE_BYTES_MAX) × HasDigits p.token.lexeme };
}

impl<'a> Parser<'a> {
    /// All tokens of a line are ahead.
    pub fn new(line: &'a str) -> Parser<'a>
        requires { length line.now ≤ LINE_BYTES_MAX }
        ensures tokens { result.tokens ≡ tokens line.now }
        ensures end { result.end ≡ length line.now }
    {
        let mut lexer = Lexer::new(line);
        let token = lexer.next();
        Parser { token, lexer }
    }

    /// No token is ahead.
    pub fn is_end(&self) -> bool
        ensures { result ≡ nothing_ahead self.now.tokens }
    {
        matches!(self.token.lexeme, Lexeme::End)
    }

    /// The line goes wrong at the token that is ahead, or at its end.
    pub fn stop(&self) -> Stop
        ensures { result.at ≡ front_at self.now.end self.now.tokens }
    {
        Stop { at: self.token.at }
    }

    /// The command word that is ahead.
    pub fn verb(&self) -> Option<Verb>
        ensures { result ≡ front_verb (front_lexeme self.now.tokens) }
    {
        match self.token.lexeme {
            Lexeme::Word(word) => verb_of(word),
            _ => None,
        }
    }

    /// Goes past the token that is ahead.
    pub fn advance(&mut self)
        ensures tokens { self.new.tokens ≡ drop 1 self.old.tokens }
        ensures same_end { self.new.end ≡ self.old.end }
    {
        self.token = self.lexer.next();
    }

    /// Goes past this word, if it is ahead.
    pub fn takes_word(&mut self, word: &str) -> bool
        ensures value { result ≡ takes (Key word.now) self.old.tokens }
        ensures tokens { self.new.tokens ≡ cond result (drop 1 self.old.tokens) self.old.tokens }
        ensures same_end { self.new.end ≡ self.old.end }
    {
        match self.token.lexeme {
            Lexeme::Word(text) if is_word(text, word) => {
                self.advance();
                true
            }
            _ => false,
        }
    }

    /// Goes past this sign, if it is ahead.
    pub fn takes_sign(&mut self, sign: u8) -> bool
        ensures value { result ≡ takes (Punct sign) self.old.tokens }
        ensures tokens { self.new.tokens ≡ cond result (drop 1 self.old.tokens) self.old.tokens }
        ensures same_end { self.new.end ≡ self.old.end }
    {
        match self.token.lexeme {
            Lexeme::Sign(other) if sign == other => {
                self.advance();
                true
            }
            _ => false,
        }
    }

    /// Goes past a name, if one is ahead.
    pub fn takes_name(&mut self) -> Option<Ident<'a>>
        ensures { MatchOption result (IsKept Name self.old self.new) (λ ident. IsTaken Name self.old self.new × (front_lexeme self.old.tokens ≡ ident_lexeme ident)) }
    {
        let ident = match self.token.lexeme {
            Lexeme::Word(text) => Ident::Word(text),
            Lexeme::Quoted(inside) => Ident::Quoted(inside),
            _ => return None,
        };
        self.advance();
        Some(ident)
    }

    /// Goes past a literal, if one is ahead.
    pub fn takes_literal(&mut self) -> Option<Enclosed<'a>>
        ensures { MatchOption result (IsKept Quote self.old self.new) (λ inside. IsTaken Quote self.old self.new × (text_of (front_lexeme self.old.tokens) ≡ single inside.quote inside.raw.now)) }
    {
        let Lexeme::Literal(inside) = self.token.lexeme else {
            return None;
        };
        self.advance();
        Some(inside)
    }

    /// Goes past a number that may stand in `repeat`, if one is ahead.
    pub fn takes_count(&mut self) -> Option<u32>
        ensures { MatchOption result (IsKept Count self.old self.new) (λ count. IsTaken Count self.old self.new × (value_of (front_lexeme self.old.tokens) ≡ count) × (count ≤ REPEATS_MAX)) }
    {
        let Lexeme::Number(digits) = self.token.lexeme else {
            return None;
        };
        let count = count_of(digits)?;
        self.advance();
        Some(count)
    }
}

// The value of digits, if it is at most the most times that a text is repeated.
fn count_of(digits: &str) -> Option<u32>
    requires { IsNumeral 10 digits.now }
    ensures { MatchOption result (REPEATS_MAX < digits_value 10 digits.now) (λ count. (count ≡ digits_value 10 digits.now) × (count ≤ REPEATS_MAX)) }
{
    match digits.parse::<u32>() {
        Ok(count) if count <= REPEATS_MAX => Some(count),
        _ => None,
    }
}
