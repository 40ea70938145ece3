ghost use Rattle.std.specs.Prelude.{◌≡◌, ◌+◌, ◌≤◌, [], length, take, drop, IsUtf8, IsCharBoundary};
ghost use Rattle.pgn_base.specs.declared.limits.TheConstants.{LINE_BYTES_MAX};
ghost use Rattle.pgn_language.specs.Tokens.{tokens_from, is_blank};
ghost use Rattle.pgn_language.specs.laws.Tokens.{NoneFollows};
ghost use Rattle.pgn_command.specs.Lexing.{shown, IsStart, EndsAt, HasDigits, Starts, IsStuck, IsRead};
ghost use Rattle.pgn_command.specs.declared.bytes.Start.TheVariants as start;

use crate::bytes::{Start, blanks, digits, is_comment, start_of, word_bytes};
use crate::inside;
use crate::token::{Lexeme, Token};

/// What is left of a line, and the byte of the line where it begins.
#[derive(Drop)]
pub struct Lexer<'a> {
    pub rest: &'a str,
    pub at: usize,
    ghost short: { at + length rest.now ≤ LINE_BYTES_MAX },
}

impl<'a> Lexer<'a> {
    /// All of a line is left.
    pub fn new(line: &'a str) -> Lexer<'a>
        requires { length line.now ≤ LINE_BYTES_MAX }
        ensures rest { result.rest.now ≡ line.now }
        ensures at { result.at ≡ 0 }
    {
        Lexer { rest: line, at: 0 }
    }

    /// The next token, and `End` at the line's end. Nothing is read after what is no token.
    pub fn next(&mut self) -> Token<'a>
        ensures tokens { tokens_from self.old.at 0 self.old.rest.now ≡ shown result.lexeme result.at (tokens_from self.new.at 0 self.new.rest.now) }
        ensures same_end { self.new.at + length self.new.rest.now ≡ self.old.at + length self.old.rest.now }
        ensures end { EndsAt result.lexeme result.at self.new.rest.now (self.old.at + length self.old.rest.now) }
        ensures digits { HasDigits result.lexeme }
        ensures within { result.at ≤ self.old.at + length self.old.rest.now }
    {
        self.skip_gap();
        let at = self.at;
        let lexeme = self.lexeme();
        Token { lexeme, at }
    }

    // Goes past blanks and a comment.
    fn skip_gap(&mut self)
        ensures tokens { tokens_from self.new.at 0 self.new.rest.now ≡ tokens_from self.old.at 0 self.old.rest.now }
        ensures same_end { self.new.at + length self.new.rest.now ≡ self.old.at + length self.old.rest.now }
        ensures start { IsStart self.new.rest.now }
    {
        self.skip_blanks();
        if is_comment(self.rest.as_bytes()) {
            self.skip_all();
        }
    }

    fn skip_blanks(&mut self)
        ensures tokens { tokens_from self.new.at 0 self.new.rest.now ≡ tokens_from self.old.at 0 self.old.rest.now }
        ensures same_end { self.new.at + length self.new.rest.now ≡ self.old.at + length self.old.rest.now }
        ensures first { NoneFollows is_blank self.new.rest.now }
    {
        let text = self.rest;
        let count = blanks(text.as_bytes());
        self.skip(count);
    }

    // The token that begins here, where neither a blank nor a comment stands.
    fn lexeme(&mut self) -> Lexeme<'a>
        requires { IsStart self.old.rest.now }
        ensures { IsRead result self.old.at self.old.rest.now self.new.at self.new.rest.now }
    {
        let text = self.rest;
        match text.as_bytes() {
            [] => Lexeme::End,
            [first, rest @ ..] => self.lexeme_of(start_of(*first, rest)),
        }
    }

    fn lexeme_of(&mut self, start: Start) -> Lexeme<'a>
        requires starts { Starts start self.old.rest.now }
        requires text { IsUtf8 self.old.rest.now }
        ensures { IsRead result self.old.at self.old.rest.now self.new.at self.new.rest.now }
    {
        match start {
            Start::Word => self.word(),
            Start::Number => self.number(),
            Start::Sign => self.sign(),
            Start::Quoted => self.quoted(),
            Start::Literal => self.literal(),
            Start::Nothing => self.wrong(),
        }
    }

    // A word is as long as it can be.
    fn word(&mut self) -> Lexeme<'a>
        requires { Starts start.Word self.old.rest.now }
        ensures { IsRead result self.old.at self.old.rest.now self.new.at self.new.rest.now }
    {
        let text = self.rest;
        Lexeme::Word(self.take(word_bytes(text.as_bytes())))
    }

    // A number is as long as it can be.
    fn number(&mut self) -> Lexeme<'a>
        requires { Starts start.Number self.old.rest.now }
        ensures { IsRead result self.old.at self.old.rest.now self.new.at self.new.rest.now }
    {
        let text = self.rest;
        Lexeme::Number(self.take(digits(text.as_bytes())))
    }

    fn sign(&mut self) -> Lexeme<'a>
        requires { Starts start.Sign self.old.rest.now }
        ensures { IsRead result self.old.at self.old.rest.now self.new.at self.new.rest.now }
    {
        let text = self.rest;
        let sign = text.as_bytes()[0];
        self.skip(1);
        Lexeme::Sign(sign)
    }

    // A quoted identifier has at least one character.
    fn quoted(&mut self) -> Lexeme<'a>
        requires starts { Starts start.Quoted self.old.rest.now }
        requires text { IsUtf8 self.old.rest.now }
        ensures { IsRead result self.old.at self.old.rest.now self.new.at self.new.rest.now }
    {
        let text = self.rest;
        let Some(found) = inside(&text[1..], b'"') else {
            return self.wrong();
        };
        if found.raw.is_empty() {
            return self.wrong();
        }
        self.skip(found.raw.len() + 2);
        Lexeme::Quoted(found)
    }

    fn literal(&mut self) -> Lexeme<'a>
        requires starts { Starts start.Literal self.old.rest.now }
        requires text { IsUtf8 self.old.rest.now }
        ensures { IsRead result self.old.at self.old.rest.now self.new.at self.new.rest.now }
    {
        let text = self.rest;
        let Some(found) = inside(&text[1..], b'\'') else {
            return self.wrong();
        };
        self.skip(found.raw.len() + 2);
        Lexeme::Literal(found)
    }

    // Nothing is read after what is no token.
    fn wrong(&mut self) -> Lexeme<'a>
        requires { IsStuck self.old.at self.old.rest.now }
        ensures { IsRead result self.old.at self.old.rest.now self.new.at self.new.rest.now }
    {
        self.skip_all();
        Lexeme::Wrong
    }

    // Goes past so many bytes, and gives them.
    fn take(&mut self, count: usize) -> &'a str
        requires { IsCharBoundary self.old.rest.now count }
        ensures taken { result.now ≡ take count self.old.rest.now }
        ensures rest { self.new.rest.now ≡ drop count self.old.rest.now }
        ensures at { self.new.at ≡ self.old.at + count }
    {
        let text = self.rest;
        self.rest = &text[count..];
        self.at += count;
        &text[..count]
    }

    fn skip_all(&mut self)
        ensures rest { self.new.rest.now ≡ [] }
        ensures at { self.new.at ≡ self.old.at + length self.old.rest.now }
    {
        self.skip(self.rest.len());
    }

    // Goes past so many bytes.
    fn skip(&mut self, count: usize)
        requires { IsCharBoundary self.old.rest.now count }
        ensures rest { self.new.rest.now ≡ drop count self.old.rest.now }
        ensures at { self.new.at ≡ self.old.at + count }
    {
        let text = self.rest;
        self.rest = &text[count..];
        self.at += count;
    }
}
