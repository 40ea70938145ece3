use crate::Enclosed;

/// What a token is, as the line has it, or the end of the line.
#[derive(Clone, Copy)]
pub enum Lexeme<'a> {
    Word(&'a str),
    Quoted(Enclosed<'a>),
    Literal(Enclosed<'a>),
    Number(&'a str),
    Sign(u8),
    Wrong,
    End,
}

/// A token and the byte of the line, from 0, where it begins; for `End` the line's length.
#[derive(Clone, Copy)]
pub struct Token<'a> {
    pub lexeme: Lexeme<'a>,
    pub at: usize,
}
