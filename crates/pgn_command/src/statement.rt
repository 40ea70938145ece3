ghost use Rattle.std.specs.Prelude.{◌≤◌};
ghost use Rattle.pgn_base.specs.declared.limits.TheConstants.{LINE_BYTES_MAX};

use crate::Enclosed;

/// A name as the line has it: a word, or a quoted identifier. It is neither folded nor cut.
#[derive(Clone, Copy)]
pub enum Ident<'a> {
    Word(&'a str),
    Quoted(Enclosed<'a>),
}

/// A text that is not yet built: a literal, none, or a literal so many times.
#[derive(Clone, Copy)]
pub enum Text<'a> {
    Literal(Enclosed<'a>),
    Null,
    Repeat(Enclosed<'a>, u32),
}

/// A command whose names and texts are still parts of the line. Its limits have not been tested.
#[derive(Clone, Copy)]
pub enum Statement<'a> {
    Empty,
    Begin,
    Start,
    Commit,
    Rollback,
    Savepoint(Ident<'a>),
    RollbackTo(Ident<'a>),
    Release(Ident<'a>),
    Listen(Ident<'a>),
    Unlisten(Ident<'a>),
    UnlistenAll,
    Notify(Ident<'a>, Text<'a>),
    PgNotify(Text<'a>, Text<'a>),
    ListeningChannels,
    QueueUsage,
}

/// The line goes wrong at this byte.
#[derive(Clone, Copy)]
pub struct Stop {
    pub at: usize,
    ghost within: { at ≤ LINE_BYTES_MAX },
}
