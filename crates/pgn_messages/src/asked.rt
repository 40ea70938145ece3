use pgn_base::Command;
use pgn_language::LineText;
use pgn_requests::{Settled, Wording};

/// A query of a seat's client: the number of its line in the seat's script, its text and its command, and how its answer is put.
pub struct Asked {
    pub line: u32,
    pub text: LineText,
    pub command: Command,
    pub wording: Wording,
}

// Written out, so that this crate proves it once for all that drop one.
impl Drop for Asked {
    fn drop(self) {
        let Asked {
            line: _,
            text: _,
            command: _,
            wording: _,
        } = self;
    }
}

/// How a client of a seat ends.
#[derive(Clone, Copy)]
pub enum Parting {
    /// By a Terminate, or with its bytes.
    Plain,
    /// By a fault of its bytes.
    Refused,
    /// By a message of the extended protocol.
    Extended,
    /// By a query with which more would notify than may.
    Spent,
}

/// What a seat is asked.
pub enum Ask {
    /// A query of its client.
    Query(Asked),
    /// What its client asks that is settled without the session: it has no line.
    Settle(Settled),
    /// `DISCARD ALL`, with the number of the first of its two lines.
    Discard { line: u32 },
    /// The end of its client, with the number of the first of the two lines that set the seat back.
    End { line: u32, parting: Parting },
}

// Written out, so that this crate proves it once for all that drop one.
impl Drop for Ask {
    fn drop(self) {
        match self {
            Ask::Query(asked) => drop(asked),
            Ask::Settle(settled) => drop(settled),
            Ask::Discard { line: _ }
            | Ask::End {
                line: _,
                parting: _,
            } => {}
        }
    }
}
