use pgn_base::Format;

/// What the words of the command line ask for.
#[derive(Clone, Copy)]
pub enum Asked {
    /// To run the scenario that is read: with so many pages at most, whose entries have this format, where an await takes so many
    /// looks. A live run shows each line of each session as it comes.
    Run {
        pages: u32,
        patience: u64,
        format: Format,
        live: bool,
    },
    /// To run a scenario that is made from a seed: so many sessions, and so many notifications of each.
    Drill {
        seed: u64,
        sessions: u32,
        notes: u32,
    },
    /// To answer a client of PostgreSQL's protocol 3.0.
    Wire,
    /// To tell whether what is read, a scenario and an output text, is a legal run with its output: with so many pages at most, whose
    /// entries have this format, where an await takes so many looks.
    Check {
        pages: u32,
        patience: u64,
        format: Format,
    },
    /// To serve clients of PostgreSQL's protocol 3.0 on one queue, at so many seats, by frames.
    Serve {
        seats: u32,
    },
}
