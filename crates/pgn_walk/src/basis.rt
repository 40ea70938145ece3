use crate::evidence::Evidence;
use pgn_language::Section;
use pgn_ledger::Ledger;

/// What a trace is judged by: its section, what the command line sets, the journal, and what all traces show.
#[derive(Drop)]
pub struct Basis<'a> {
    pub section: &'a Section,
    /// The queue's limit in pages.
    pub limit: u32,
    /// How many looks an await takes.
    pub patience: u64,
    pub ledger: &'a Ledger<'a>,
    pub evidence: &'a Evidence,
}
