ghost use Rattle.std.specs.Prelude.{◌+◌, ◌^◌, ◌<◌, length, IfOk};
ghost use Rattle.pgn_reading.specs.Form.{EachSection, IsReadTrace};
ghost use Rattle.pgn_model.specs.Text.{traces_lines};
ghost use Rattle.pgn_walk.specs.Evidence.{IsEvidence};
ghost use Rattle.pgn_check.specs.Sections.{IsFirstFrom, settings_on};

use crate::walker::{lines_of_trace, walk};
use pgn_language::Section;
use pgn_ledger::Ledger;
use pgn_model::Trace;
use pgn_walk::{Basis, Evidence};
use std::alloc::{AllocError, Global};

/// What all sections are judged by: what the command line sets, the journal, and what all traces show.
#[derive(Drop)]
pub struct Grounds<'a> {
    /// The queue's limit in pages.
    pub limit: u32,
    /// How many looks an await takes.
    pub patience: u64,
    pub ledger: &'a Ledger<'a>,
    pub evidence: &'a Evidence,
}

/// The number of the first line of all sections that is to blame, if one is, where the first section's head is the line of this number.
pub fn walk_all<'a>(
    alloc: Global,
    grounds: &Grounds<'a>,
    sections: &'a [Section],
    traces: &[Trace],
    head: usize,
) -> Result<Option<usize>, AllocError>
    requires tells { IsEvidence sections.now traces.now
        grounds.now.evidence.now.raised grounds.now.evidence.now.stood }
    requires read { EachSection IsReadTrace sections.now traces.now }
    requires fits { head + length (traces_lines sections.now traces.now) < 2 ^ 64 }
    ensures { IfOk result (IsFirstFrom head (settings_on grounds.now)
        sections.now grounds.now.ledger.now.journal.now traces.now) }
{
    let mut line = head;
    for at in 0..traces.len() {
        let section = &sections[at];
        let trace = &traces[at];
        let basis = Basis {
            section,
            limit: grounds.limit,
            patience: grounds.patience,
            ledger: grounds.ledger,
            evidence: grounds.evidence,
        };
        match walk(alloc, &basis, trace, line)? {
            Some(number) => return Ok(Some(number)),
            None => {}
        }
        line += lines_of_trace(trace);
    }
    Ok(None)
}
