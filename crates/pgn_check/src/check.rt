ghost use Rattle.std.specs.Prelude.{◌≡◌, ◌+◌, ◌^◌, ◌<◌, ◌≤◌, length, All, IfOk};
ghost use Rattle.pgn_journal.specs.Journal.{IsFinished, next_xid};
ghost use Rattle.pgn_language.specs.Inputs.{IsSound};
ghost use Rattle.pgn_ledger.specs.Places.{notes_in};
ghost use Rattle.pgn_model.specs.Text.{traces_lines};
ghost use Rattle.pgn_reading.specs.Form.{EachSection, IsReadTrace};
ghost use Rattle.pgn_check.specs.Entries.{lines_in};
ghost use Rattle.pgn_check.specs.Sections.{IsFirstBlamed, settings_at, settings_by};
ghost use Rattle.pgn_check.specs.Verdicts.{Judges};

use crate::entries::lines_in;
use crate::held::are_held;
use crate::journal::read_journal;
use crate::sections::{Grounds, walk_all};
use pgn_base::{Format, Seed};
use pgn_form::Reading;
use pgn_language::Scenario;
use pgn_ledger::Ledger;
use pgn_walk::Evidence;
use std::alloc::{AllocError, Global};

/// Whether a text is the output of a legal run of a scenario.
#[derive(Clone, Copy)]
pub enum Verdict {
    Legal,
    /// It is not: the number of the first line that is to blame, from 1. A line that is missing at the end has the number behind the
    /// last.
    Illegal { line: usize },
}

/// What the command line sets: the queue's limit in pages, how many looks an await takes, and the format of entries.
#[derive(Clone, Copy)]
struct Rules {
    pages: u32,
    patience: u64,
    format: Format,
}

/// Whether a text is the output of a legal run of the scenario, where the queue has at most so many pages and entries of this format,
/// and an await takes so many looks. Hashes are made with this seed.
pub fn check_output(
    alloc: Global,
    seed: Seed,
    scenario: &Scenario,
    pages: u32,
    patience: u64,
    format: Format,
    out: &[u8],
) -> Result<Verdict, AllocError>
    requires sound { IsSound scenario.now }
    requires few { length out.now ≤ 67108864 }
    ensures { IfOk result
        (Judges scenario.now (record { format = format; limit = pages; patience = patience }) out.now) }
{
    are_held(scenario.sections.as_slice());
    let reading = match read_journal(alloc, seed, scenario, out)? {
        Ok(reading) => reading,
        Err(line) => return Ok(Verdict::Illegal { line }),
    };
    let rules = Rules {
        pages,
        patience,
        format,
    };
    let found = walk_reading(alloc, seed, scenario, &rules, &reading);
    // By a call, before what may return.
    drop(reading);
    match found? {
        Some(line) => Ok(Verdict::Illegal { line }),
        None => Ok(Verdict::Legal),
    }
}

// The first line of all sections that is to blame, if one is, where this was read.
fn walk_reading(
    alloc: Global,
    seed: Seed,
    scenario: &Scenario,
    rules: &Rules,
    reading: &Reading,
) -> Result<Option<usize>, AllocError>
    requires finished { All IsFinished reading.now.journal }
    requires few { next_xid reading.now.journal < 2 ^ 32 }
    requires few_notes { notes_in reading.now.journal < 2 ^ 40 }
    requires few_lines { lines_in reading.now.journal < 2 ^ 63 }
    requires read { EachSection IsReadTrace scenario.now.sections reading.now.traces }
    requires fits { 2 + lines_in reading.now.journal
        + length (traces_lines scenario.now.sections reading.now.traces) < 2 ^ 64 }
    ensures { IfOk result (IsFirstBlamed (settings_by rules.now)
        scenario.now.sections reading.now.journal reading.now.traces) }
{
    let ledger = Ledger::new(alloc, seed, rules.format, reading.journal.as_slice())?;
    let blamed = walk_sections(alloc, scenario, rules, &ledger, reading);
    drop(ledger);
    blamed
}

// The same, with this ledger of the journal that was read.
fn walk_sections(
    alloc: Global,
    scenario: &Scenario,
    rules: &Rules,
    ledger: &Ledger,
    reading: &Reading,
) -> Result<Option<usize>, AllocError>
    requires journal { ledger.now.journal.now ≡ reading.now.journal }
    requires few_lines { lines_in reading.now.journal < 2 ^ 63 }
    requires read { EachSection IsReadTrace scenario.now.sections reading.now.traces }
    requires fits { 2 + lines_in reading.now.journal
        + length (traces_lines scenario.now.sections reading.now.traces) < 2 ^ 64 }
    ensures { IfOk result (IsFirstBlamed (settings_at ledger.now rules.now.pages rules.now.patience)
        scenario.now.sections reading.now.journal reading.now.traces) }
{
    let sections = scenario.sections.as_slice();
    let traces = reading.traces.as_slice();
    let evidence = Evidence::new(alloc, ledger.feed.seed(), sections, traces)?;
    let journal = reading.journal.as_slice();
    let head = 2 + lines_in(journal);
    let grounds = Grounds {
        limit: rules.pages,
        patience: rules.patience,
        ledger,
        evidence: &evidence,
    };
    let blamed = walk_all(alloc, &grounds, sections, traces, head);
    drop(evidence);
    blamed
}
