ghost use Rattle.std.specs.Prelude.{◌≡◌, ◌≤◌, map, length, IfOk, All};
ghost use Rattle.std.specs.List.{range_with_len};
ghost use Rattle.pgn_base.specs.declared.limits.TheConstants.{PAGES_MIN, PAGES_MAX};
ghost use Rattle.pgn_language.specs.Inputs.{IsSound};
ghost use Rattle.pgn_hub.specs.Passes.{IsWithin};
ghost use Rattle.pgn_reading.specs.Bare.{IsLegalBare};
ghost use Rattle.pgn_session.specs.Runs.{IsReady, IsOver, script_of};
ghost use Rattle.pgn_threads.specs.Ended.{HaveEnded};
ghost use Rattle.pgn_threads.specs.Opened.{plan_for, scenario_of, script_for, shape_for};

use crate::opening::{Shared, logs, open_sessions, seats_for};
use crate::{drain, run_sessions};
use pgn_base::{Copied, Format, Names, Seed};
use pgn_hub::{Hub, PassView, Setup};
use pgn_journal::Tx;
use pgn_language::{Scenario, Sections};
use pgn_model::Trace;
use pgn_reading::merge;
use pgn_session::{FlagPlan, Session};
use std::alloc::{AllocError, Global};
use std::sync::Wait;
use std::thread::Threads;
use std::time::Clock;

/// A run of a scenario: the journal, and the trace of each session, bare: the notifications that the journal has are not there too.
#[derive(Drop)]
pub struct Run {
    pub journal: Vec<Tx>,
    pub traces: Vec<Trace>,
}

/// Runs a scenario over a hub of this type, which it opens with a limit of so many pages and entries of this format: its sessions run
/// side by side, as `run_sessions` has it, and an await takes so many looks, made or slept over. Hashes are made with this seed. The
/// sessions take the scripts, and the scenario is given back. The error is that memory did not suffice; the scenario is then dropped.
pub fn run_on_hub<
    P: PassView + Send + Drop,
    H: Hub<Pass = P> + Sync + Drop,
    R: Threads + Wait + Clock + Sync,
>(
    rt: &R,
    alloc: Global,
    seed: Seed,
    scenario: Scenario,
    pages: u32,
    patience: u64,
    format: Format,
) -> Result<(Scenario, Run), AllocError>
    requires sound { IsSound scenario }
    requires some_pages { PAGES_MIN ≤ pages }
    requires few_pages { pages ≤ PAGES_MAX }
    requires patient { 1 ≤ patience }
    ensures back { IfOk result (λ played. played.0 ≡ scenario) }
    ensures legal { IfOk result (λ played. IsLegalBare scenario
        (record { format = format; limit = pages; patience = patience })
        played.1.journal.items played.1.traces.items) }
{
    let Scenario { sections, flags } = scenario;
    let opening = Opening {
        seed,
        pages,
        patience,
        format,
    };
    match run_opened::<_, H, R>(rt, alloc, opening, sections, &flags) {
        Ok((run, sections)) => Ok((Scenario { sections, flags }, run)),
        Err(error) => {
            drop(flags);
            Err(error)
        }
    }
}

// Runs the scenario of these sections and flags, as `run_on_hub` has it. The sessions take the sections, which are given back.
fn run_opened<
    P: PassView + Send + Drop,
    H: Hub<Pass = P> + Sync + Drop,
    R: Threads + Wait + Clock + Sync,
>(
    rt: &R,
    alloc: Global,
    opening: Opening,
    sections: Sections,
    flags: &Names,
) -> Result<(Run, Sections), AllocError>
    requires sound { IsSound (scenario_of sections flags.now) }
    requires some_pages { PAGES_MIN ≤ opening.pages }
    requires few_pages { opening.pages ≤ PAGES_MAX }
    requires patient { 1 ≤ opening.patience }
    ensures back { IfOk result (λ ran. ran.1 ≡ sections) }
    ensures legal { IfOk result (λ ran. IsLegalBare (scenario_of sections flags.now)
        (record { format = opening.format; limit = opening.pages; patience = opening.patience })
        ran.0.journal.items ran.0.traces.items) }
{
    let (hub, mut sessions) = open_with::<H>(alloc, opening, sections, flags)?;
    let Ok(()) = run_sessions(rt, alloc, &hub, sessions.as_mut_slice()) else {
        drop(hub);
        drop(sessions);
        return Err(AllocError);
    };
    let (run, sections) = finish_run(alloc, hub, sessions)?;
    Ok((run, sections))
}

/// Opens a hub of this type for a scenario, with a limit of so many pages and entries of this format, and makes a session for each
/// section, ready to run, where an await takes so many looks. Hashes are made with this seed. The error is that memory did not suffice.
pub fn open_on_hub<H: Hub + Drop>(
    alloc: Global,
    seed: Seed,
    scenario: &Scenario,
    pages: u32,
    patience: u64,
    format: Format,
) -> Result<(H, Vec<Session<H::Pass>>), AllocError>
    requires sound { IsSound scenario.now }
    requires some_pages { PAGES_MIN ≤ pages }
    requires few_pages { pages ≤ PAGES_MAX }
    requires patient { 1 ≤ patience }
    ensures shape { IfOk result (λ opened. H.shape opened.0 ≡ shape_for scenario.now pages format) }
    ensures ready { IfOk result (λ opened. All (IsReady (H.is_pass opened.0) (H.shape opened.0) H.Pass.known) opened.1.items) }
    ensures scripts { IfOk result (λ opened. map script_of opened.1.items ≡ map (script_for (plan_for scenario.now) patience) scenario.now.sections) }
{
    let sections = scenario.sections.copy(alloc)?;
    let opening = Opening {
        seed,
        pages,
        patience,
        format,
    };
    open_with::<H>(alloc, opening, sections, &scenario.flags)
}

// What a hub is opened with and its sessions share: the seed of their hashes, the limit of the queue, their patience, and the format
// of the entries.
#[derive(Clone, Copy)]
struct Opening {
    seed: Seed,
    pages: u32,
    patience: u64,
    format: Format,
}

// Opens a hub for the scenario of these sections and flags, and makes its sessions, as `open_on_hub` has it. They take the sections.
fn open_with<H: Hub + Drop>(
    alloc: Global,
    opening: Opening,
    sections: Sections,
    flags: &Names,
) -> Result<(H, Vec<Session<H::Pass>>), AllocError>
    requires sound { IsSound (scenario_of sections flags.now) }
    requires some_pages { PAGES_MIN ≤ opening.pages }
    requires few_pages { opening.pages ≤ PAGES_MAX }
    requires patient { 1 ≤ opening.patience }
    ensures shape { IfOk result (λ opened. H.shape opened.0
        ≡ shape_for (scenario_of sections flags.now) opening.pages opening.format) }
    ensures ready { IfOk result (λ opened.
        All (IsReady (H.is_pass opened.0) (H.shape opened.0) H.Pass.known) opened.1.items) }
    ensures scripts { IfOk result (λ opened. map script_of opened.1.items
        ≡ map (script_for (plan_for (scenario_of sections flags.now)) opening.patience) sections) }
{
    let scripts = sections.as_slice();
    let plan = FlagPlan {
        first_end: flags.as_slice().len() as u32,
        sessions: scripts.len() as u32,
    };
    let seats = seats_for(alloc, scripts)?;
    let setup = Setup::new(
        opening.pages,
        plan.first_end + plan.sessions,
        seats,
        opening.format,
    );
    let (hub, passes) = H::open(alloc, setup)?;
    let shared = Shared {
        seed: opening.seed,
        plan,
        patience: opening.patience,
    };
    let sessions = open_sessions(alloc, passes, sections.into_items(), shared)?;
    Ok((hub, sessions))
}

/// What sessions that are over have come to, and their sections: they are drained, their passes are gathered and their traces merged.
/// The sessions are all those of the hub, in order. The error is that memory did not suffice.
pub fn finish_run<H: Hub + Drop>(
    alloc: Global,
    hub: H,
    mut sessions: Vec<Session<H::Pass>>,
) -> Result<(Run, Sections), AllocError>
    requires over { All (IsOver (H.is_pass hub) (H.shape hub) H.Pass.known) sessions.items }
    requires all { map (λ s. s.section.no) sessions.items ≡ range_with_len 1 (length (H.shape hub).seats) }
    ensures ended { IfOk result (λ ended. HaveEnded (H.shape hub) sessions.items ended.0.journal.items ended.0.traces.items) }
    ensures sessions { IfOk result (λ ended. map (λ trace. trace.session) ended.0.traces.items ≡ map (λ s. s.section.no) sessions.items) }
    ensures sections { IfOk result (λ ended. ended.1 ≡ map (λ s. s.section) sessions.items) }
{
    let Ok(()) = drain(alloc, &hub, sessions.as_mut_slice()) else {
        drop(hub);
        drop(sessions);
        return Err(AllocError);
    };
    let Ok((passes, mut traces, sections)) = logs(alloc, sessions) else {
        drop(hub);
        return Err(AllocError);
    };
    are_within(&hub, passes.as_slice());
    drop(hub.gather(passes));
    let Ok(journal) = merge(alloc, traces.as_mut_slice()) else {
        drop(traces);
        drop(sections);
        return Err(AllocError);
    };
    let sections = Sections::from_items(sections);
    Ok((Run { journal, traces }, sections))
}

// What holds of each pass of a hub between calls.
fn are_within<H: Hub>(hub: &H, passes: &[H::Pass])
    requires { All (H.is_pass hub.now) passes.now }
    ensures { All (λ pass. IsWithin (H.Pass.known pass)) passes.now }
{}
