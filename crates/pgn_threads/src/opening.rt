ghost use Rattle.std.specs.Prelude.{◌≡◌, ◌≤◌, [], ◌∷◌, ◌++◌, map, IfOk, OnOk, All};
ghost use Rattle.pgn_hub.specs.Shape.{Shape};
ghost use Rattle.pgn_session.specs.Whole.{HasRest};
ghost use Rattle.pgn_threads.specs.Parts.{part_of, trace_of};
ghost use Rattle.pgn_session.specs.Runs.{script_of};
ghost use Rattle.pgn_threads.specs.Opened.{opened_for, script_for, seat_for, IsFit};

use pgn_base::Seed;
use pgn_hub::{PassView, SeatSetup};
use pgn_language::Section;
use pgn_model::{Items, Trace};
use pgn_session::{FlagPlan, Session};
use std::alloc::{AllocError, Global};

/// A seat for each section.
pub(crate) fn seats_for(alloc: Global, sections: &[Section]) -> Result<Vec<SeatSetup>, AllocError>
    ensures { IfOk result (λ seats. seats.items ≡ map seat_for sections.now) }
{
    let mut seats = Vec::with_capacity(alloc, sections.len())?;
    for section in sections {
        seats.push(SeatSetup {
            db: section.db,
            notes: section.note_lines,
        })?;
    }
    Ok(seats)
}

/// What the sessions of a scenario share: the seed of their hashes, the plan of their end flags, and their patience.
#[derive(Clone, Copy)]
pub(crate) struct Shared {
    pub(crate) seed: Seed,
    pub(crate) plan: FlagPlan,
    pub(crate) patience: u64,
}

/// A session for each section, which it takes, before the first line of its script, with its pass as the hub was opened.
pub(crate) fn open_sessions<P: PassView + Drop>(
    alloc: Global,
    passes: Vec<P>,
    sections: Vec<Section>,
    shared: Shared,
) -> Result<Vec<Session<P>>, AllocError>
    requires opened { map P.known passes.items ≡ map opened_for sections.items }
    requires fit { All IsFit sections.items }
    requires patient { 1 ≤ shared.patience }
    ensures passes { IfOk result (λ sessions. map (λ s. s.pass) sessions.items ≡ passes.items) }
    ensures scripts { IfOk result (λ sessions. map script_of sessions.items
        ≡ map (script_for shared.plan shared.patience) sections.items) }
    ensures rested { IfOk result (λ sessions. (shape : Shape) → All (HasRest shape P.known) sessions.items) }
{
    let mut sessions = Vec::with_capacity(alloc, sections.len())?;
    let mut passes = passes.into_iter();
    for section in sections {
        let Some(pass) = passes.next() else {
            unreachable!();
        };
        let Shared {
            seed,
            plan,
            patience,
        } = shared;
        sessions.push(Session::new(alloc, seed, pass, section, plan, patience)?)?;
    }
    Ok(sessions)
}

/// The passes of sessions, their traces, and their sections.
pub(crate) fn logs<P: PassView + Drop>(
    alloc: Global,
    sessions: Vec<Session<P>>,
) -> Result<(Vec<P>, Vec<Trace>, Vec<Section>), AllocError>
    ensures passes { IfOk result (λ logs. logs.0.items ≡ map (λ s. s.pass) sessions.items) }
    ensures traces { IfOk result (λ logs. logs.1.items ≡ map (λ s. trace_of (part_of P.known s)) sessions.items) }
    ensures sections { IfOk result (λ logs. logs.2.items ≡ map (λ s. s.section) sessions.items) }
{
    let mut passes = Vec::new(alloc);
    let mut traces = Vec::new(alloc);
    let mut sections = Vec::new(alloc);
    match log_each(sessions, &mut passes, &mut traces, &mut sections) {
        Ok(()) => Ok((passes, traces, sections)),
        Err(error) => {
            drop(passes);
            drop(traces);
            drop(sections);
            Err(error)
        }
    }
}

// Takes each session apart.
fn log_each<P: PassView + Drop>(
    sessions: Vec<Session<P>>,
    passes: &mut Vec<P>,
    traces: &mut Vec<Trace>,
    sections: &mut Vec<Section>,
) -> Result<(), AllocError>
    requires none { (passes.old.items ≡ []) × (traces.old.items ≡ []) × (sections.old.items ≡ []) }
    ensures passes { OnOk result (passes.new.items ≡ map (λ s. s.pass) sessions.items) }
    ensures traces { OnOk result
        (traces.new.items ≡ map (λ s. trace_of (part_of P.known s)) sessions.items) }
    ensures sections { OnOk result (sections.new.items ≡ map (λ s. s.section) sessions.items) }
{
    for session in sessions {
        keep(session, passes, traces, sections)?;
    }
    Ok(())
}

// Keeps the pass of a session, its trace, and its section.
fn keep<P: PassView + Drop>(
    session: Session<P>,
    passes: &mut Vec<P>,
    traces: &mut Vec<Trace>,
    sections: &mut Vec<Section>,
) -> Result<(), AllocError>
    ensures passes { OnOk result (passes.new.items ≡ passes.old.items ++ session.pass ∷ []) }
    ensures traces { OnOk result
        (traces.new.items ≡ traces.old.items ++ trace_of (part_of P.known session) ∷ []) }
    ensures sections { OnOk result
        (sections.new.items ≡ sections.old.items ++ session.section ∷ []) }
{
    let (pass, trace, section) = log_of(session);
    passes.push(pass)?;
    traces.push(trace)?;
    sections.push(section)?;
    Ok(())
}

// The pass of a session, its trace, and its section.
fn log_of<P: PassView + Drop>(session: Session<P>) -> (P, Trace, Section)
    ensures pass { result.0 ≡ session.pass }
    ensures trace { result.1 ≡ trace_of (part_of P.known session) }
    ensures section { result.2 ≡ session.section }
{
    let Session {
        pass,
        section,
        block,
        set,
        items,
        doing,
        ..
    } = session;
    let trace = Trace {
        session: section.no,
        db: section.db,
        items: Items::from_items(items),
        last: pass.mark(),
    };
    drop(block);
    drop(set);
    drop(doing);
    (pass, trace, section)
}
