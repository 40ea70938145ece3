ghost use Rattle.std.specs.Prelude.{◌≡◌, [], ◌∷◌, None, length, IfOk, OnOk};
ghost use Rattle.pgn_hub.specs.Passes.{IsWithin, opened_pass};
ghost use Rattle.pgn_hub.specs.Shape.{Shape};
ghost use Rattle.pgn_session.specs.Standing.{IsServedBy};
ghost use Rattle.pgn_session.specs.Whole.{HasRest};
ghost use Rattle.pgn_session.specs.Open.{BeginsEmpty};
ghost use Rattle.pgn_queries.specs.Script.{wire_quit};
ghost use Rattle.pgn_service.specs.Conversation.{NamesNoFlags, RunsLegally, session_section, wire_plan, wire_seat, wire_shape};

use pgn_base::{DbOid, Format, NOTE_LINES_MAX, Name, PAGES_DEFAULT, Seed, SessionNo};
use pgn_hub::{Hub, PassView, SeatSetup, Setup};
use pgn_language::{Act, LineText, ScriptLine, ScriptLines, Section};
use pgn_session::{Doing, FlagPlan, Session};
use pgn_threads::laws::runs_are_legal;
use std::alloc::{AllocError, Global};

// A hub for one client, and its session, of which nothing was asked yet.
pub(crate) fn open<P: PassView + Drop, H: Hub<Pass = P> + Drop>(
    alloc: Global,
    hashes: Seed,
) -> Result<(H, Session<P>), AllocError>
    ensures shape { IfOk result (λ opened. H.shape opened.0 ≡ wire_shape) }
    ensures own { IfOk result (λ opened. H.is_pass opened.0 opened.1.pass) }
    ensures served { IfOk result (λ opened.
        IsServedBy (H.shape opened.0) opened.1.section opened.1.plan) }
    ensures rested { IfOk result (λ opened. HasRest (H.shape opened.0) P.known opened.1) }
    ensures begins { IfOk result (λ opened. BeginsEmpty opened.1) }
    ensures section { IfOk result (λ opened. opened.1.section ≡ session_section []) }
    ensures plan { IfOk result (λ opened. opened.1.plan ≡ wire_plan) }
    ensures patience { IfOk result (λ opened. opened.1.patience ≡ 1) }
{
    let (hub, pass) = open_hub::<P, H>(alloc)?;
    match session(alloc, hashes, pass) {
        Ok(session) => Ok((hub, session)),
        Err(error) => {
            drop(hub);
            Err(error)
        }
    }
}

// A hub for one client, and its pass.
fn open_hub<P: PassView + Drop, H: Hub<Pass = P> + Drop>(
    alloc: Global,
) -> Result<(H, P), AllocError>
    ensures shape { IfOk result (λ opened. H.shape opened.0 ≡ wire_shape) }
    ensures own { IfOk result (λ opened. H.is_pass opened.0 opened.1) }
    ensures opened { IfOk result (λ opened. P.known opened.1 ≡ opened_pass 1 wire_seat) }
{
    let seats = seats(alloc)?;
    let setup = Setup::new(PAGES_DEFAULT, 1, seats, Format::One);
    let (hub, passes) = H::open(alloc, setup)?;
    let pass = only(passes);
    Ok((hub, pass))
}

// The session of a client of which nothing was asked yet, with this pass.
fn session<P: PassView + Drop>(
    alloc: Global,
    hashes: Seed,
    pass: P,
) -> Result<Session<P>, AllocError>
    requires { P.known pass ≡ opened_pass 1 wire_seat }
    ensures rested { IfOk result (λ session. (shape : Shape) → HasRest shape P.known session) }
    ensures pass { IfOk result (λ session. session.pass ≡ pass) }
    ensures section { IfOk result (λ session. session.section ≡ session_section []) }
    ensures plan { IfOk result (λ session. session.plan ≡ wire_plan) }
    ensures patience { IfOk result (λ session. session.patience ≡ 1) }
    ensures begins { IfOk result (λ session. BeginsEmpty session) }
{
    let Ok(section) = section(alloc) else {
        drop(pass);
        return Err(AllocError);
    };
    let plan = FlagPlan {
        first_end: 0,
        sessions: 1,
    };
    let session = Session::new(alloc, hashes, pass, section, plan, 1)?;
    Ok(session)
}

// The seat of the client's session.
fn seats(alloc: Global) -> Result<Vec<SeatSetup>, AllocError>
    ensures { IfOk result (λ seats. seats.items ≡ wire_shape.seats) }
{
    let seat = SeatSetup {
        db: DbOid::new(1),
        notes: NOTE_LINES_MAX as u32,
    };
    Ok(Vec::from_array(alloc, [seat])?)
}

// The pass of the one seat.
fn only<P: Drop>(mut passes: Vec<P>) -> P
    requires one { length passes.items ≡ 1 }
    ensures { passes.items ≡ result ∷ [] }
{
    let Some(pass) = passes.pop() else {
        unreachable!()
    };
    pass
}

// The line that ends a client's script.
fn last_line(alloc: Global) -> Result<ScriptLine, AllocError>
    ensures { IfOk result (λ line. line ≡ wire_quit) }
{
    let text = LineText::new(alloc, "\\quit")?;
    Ok(ScriptLine {
        line: u32::MAX,
        text,
        act: Act::Quit,
    })
}

// A script of it.
fn only_quit(alloc: Global) -> Result<ScriptLines, AllocError>
    ensures { IfOk result (λ lines. lines ≡ wire_quit ∷ []) }
{
    let line = last_line(alloc)?;
    let mut lines = ScriptLines::new(alloc);
    match lines.push(line) {
        Ok(()) => Ok(lines),
        Err(error) => {
            drop(lines);
            Err(error)
        }
    }
}

// The section of a client of which nothing was asked yet.
fn section(alloc: Global) -> Result<Section, AllocError>
    ensures { IfOk result (λ section. section ≡ session_section []) }
{
    let Ok(name) = Name::new(alloc, "wire") else {
        return Err(AllocError);
    };
    let Ok(lines) = only_quit(alloc) else {
        drop(name);
        return Err(AllocError);
    };
    Ok(Section {
        no: SessionNo::new(1),
        name,
        db: DbOid::new(1),
        lines,
        note_lines: NOTE_LINES_MAX as u32,
    })
}

// Gathers the pass of a session that is over and listens no more: what it did is a legal run.
pub(crate) fn finish<P: PassView + Drop, H: Hub<Pass = P> + Drop>(
    alloc: Global,
    hub: H,
    session: Session<P>,
) -> Result<(), AllocError>
    requires shape { H.shape hub ≡ wire_shape }
    requires own { H.is_pass hub session.pass }
    requires rested { HasRest (H.shape hub) P.known session }
    requires over { session.doing ≡ Doing.Over }
    requires left { (P.known session.pass).mark ≡ None }
    requires number { session.section.no ≡ 1 }
    requires plan { session.plan ≡ wire_plan }
    requires patience { session.patience ≡ 1 }
    ensures { OnOk result
        (NamesNoFlags session.section → RunsLegally session.section session.items.items) }
{
    let (pass, trace) = session.into_log();
    drop(trace);
    is_within(&hub, &pass);
    runs_are_legal();
    match alone(alloc, pass) {
        Ok(passes) => {
            let roll = hub.gather(passes);
            drop(roll);
            Ok(())
        }
        Err(error) => {
            drop(hub);
            Err(error)
        }
    }
}

// The one pass of a hub, to be gathered.
fn alone<P: Drop>(alloc: Global, pass: P) -> Result<Vec<P>, AllocError>
    ensures { IfOk result (λ passes. passes.items ≡ pass ∷ []) }
{
    let mut passes = Vec::with_capacity(alloc, 1)?;
    passes.push(pass)?;
    Ok(passes)
}

// What holds of a pass of a hub between calls.
fn is_within<H: Hub>(hub: &H, pass: &H::Pass)
    requires { H.is_pass hub.now pass.now }
    ensures { IsWithin (H.Pass.known pass.now) }
{}
