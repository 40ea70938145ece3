ghost use Rattle.std.specs.Prelude.{◌≡◌, ◌≤◌, ◌∷◌, ◌++◌, [], codes, decimal, map, IfOk, OnOk};
ghost use Rattle.pgn_base.specs.declared.limits.TheConstants.{SECTIONS_MAX};
ghost use Rattle.pgn_hub.specs.Passes.{opened_pass, opened_passes};
ghost use Rattle.pgn_service.specs.Seats.{AreSeated, GivesInbox, IsNewSession, IsOpened, SitsMore, service_seat, service_shape};
ghost use Rattle.pgn_service.specs.Service.{seat_notes, seat_section};
ghost use Rattle.pgn_messages.specs.Asks.{seat_quit};

use itoa::Buffer;
use pgn_base::{DbOid, Format, HUB_NOTES_MAX, Name, PAGES_DEFAULT, Seed, SessionNo};
use pgn_frames::Caller;
use pgn_hub::{Hub, PassView, SeatSetup, Setup};
use pgn_language::{ScriptLines, Section};
use pgn_messages::{Ask, quit_at_end};
use pgn_outlet::{Outlet, OutletPass};
use pgn_requests::Settings;
use pgn_seats::{Desk, Inbox};
use pgn_session::{FlagPlan, Session};
use std::alloc::{AllocError, Global};
use std::vec::IntoIter;

/// What each seat of a service has, in order: the inbox of what it is asked, the desk that serves it, and its callers.
pub(crate) struct Seating<P> {
    pub(crate) inboxes: Vec<Inbox>,
    pub(crate) desks: Vec<Desk<P>>,
    pub(crate) callers: Vec<Caller>,
}

// A hub for so many seats, and what each of them has, of which nothing was asked yet. Hashes are made with this seed.
pub(crate) fn open<P: PassView + Drop, H: Hub<Pass = P> + Drop>(
    alloc: Global,
    hashes: Seed,
    seats: u32,
) -> Result<(H, Seating<P>), AllocError>
    requires some { 1 ≤ seats }
    requires few { seats ≤ SECTIONS_MAX }
    ensures { IfOk result (λ opened.
        IsOpened (H.is_pass opened.0) (H.shape opened.0) P.known seats opened.1.inboxes.items
        opened.1.desks.items opened.1.callers.items) }
{
    let setup = Setup::new(PAGES_DEFAULT, seats, seats_for(alloc, seats)?, Format::One);
    let (hub, passes) = H::open(alloc, setup)?;
    match seating_for(alloc, hashes, seats, passes) {
        Ok(seating) => Ok((hub, seating)),
        Err(error) => {
            drop(hub);
            Err(error)
        }
    }
}

// The seats, as the hub keeps them.
fn seats_for(alloc: Global, seats: u32) -> Result<Vec<SeatSetup>, AllocError>
    requires some { 1 ≤ seats }
    ensures { IfOk result (λ setups. setups.items ≡ (service_shape seats).seats) }
{
    let seat = SeatSetup {
        db: DbOid::new(1),
        notes: notes_for(seats),
    };
    let mut setups = Vec::new(alloc);
    setups.resize(seats as usize, seat)?;
    Ok(setups)
}

// How many notifications each of so many seats may send.
fn notes_for(seats: u32) -> u32
    requires some { 1 ≤ seats }
    ensures { result ≡ seat_notes seats }
{
    HUB_NOTES_MAX / seats
}

// What the seats have of these passes.
fn seating_for<P: PassView + Drop>(
    alloc: Global,
    hashes: Seed,
    seats: u32,
    passes: Vec<P>,
) -> Result<Seating<P>, AllocError>
    requires some { 1 ≤ seats }
    requires few { seats ≤ SECTIONS_MAX }
    requires opened { map P.known passes.items ≡ opened_passes 1 (service_shape seats).seats }
    ensures { IfOk result (λ seating.
        AreSeated P.known seats passes.items seating.inboxes.items seating.desks.items
        seating.callers.items) }
{
    let mut seating = Seating {
        inboxes: Vec::new(alloc),
        desks: Vec::new(alloc),
        callers: Vec::new(alloc),
    };
    let mut passes = passes.into_iter();
    let seated = seat_each(alloc, hashes, seats, &mut passes, &mut seating);
    drop(passes);
    match seated {
        Ok(()) => Ok(seating),
        Err(error) => {
            let Seating {
                inboxes,
                desks,
                callers,
            } = seating;
            drop(desks);
            drop(callers);
            destroy_all(inboxes);
            Err(error)
        }
    }
}

/// Drops what was not taken from inboxes, and gives the memory back.
pub(crate) fn destroy_all(mut inboxes: Vec<Inbox>) {
    while let Some(inbox) = inboxes.pop() {
        inbox.destroy();
    }
    inboxes.destroy_empty();
}

// Seats a session for each of the passes, in order; they are lent, so that they are dropped where all is done.
fn seat_each<P: PassView + Drop>(
    alloc: Global,
    hashes: Seed,
    seats: u32,
    passes: &mut IntoIter<P, Global>,
    seating: &mut Seating<P>,
) -> Result<(), AllocError>
    requires some { 1 ≤ seats }
    requires few { seats ≤ SECTIONS_MAX }
    requires opened { map P.known passes.old.rest.items ≡ opened_passes 1
        (service_shape seats).seats }
    requires empty { (seating.old.inboxes.items ≡ []) × (seating.old.desks.items ≡ [])
        × (seating.old.callers.items ≡ []) }
    ensures { OnOk result
        (AreSeated P.known seats passes.old.rest.items seating.new.inboxes.items
        seating.new.desks.items seating.new.callers.items) }
{
    for place in 0..seats {
        let Some(pass) = passes.next() else {
            unreachable!();
        };
        let session = session_for(alloc, hashes, seats, place + 1, pass)?;
        sit(alloc, seats, session, seating)?;
    }
    Ok(())
}

// The session of a seat of which nothing was asked yet, with its pass as the hub was opened.
fn session_for<P: PassView + Drop>(
    alloc: Global,
    hashes: Seed,
    seats: u32,
    seat: u32,
    pass: P,
) -> Result<Session<P>, AllocError>
    requires some { 1 ≤ seat }
    requires within { seat ≤ seats }
    requires few { seats ≤ SECTIONS_MAX }
    requires opened { P.known pass ≡ opened_pass seat (service_seat seats) }
    ensures { IfOk result (λ session. IsNewSession P.known seats seat pass session) }
{
    let Ok(section) = section_for(alloc, seats, seat) else {
        drop(pass);
        return Err(AllocError);
    };
    let plan = FlagPlan {
        first_end: 0,
        sessions: seats,
    };
    Session::new(alloc, hashes, pass, section, plan, 1)
}

// The section of a seat of which nothing was asked yet.
fn section_for(alloc: Global, seats: u32, seat: u32) -> Result<Section, AllocError>
    requires some { 1 ≤ seat }
    requires within { seat ≤ seats }
    requires few { seats ≤ SECTIONS_MAX }
    ensures { IfOk result (λ section. section ≡ seat_section seats seat (seat_quit ∷ [])) }
{
    let name = name_for(alloc, seat)?;
    let Ok(lines) = only_quit(alloc) else {
        drop(name);
        return Err(AllocError);
    };
    Ok(Section {
        no: SessionNo::new(seat),
        name,
        db: DbOid::new(1),
        lines,
        note_lines: notes_for(seats),
    })
}

// The name of a seat's section.
fn name_for(alloc: Global, seat: u32) -> Result<Name, AllocError>
    ensures { IfOk result (λ name. name ≡ codes "seat" ++ decimal seat) }
{
    let mut text = String::new(alloc);
    text.push_str("seat")?;
    text.push_str(Buffer::new().format(seat))?;
    match Name::from_string(text) {
        Ok(name) => Ok(name),
        Err(_) => Err(AllocError),
    }
}

// A script of the line that ends it.
fn only_quit(alloc: Global) -> Result<ScriptLines, AllocError>
    ensures { IfOk result (λ lines. lines ≡ seat_quit ∷ []) }
{
    let mut lines = ScriptLines::new(alloc);
    lines.push(quit_at_end(alloc))?;
    Ok(lines)
}

// Gives a session a desk, with an inbox and a caller.
fn sit<P: PassView + Drop>(
    alloc: Global,
    seats: u32,
    session: Session<P>,
    seating: &mut Seating<P>,
) -> Result<(), AllocError>
    requires some { 1 ≤ seats }
    ensures { OnOk result
        (SitsMore (seat_notes seats) session seating.old.inboxes.items seating.new.inboxes.items
        seating.old.desks.items seating.new.desks.items seating.old.callers.items
        seating.new.callers.items) }
{
    let Ok((put, asks)) = open_inbox(alloc, &mut seating.inboxes) else {
        drop(session);
        return Err(AllocError);
    };
    seating.desks.push(Desk {
        session,
        asks,
        notes: 0,
        settings: Settings::new(alloc),
    })?;
    seating
        .callers
        .push(Caller::new(alloc, put, notes_for(seats)))?;
    Ok(())
}

// Opens an inbox behind the others: a pass that puts into it, and one that takes.
fn open_inbox(
    alloc: Global,
    inboxes: &mut Vec<Inbox>,
) -> Result<(OutletPass<Option<Ask>>, OutletPass<Option<Ask>>), AllocError>
    ensures { IfOk result (λ passes.
        GivesInbox inboxes.old.items inboxes.new.items passes.0 passes.1) }
{
    let (inbox, put, asks) = Outlet::open(alloc)?;
    match inboxes.push(inbox) {
        Ok(()) => Ok((put, asks)),
        Err(failed) => {
            failed.value.destroy();
            Err(AllocError)
        }
    }
}
