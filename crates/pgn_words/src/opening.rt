ghost use Rattle.std.specs.Prelude.{◌≡◌, ◌+◌, ◌<◌, ◌≤◌, map, length, All, IfOk};
ghost use Rattle.pgn_base.specs.declared.limits.TheConstants.{HUB_NOTES_MAX};
ghost use Rattle.pgn_hub.specs.Shape.{notes_of_seats, IsShape};
ghost use Rattle.pgn_hub.specs.Passes.{opened_passes};
ghost use Rattle.pgn_words.specs.Words.{cells_at, statuses_at, status_words, room_of, row, first_content};
ghost use Rattle.pgn_words.specs.Views.{seat_of, first_view};
ghost use Rattle.pgn_words.specs.Passes.{IsPassOf, IsFresh, shape_of, view_of, known_of};
ghost use Rattle.pgn_words.specs.Told.{after_making, made_by};

use crate::pass::{WordPass, WordQueue};
use crate::plays::MakePass;
use crate::words::{FIN, POSITIONS, STATUSES_A_WORD, TAIL, XID};
use atomic_table::Table;
use pgn_base::{CELL_BYTES, FIRST_XID, PAGE_BYTES, SessionNo, Xid};
use pgn_hub::{SeatSetup, Setup};
use pgn_layout::Pos;
use std::alloc::{AllocError, Global};

// How many notifications all sessions may send.
fn notes_of_all(seats: &[SeatSetup]) -> usize
    requires { notes_of_seats seats.now ≤ HUB_NOTES_MAX }
    ensures { result ≡ notes_of_seats seats.now }
{
    let mut all = 0;
    for seat in seats {
        all += seat.notes as usize;
    }
    all
}

// Where the statuses begin among the words.
fn first_status_word(setup: &Setup) -> usize
    ensures { result ≡ statuses_at setup.now }
{
    let flags = setup.flags() as usize;
    let seats = setup.seats();
    POSITIONS + seats.len() + seats.len() + seats.len() + flags
}

// How many status words there are.
fn status_word_count(setup: &Setup) -> usize
    ensures { result ≡ status_words setup.now }
{
    let all = notes_of_all(setup.seats());
    let needed = (all + (STATUSES_A_WORD - 1)) / STATUSES_A_WORD;
    needed.max(1)
}

// How many words the cells have.
fn cell_count(setup: &Setup) -> usize
    ensures value { result ≡ room_of setup.now }
    ensures is_shape { IsShape setup.now }
{
    let most = setup.pages() as usize + 1;
    let needed = 2 * notes_of_all(setup.seats()) + 2;
    most.min(needed) * (PAGE_BYTES / CELL_BYTES)
}

// The words of an empty queue.
fn first_words(alloc: Global, setup: &Setup, first_cell: usize) -> Result<Vec<u64>, AllocError>
    requires { first_cell ≡ cells_at setup.now }
    ensures { IfOk result (λ words. words.items ≡ row (first_content setup.now)) }
{
    let mut words = Vec::from_elem(alloc, 0u64, first_cell + cell_count(setup))?;
    words[FIN] = u64::from(FIRST_XID);
    words[TAIL] = u64::from(FIRST_XID) << 32;
    words[XID] = u64::from(FIRST_XID);
    Ok(words)
}

impl WordQueue {
    // The queue with its first pass.
    fn with_first(alloc: Global, setup: &Setup) -> Result<(WordQueue, WordPass), AllocError>
        ensures shape { IfOk result (λ made. shape_of made.0 ≡ setup.now) }
        ensures own { IfOk result (λ made. IsPassOf made.0 made.1) }
        ensures view { IfOk result (λ made. view_of made.1 ≡ first_view setup.now) }
    {
        let seat_count = setup.seats().len();
        let wakes_at = POSITIONS + seat_count;
        let interests_at = wakes_at + seat_count;
        let flags_at = interests_at + seat_count;
        let statuses_at = first_status_word(setup);
        let cells_at = statuses_at + status_word_count(setup);
        let room = cell_count(setup);
        let words = first_words(alloc, setup, cells_at)?;
        let seats = setup.seats();
        let first = seats[0];
        let _db = first.db.get();
        let (table, seat) = Table::of_words(alloc, words.as_slice(), setup)?;
        let queue = WordQueue {
            table,
            wakes_at,
            interests_at,
            flags_at,
            statuses_at,
            cells_at,
            room: room as u64,
            end: cells_at + room,
        };
        let pass = WordPass {
            seat,
            session: SessionNo::new(1),
            db: first.db,
            mark: None,
            told: Xid::new(FIRST_XID),
            notes_left: first.notes,
            ended: None,
            base: Xid::new(FIRST_XID),
            at: Pos::new(0),
            owes: false,
        };
        Ok((queue, pass))
    }

    // Makes the next pass, which is that of this session.
    fn make_pass(&self, first: &mut WordPass, session: SessionNo, seat: SeatSetup) -> WordPass
        requires own { IsPassOf self.now first.old }
        requires makes { 0 < (view_of first.old).made }
        requires next { session ≡ (view_of first.old).made + 1 }
        requires seated { session ≤ length (shape_of self.now).seats }
        requires seat { seat ≡ seat_of (shape_of self.now) session }
        ensures own { IsPassOf self.now first.new }
        ensures view { view_of first.new ≡ after_making (view_of first.old) }
        ensures made_own { IsPassOf self.now result }
        ensures made_view { view_of result ≡ made_by (view_of first.old) }
    {
        let _db = seat.db.get();
        let made = self.table.shared.split_seat::<MakePass>(&mut first.seat);
        WordPass {
            seat: made,
            session,
            db: seat.db,
            mark: None,
            told: Xid::new(FIRST_XID),
            notes_left: seat.notes,
            ended: None,
            base: Xid::new(FIRST_XID),
            at: Pos::new(0),
            owes: false,
        }
    }

    /// The words of an empty queue, and a pass for each seat, in order. The error is that memory did not suffice.
    pub fn open(alloc: Global, setup: &Setup) -> Result<(WordQueue, Vec<WordPass>), AllocError>
        ensures shape { IfOk result (λ opened. shape_of opened.0 ≡ setup.now) }
        ensures passes { IfOk result (λ opened. map known_of opened.1.items
            ≡ opened_passes 1 setup.now.seats) }
        ensures own { IfOk result (λ opened. All (IsPassOf opened.0) opened.1.items) }
        ensures free { IfOk result (λ opened. All IsFresh opened.1.items) }
    {
        let (queue, mut first) = WordQueue::with_first(alloc, setup)?;
        let seats = setup.seats();
        let mut passes = Vec::with_capacity(alloc, seats.len())?;
        for k in 1..seats.len() {
            let session = SessionNo::new(k as u32 + 1);
            passes.push(queue.make_pass(&mut first, session, seats[k]))?;
        }
        passes.insert(0, first)?;
        Ok((queue, passes))
    }
}
