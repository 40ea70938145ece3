ghost use Rattle.std.specs.Prelude.{◌≡◌, ◌≤◌, sum_by, vec_len};
ghost use Rattle.pgn_base.specs.declared.limits.TheConstants.{HUB_FLAGS_MAX, HUB_NOTES_MAX, PAGES_MAX, PAGES_MIN, SECTIONS_MAX};

use pgn_base::{DbOid, Format, Seq};
use std::marker::Model;

/// What a queue keeps for a session: its database, and how many notifications it may still send.
#[derive(Clone, Copy)]
pub struct SeatSetup {
    pub db: DbOid,
    pub notes: u32,
}

pub type Seats = Seq<SeatSetup>;

/// What a queue is opened for: its limit in pages, how many flags there are, a seat for each session, in order, and the format of
/// its entries. Contracts see it as a `Shape`.
#[derive(Drop)]
pub struct Setup {
    pages: u32,
    flags: u32,
    seats: Seats,
    format: Format,
}

impl Model for Setup {
    ghost use Rattle.pgn_hub.specs.Shape.{Shape, IsShape};

    ghost Value = { Shape };

    ghost view = { λ s. record { pages = s.pages; flags = s.flags; seats = s.seats; format = s.format } };

    ghost invariant = { λ s. IsShape (record { pages = s.pages; flags = s.flags; seats = s.seats; format = s.format }) };
}

impl Setup {
    ghost use Rattle.pgn_hub.specs.Shape.{IsShape};

    /// Pages are 2 to 1,024, flags at most 512, seats 1 to 256, and their notifications together at most 1,048,575.
    pub fn new(pages: u32, flags: u32, seats: Vec<SeatSetup>, format: Format) -> Setup
        requires some_pages { PAGES_MIN ≤ pages }
        requires few_pages { pages ≤ PAGES_MAX }
        requires few_flags { flags ≤ HUB_FLAGS_MAX }
        requires some_seats { 1 ≤ vec_len seats }
        requires few_seats { vec_len seats ≤ SECTIONS_MAX }
        requires few_notes { sum_by (λ seat. seat.notes) seats.items ≤ HUB_NOTES_MAX }
        ensures { result ≡ record {
          pages = pages;
          flags = flags;
          seats = seats.items;
          format = format;
        } }
    {
        Setup {
            pages,
            flags,
            seats: Seats::from_items(seats),
            format,
        }
    }

    /// The limit of the queue, in pages.
    pub fn pages(&self) -> u32
        ensures value { result ≡ self.now.pages }
        ensures is_shape { IsShape self.now }
    {
        self.pages
    }

    /// How many flags there are.
    pub fn flags(&self) -> u32
        ensures value { result ≡ self.now.flags }
        ensures is_shape { IsShape self.now }
    {
        self.flags
    }

    /// The seats, in order of their sessions.
    pub fn seats(&self) -> &[SeatSetup]
        ensures value { result.now ≡ self.now.seats }
        ensures is_shape { IsShape self.now }
    {
        self.seats.as_slice()
    }

    /// The format of the queue's entries.
    pub fn format(&self) -> Format
        ensures { result ≡ self.now.format }
    {
        self.format
    }
}
