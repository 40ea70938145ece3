ghost use Rattle.std.specs.Prelude.{◌≡◌, ◌^◌, ◌<◌};
ghost use Rattle.pgn_journal.specs.Packing.{page_of};

use pgn_base::{CELL_BYTES, PAGE_BYTES};
use std::marker::Model;

/// The cells of a page.
pub const PAGE_CELLS: u64 = PAGE_BYTES as u64 / CELL_BYTES as u64;

/// A place in the queue: the number of a cell, counted from the first of page 0. Page p begins at 2048 * p.
#[derive(Clone, Copy, PartialEq, Eq)]
pub struct Pos {
    cell: u64,
}

impl Model for Pos {
    ghost use Rattle.std.specs.Prelude.{ℕ, ◌^◌, ◌<◌};

    ghost Value = { ℕ };

    ghost view = { λ pos. pos.cell };

    ghost invariant = { λ pos. pos.cell < 2 ^ 64 };

    ghost inverse = { λ n. record { cell = n } };
}

impl Pos {
    pub fn new(cell: u64) -> Self
        ensures { result ≡ cell }
    {
        Pos { cell }
    }

    pub fn get(&self) -> u64
        ensures value { result ≡ self.now }
        ensures within { self.now < 2 ^ 64 }
    {
        self.cell
    }

    /// The number of its page.
    pub fn page(&self) -> u64
        ensures { result ≡ page_of self.now }
    {
        self.cell / PAGE_CELLS
    }
}
