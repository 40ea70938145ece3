ghost use Rattle.std.specs.Prelude.{◌≡◌, ◌↔◌, ◌++◌, ◌+◌, ◌<◌, ◌≤◌, List, Some, true, length, map, slice_get, IfOk, OnOk};
ghost use Rattle.pgn_journal.specs.declared.tx.Tx.{Tx};
ghost use Rattle.pgn_due.specs.Sent.{AreStarts, sent_before, sent_by, sent_in, shown, shown_at};

use pgn_base::{Delivery, FIRST_XID, Note, PID_BASE};
use pgn_journal::{Fate, Tx};
use std::alloc::{AllocError, Global};

/// Where a notification stands in a journal: in which transaction, from 0, and which of its notifications it is.
#[derive(Clone, Copy)]
pub struct Spot {
    pub tx: usize,
    pub note: usize,
}

/// A notification that was sent: by which transaction, and what that is.
#[derive(Drop)]
pub struct Sent<'a> {
    pub xid: usize,
    pub tx: &'a Tx,
    pub note: &'a Note,
}

impl Sent<'_> {
    /// This is what a listener receives of it.
    pub fn is(&self, delivery: &Delivery) -> bool
        ensures { (result ≡ true) ↔ (delivery.now ≡ (shown self.now).1) }
    {
        delivery.xid.get() as usize == self.xid
            && delivery.pid == PID_BASE + self.tx.session.get()
            && delivery.note == *self.note
    }
}

/// What a journal sent, one after another, and how many before each of its transactions and before its end.
#[derive(Drop)]
pub struct Sends<'a> {
    pub journal: &'a [Tx],
    spots: Vec<Spot>,
    starts: Vec<usize>,
    ghost sent: { map (shown_at journal.now) spots.items ≡ map Some (sent_in journal.now) },
    ghost begun: { AreStarts journal.now starts.items },
}

impl<'a> Sends<'a> {
    /// Goes through a journal.
    pub fn new(alloc: Global, journal: &'a [Tx]) -> Result<Sends<'a>, AllocError>
        ensures { IfOk result (λ sends. sends.journal.now ≡ journal.now) }
    {
        let mut starts = Vec::with_capacity(alloc, journal.len())?;
        let mut spots = Vec::new(alloc);
        for tx in 0..journal.len() {
            starts.push(spots.len())?;
            send(&mut spots, tx, &journal[tx])?;
        }
        starts.push(spots.len())?;
        Ok(Sends {
            journal,
            spots,
            starts,
        })
    }

    /// How many were sent.
    pub fn len(&self) -> usize
        ensures { result ≡ length (sent_in self.now.journal.now) }
    {
        self.spots.len()
    }

    /// How many were sent by those numbered below a number.
    pub fn start(&self, x: u32) -> usize
        requires { FIRST_XID ≤ x }
        ensures { result ≡ sent_before self.now.journal.now x }
    {
        let at = (x - FIRST_XID) as usize;
        self.starts[at.min(self.journal.len())]
    }

    /// The one in a place.
    pub fn at(&self, at: usize) -> Sent<'_>
        requires { at < length (sent_in self.now.journal.now) }
        ensures { slice_get (sent_in self.now.journal.now) at ≡ Some (shown result) }
    {
        let Spot { tx: sender, note } = self.spots[at];
        let tx = &self.journal[sender];
        Sent {
            xid: FIRST_XID as usize + sender,
            tx,
            note: &tx.notes.as_slice()[note],
        }
    }

    /// Where it has its memory from.
    pub fn alloc(&self) -> Global {
        *self.spots.allocator()
    }
}

// What a transaction sent, in its place.
fn send(spots: &mut Vec<Spot>, at: usize, tx: &Tx) -> Result<(), AllocError>
    ensures { OnOk result ((journal : List Tx) → slice_get journal at ≡ Some tx.now → map (shown_at journal) spots.new.items ≡ map (shown_at journal) spots.old.items ++ map Some (sent_by (FIRST_XID + at) tx.now)) }
{
    if let Fate::Aborted = tx.fate {
        return Ok(());
    }
    for note in 0..tx.notes.as_slice().len() {
        spots.push(Spot { tx: at, note })?;
    }
    Ok(())
}
