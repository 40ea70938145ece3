ghost use Rattle.std.specs.Prelude.{◌≡◌, ◌↔◌, ◌+◌, ◌^◌, ◌<◌, ◌≤◌, true, length, All, IfOk, option_copied, slice_get, Some, ◌==◌, ◌&&◌};
ghost use Rattle.pgn_journal.specs.Journal.{IsFinished, entry, next_xid, xids_of};
ghost use Rattle.pgn_journal.specs.Packing.{page_of, place};
ghost use Rattle.pgn_journal.specs.QueueUse.{NoPage, ShowsUsage};
ghost use Rattle.pgn_ledger.specs.Places.{notes_in};
ghost use Rattle.pgn_ledger.specs.QueueUse.{IsLedger, has_no_page, is_cut_short};

use crate::packing::page_of;
use crate::places::places_of;
use crate::queue_use::{is_cut_short, is_held};
use crate::turns::{Turns, turns_of};
use pgn_base::{CLEANUP_DELAY_PAGES, FIRST_XID, Format, Full, Seed, SessionNo, Usage, Xid};
use pgn_due::Feed;
use pgn_journal::Tx;
use std::alloc::{AllocError, Global};

/// A journal to which questions are put.
pub struct Ledger<'a> {
    pub format: Format,
    pub journal: &'a [Tx],
    /// What the journal sent.
    pub feed: Feed<'a>,
    places: Vec<u64>,
    turns: Turns,
    ghost known: { IsLedger format journal.now places.items turns.ranks.items turns.counts.items },
    ghost fed: { feed.sends.journal.now ≡ journal.now },
}

// Written out, so that this crate proves it once for all that drop one.
impl<'a> Drop for Ledger<'a> {
    fn drop(self) {
        let Ledger {
            format: _,
            journal: _,
            feed: _,
            places: _,
            turns: _,
        } = self;
    }
}

impl<'a> Ledger<'a> {
    /// Of a journal whose transactions are finished. Hashes are made with this seed.
    pub fn new(
        alloc: Global,
        seed: Seed,
        format: Format,
        journal: &'a [Tx],
    ) -> Result<Ledger<'a>, AllocError>
        requires finished { All IsFinished journal.now }
        requires few { next_xid journal.now < 2 ^ 32 }
        requires few_notes { notes_in journal.now < 2 ^ 40 }
        ensures format { IfOk result (λ ledger. ledger.format ≡ format) }
        ensures journal { IfOk result (λ ledger. ledger.journal.now ≡ journal.now) }
    {
        let places = places_of(alloc, format, journal)?;
        let turns = turns_of(alloc, journal)?;
        let feed = Feed::new(alloc, seed, journal)?;
        Ok(Ledger {
            format,
            journal,
            feed,
            places,
            turns,
        })
    }

    /// The number that the next transaction would draw.
    pub fn next_xid(&self) -> u32
        ensures { result ≡ next_xid self.now.journal.now }
    {
        FIRST_XID + self.journal.len() as u32
    }

    /// The transaction with a number.
    pub fn entry(&self, xid: Xid) -> Option<&Tx>
        ensures { option_copied result ≡ entry self.now.journal.now xid }
    {
        self.journal.get((xid.get() - FIRST_XID) as usize)
    }

    // The page where the transaction with a number begins.
    fn page(&self, x: u32) -> u64
        requires { FIRST_XID ≤ x }
        ensures value { result ≡ page_of (place self.now.format self.now.journal.now x) }
        ensures within { result < 2 ^ 60 }
    {
        page_of(self.place(x))
    }

    // The place where it begins; past the journal's end it is the end.
    fn place(&self, x: u32) -> u64
        requires { FIRST_XID ≤ x }
        ensures value { result ≡ place self.now.format self.now.journal.now x }
        ensures within { result < 2 ^ 53 }
    {
        let at = (x - FIRST_XID) as usize;
        self.places[at.min(self.journal.len())]
    }

    /// It is right that the queue was full, where it may have so many pages.
    pub fn was_full(&self, limit: u32, full: &Full) -> bool
        ensures { (result ≡ true) ↔ NoPage self.now.format limit self.now.journal.now full.now }
    {
        let at = (full.xid.get() - FIRST_XID) as usize;
        if at >= self.journal.len() {
            return false;
        }
        self.was_full_at(limit, full, &self.journal[at])
    }

    // The transaction was cut short there, and there was no page.
    fn was_full_at(&self, limit: u32, full: &Full, tx: &Tx) -> bool
        requires within { full.now.xid + 1 < 2 ^ 32 }
        requires few { length tx.now.notes < 2 ^ 40 }
        ensures { result ≡
            (is_cut_short self.now.format
            (place self.now.format self.now.journal.now full.now.xid) full.now.queued tx.now
            && has_no_page self.now.format limit self.now.journal.now full.now) }
    {
        is_cut_short(self.format, self.place(full.xid.get()), full.queued, tx)
            && self.has_no_page(limit, full)
    }

    // The pages are those of the floor and of the head, and there is no page left between them.
    fn has_no_page(&self, limit: u32, full: &Full) -> bool
        requires { full.now.xid + 1 < 2 ^ 32 }
        ensures { result ≡ has_no_page self.now.format limit self.now.journal.now full.now }
    {
        full.floor_mark <= full.xid
            && full.floor_page == self.page(full.floor_mark.get())
            && full.head_page == self.page(full.xid.get() + 1)
            && full.floor_page + u64::from(limit) <= full.head_page
            && is_held(full.holder, full.floor_mark, full.xid)
    }

    /// What a usage shows is right, where the queue may have so many pages.
    pub fn shows_usage(&self, limit: u32, usage: &Usage) -> bool
        ensures { (result ≡ true) ↔
            ShowsUsage self.now.format limit self.now.journal.now usage.now }
    {
        usage.limit == limit
            && usage.at.get() <= self.next_xid()
            && usage.floor_mark <= usage.at
            && self.fills(usage)
            && is_held(usage.holder, usage.floor_mark, usage.at)
    }

    // So many pages lie from the floor's up to the one that is shown.
    fn fills(&self, usage: &Usage) -> bool
        ensures { result ≡ (page_of (place self.now.format self.now.journal.now usage.now.floor_mark) + usage.now.occupied == page_of (place self.now.format self.now.journal.now usage.now.at)) }
    {
        let first = self.page(usage.floor_mark.get());
        let end = self.page(usage.at.get());
        first <= end && end - first == usage.occupied
    }

    /// Less than four pages lie between two numbers.
    pub fn is_close(&self, mark: &Xid, x: u32) -> bool
        requires { FIRST_XID ≤ x }
        ensures { (result ≡ true) ↔
            (page_of (place self.now.format self.now.journal.now x)
            < page_of (place self.now.format self.now.journal.now mark.now) + CLEANUP_DELAY_PAGES) }
    {
        self.page(x) < self.page(mark.get()) + CLEANUP_DELAY_PAGES
    }

    /// The transaction with this number is the session's next after so many.
    pub fn is_next_of(&self, session: SessionNo, count: usize, xid: Xid) -> bool
        ensures { (result ≡ true) ↔
            (slice_get (xids_of session self.now.journal.now) count ≡ Some xid) }
    {
        let at = (xid.get() - FIRST_XID) as usize;
        if at >= self.journal.len() {
            return false;
        }
        is_turn(&self.journal[at], session, self.turns.ranks[at], count)
    }

    /// How many transactions are the session's.
    pub fn count_of(&self, session: SessionNo) -> usize
        ensures { result ≡ length (xids_of session self.now.journal.now) }
    {
        self.turns.counts[session.get() as usize] as usize
    }
}

// A transaction is the session's, and so many of it stand before.
fn is_turn(tx: &Tx, session: SessionNo, rank: u32, count: usize) -> bool
    ensures { result ≡ (tx.now.session == session && rank == count) }
{
    tx.session == session && rank as usize == count
}
