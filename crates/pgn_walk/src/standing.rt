ghost use Rattle.std.specs.Prelude.{◌≡◌, ◌↔◌, ◌&&◌, true, is_some};
ghost use Rattle.pgn_reading.specs.Completed.{ready};
ghost use Rattle.pgn_language.specs.declared.scenario.Section.{Section};
ghost use Rattle.pgn_model.specs.Walk.{is_empty_set, start};
ghost use Rattle.pgn_walk.specs.Standing.{Holds, Leads, behind, has_no_rows};

use indexmap::IndexMap;
use pgn_base::{DbOid, FIRST_XID, Seed, Xid};
use pgn_block::Block;
use pgn_due::{Feed, Watch};
use pgn_ledger::ToShow;
use pgn_listening::ListenSet;
use std::alloc::Global;
use std::mem;

/// Where a session stands in the walk over its trace.
pub struct Standing<'a> {
    /// How many script lines have begun.
    pub next: usize,
    pub owed: ToShow,
    pub block: Block,
    pub set: ListenSet,
    pub mark: Option<Xid>,
    /// Every transaction below this number is known to be finished.
    pub told: Xid,
    /// The greatest base, point or end of a read so far, or 0.
    pub greatest: u32,
    /// Each flag that was raised or found, with the greatest number that it showed.
    pub known: IndexMap<u32, u32, Seed>,
    /// What is due next, from the mark on.
    pub watch: Watch<'a>,
}

// Written out, so that this crate proves it once for all that drop one.
impl<'a> Drop for Standing<'a> {
    fn drop(self) {
        let Standing {
            next: _,
            owed: _,
            block: _,
            set: _,
            mark: _,
            told: _,
            greatest: _,
            known: _,
            watch: _,
        } = self;
    }
}

impl<'a> Standing<'a> {
    /// Before the first item, in this database. Hashes are made with the seed of what the journal sent.
    pub fn new(alloc: Global, feed: &'a Feed<'a>, db: DbOid) -> Standing<'a>
        ensures { (section : Section) → section.db ≡ db
            → Holds section feed.now.sends.journal.now result (start section) }
    {
        let seed = feed.seed();
        Standing {
            next: 0,
            owed: ToShow::Nothing,
            block: Block::new(alloc, seed),
            set: ListenSet::new(alloc, seed),
            mark: None,
            told: Xid::new(FIRST_XID),
            greatest: 0,
            known: IndexMap::with_hasher(alloc, seed),
            watch: Watch::new(alloc, feed, db),
        }
    }

    /// Takes in the rows of no channel, where they come next.
    pub fn ready(&mut self)
        ensures { Leads self.old self.new ready }
    {
        if self.has_no_rows() {
            self.go_on();
        }
    }

    // The rows of no channel come next.
    fn has_no_rows(&self) -> bool
        ensures { result ≡ has_no_rows self.now.owed }
    {
        match &self.owed {
            ToShow::Listing { names, .. } => names.as_slice().is_empty(),
            _ => false,
        }
    }

    /// What is owed was shown, rows or that a listener leaves: what comes behind it is to be shown.
    pub(crate) fn go_on(&mut self)
        ensures { self.new ≡ record self.old { owed = behind self.old.owed } }
    {
        match mem::replace(&mut self.owed, ToShow::Nothing) {
            ToShow::Listing { names, ending } => {
                drop(names);
                self.owed.set(ToShow::Answering { ending });
            }
            ToShow::Measuring { ending } => self.owed.set(ToShow::Answering { ending }),
            ToShow::Leaving { ending } => self.owed.set(ToShow::Answering { ending }),
            ToShow::Quitting => {}
            owed => self.owed.set(owed),
        }
    }

    /// Nothing is left to show.
    pub fn has_answered(&self) -> bool
        ensures { (result ≡ true) ↔ (self.now.owed ≡ ToShow.Nothing) }
    {
        matches!(self.owed, ToShow::Nothing)
    }

    /// The session is a listener whose set is empty.
    pub fn is_to_leave(&self) -> bool
        ensures { result ≡ (is_some self.now.mark && is_empty_set self.now.set.channels) }
    {
        self.mark.is_some() && self.set.is_empty()
    }
}
