ghost use Rattle.std.specs.Prelude.{◌≡◌, [], ◌∷◌, IfOk, OnOk, Some};
ghost use Rattle.pgn_form.specs.Drafts.{begun, ended, first_draft, noted, paged, received, rowed, tagged, with_entry, with_item};
ghost use Rattle.pgn_reading.specs.Form.{database_of};
ghost use Rattle.pgn_form.specs.declared.draft.Part.TheVariants.{Nothing};

use pgn_base::{
    DbOid, Deliveries, Delivery, Name, Names, Note, Notes, Seq, SessionNo, Tag, Usage, Warning, Xid,
};
use pgn_journal::{Fate, Tx};
use pgn_language::Section;
use pgn_model::{Item, Items, Trace};
use std::alloc::{AllocError, Global};
use std::mem;

/// What has been read of an output: transactions and traces that are whole, items of the next trace that are whole, and what has
/// begun and may go on.
#[derive(Drop)]
pub struct Draft {
    pub journal: Seq<Tx>,
    pub traces: Seq<Trace>,
    pub items: Items,
    pub part: Part,
}

/// What has begun and is not whole, or may go on.
#[derive(Drop)]
pub enum Part {
    Nothing,
    /// A transaction with notifications, of which these were read.
    Entry {
        session: SessionNo,
        queued: u32,
        fate: Fate,
        notes: Notes,
    },
    /// Rows of channels.
    Rows {
        names: Names,
    },
    /// A warning, whose tag follows.
    Warned {
        warning: Warning,
    },
    /// Where a usage was measured: its pages follow.
    Measured {
        at: Xid,
        floor_mark: Xid,
        holder: Option<SessionNo>,
    },
    /// A read with the notifications that it received.
    Reads {
        from: Xid,
        to: Xid,
        got: Deliveries,
    },
}

/// What the first line of a transaction tells of it.
#[derive(Clone, Copy)]
pub struct Head {
    pub session: SessionNo,
    pub queued: u32,
    pub fate: Fate,
}

impl Draft {
    /// Before the first line.
    pub fn new(alloc: Global) -> Draft
        ensures { result ≡ first_draft }
    {
        Draft {
            journal: Seq::new(alloc),
            traces: Seq::new(alloc),
            items: Seq::new(alloc),
            part: Part::Nothing,
        }
    }

    /// What has begun is whole, if it is an item.
    pub fn close(&mut self) -> Result<(), AllocError>
        ensures { OnOk result (self.new ≡ begun self.old Nothing) }
    {
        if let Part::Nothing = &self.part {
            return Ok(());
        }
        match mem::replace(&mut self.part, Part::Nothing) {
            Part::Rows { names } => self.items.push(Item::Channels { names }),
            Part::Reads { from, to, got } => self.items.push(Item::Read { from, to, got }),
            other => {
                drop(other);
                Ok(())
            }
        }
    }

    /// Something begins.
    pub fn begin(&mut self, part: Part) -> Result<(), AllocError>
        ensures { OnOk result (self.new ≡ begun self.old part) }
    {
        match self.close() {
            Ok(()) => {
                self.set(part);
                Ok(())
            }
            // By a call, where there are two ways out.
            Err(AllocError) => {
                drop(part);
                Err(AllocError)
            }
        }
    }

    // This has begun in place of what had.
    fn set(&mut self, part: Part)
        ensures { self.new ≡ record self.old { part = part } }
    {
        drop(mem::replace(&mut self.part, part));
    }

    /// An item stands in one line.
    pub fn push(&mut self, item: Item) -> Result<(), AllocError>
        ensures { OnOk result (self.new ≡ with_item self.old item) }
    {
        match self.close() {
            Ok(()) => self.items.push(item),
            Err(AllocError) => {
                drop(item);
                Err(AllocError)
            }
        }
    }

    /// The row of a channel: rows one after another are one item.
    pub fn row(&mut self, alloc: Global, name: Name) -> Result<(), AllocError>
        ensures { OnOk result (self.new ≡ rowed self.old self.old.part name) }
    {
        if let Part::Rows { names } = &mut self.part {
            return names.push(name);
        }
        let names = one_name(alloc, name)?;
        self.begin(Part::Rows { names })
    }

    /// A tag, with the warning before it.
    pub fn tag(&mut self, tag: Tag) -> Result<(), AllocError>
        ensures { OnOk result (self.new ≡ tagged self.old self.old.part tag) }
    {
        let warning = match &self.part {
            Part::Warned { warning } => Some(*warning),
            _ => None,
        };
        self.push(Item::Reply { tag, warning })
    }

    /// The pages of a usage.
    pub fn pages(&mut self, occupied: u64, limit: u32) -> Result<(), AllocError>
        ensures { OnOk result (self.new ≡ paged self.old self.old.part occupied limit) }
    {
        if let Part::Measured {
            at,
            floor_mark,
            holder,
        } = &self.part
        {
            let usage = Usage {
                at: *at,
                occupied,
                limit,
                floor_mark: *floor_mark,
                holder: *holder,
            };
            return self.push(Item::Used { usage });
        }
        Ok(())
    }

    /// A notification that was received.
    pub fn receive(&mut self, delivery: Delivery) -> Result<(), AllocError>
        ensures { OnOk result (self.new ≡ received self.old self.old.part delivery) }
    {
        match &mut self.part {
            Part::Reads { got, .. } => got.push(delivery),
            _ => {
                drop(delivery);
                Ok(())
            }
        }
    }

    /// These notifications of a transaction were read, and so many are left.
    pub fn entry(
        &mut self,
        sections: &[Section],
        left: u32,
        head: &Head,
        notes: Notes,
    ) -> Result<(), AllocError>
        ensures { OnOk result (self.new ≡
            with_entry sections.now left head.now.session head.now.queued head.now.fate notes self.old) }
    {
        if left > 0 {
            self.set(Part::Entry {
                session: head.session,
                queued: head.queued,
                fate: head.fate,
                notes,
            });
            return Ok(());
        }
        self.set(Part::Nothing);
        let db = database_of(sections, head.session);
        self.journal.push(Tx {
            session: head.session,
            db,
            notes,
            queued: head.queued,
            fate: head.fate,
        })
    }

    /// One notification more of a transaction, and so many are left.
    pub fn note(&mut self, sections: &[Section], left: u32, note: Note) -> Result<(), AllocError>
        ensures { OnOk result (self.new ≡ noted sections.now left self.old self.old.part note) }
    {
        match mem::replace(&mut self.part, Part::Nothing) {
            Part::Entry {
                session,
                queued,
                fate,
                mut notes,
            } => match notes.push(note) {
                Ok(()) => {
                    let head = Head {
                        session,
                        queued,
                        fate,
                    };
                    self.entry(sections, left, &head, notes)
                }
                Err(AllocError) => {
                    drop(notes);
                    Err(AllocError)
                }
            },
            other => {
                drop(note);
                self.set(other);
                Ok(())
            }
        }
    }

    /// The section ends.
    pub fn end(
        &mut self,
        alloc: Global,
        section: &Section,
        mark: Option<Xid>,
    ) -> Result<(), AllocError>
        ensures { OnOk result (self.new ≡ ended self.old mark (Some section.now)) }
    {
        self.close()?;
        let items = mem::replace(&mut self.items, Seq::new(alloc));
        self.traces.push(Trace {
            session: section.no,
            db: section.db,
            items,
            last: mark,
        })
    }
}

// The names of one row.
fn one_name(alloc: Global, name: Name) -> Result<Names, AllocError>
    ensures { IfOk result (λ names. names ≡ name ∷ []) }
{
    let mut names = Seq::new(alloc);
    names.push(name)?;
    Ok(names)
}

// The database of the section with this number, or 1 where none has it.
fn database_of(sections: &[Section], session: SessionNo) -> DbOid
    ensures { result ≡ database_of sections.now session }
{
    for section in sections {
        if section.no == session {
            return section.db;
        }
    }
    DbOid::new(1)
}
