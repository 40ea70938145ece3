use pgn_base::{Copied, Deliveries, Full, Names, Notes, Refusal, Seq, Tag, Usage, Warning, Xid};
use std::alloc::{AllocError, Global};

/// What a session's trace shows: a line of its script, a step of its commit, an answer, a flag, or a read.
pub enum Item {
    /// A line of the script begins, by its number in the input.
    Line { line: u32 },
    /// The session became a listener: its base, and the point from which on it is delivered to.
    Enlist { base: Xid, point: Xid },
    /// A transaction committed.
    Publish { xid: Xid, notes: Notes },
    /// A transaction met a full queue and was rolled back.
    QueueFull { full: Full, notes: Notes },
    /// The session stopped being a listener.
    Leave,
    Reply { tag: Tag, warning: Option<Warning> },
    Refuse { refusal: Refusal },
    /// The rows of pg_listening_channels().
    Channels { names: Names },
    /// The row of pg_notification_queue_usage().
    Used { usage: Usage },
    /// A flag was raised with this number.
    Raise { value: Xid },
    /// An awaited flag was found with this number.
    Found { value: Xid },
    /// An awaited flag was not found in this many looks, made or slept over.
    TimedOut { looks: u64 },
    /// The mark moved from `from` to `to`, and these notifications were received.
    Read { from: Xid, to: Xid, got: Deliveries },
}

// Written out, so that this crate proves it once for all that drop one.
impl Drop for Item {
    #[inline(always)]
    fn drop(self) {
        match self {
            Item::Publish { xid: _, notes } => drop(notes),
            Item::QueueFull { full: _, notes } => drop(notes),
            Item::Refuse { refusal } => drop(refusal),
            Item::Channels { names } => drop(names),
            Item::Read {
                from: _,
                to: _,
                got,
            } => drop(got),
            Item::Line { line: _ }
            | Item::Enlist { base: _, point: _ }
            | Item::Leave
            | Item::Reply { tag: _, warning: _ }
            | Item::Used { usage: _ }
            | Item::Raise { value: _ }
            | Item::Found { value: _ }
            | Item::TimedOut { looks: _ } => {}
        }
    }
}

pub type Items = Seq<Item>;

impl Copied for Item {
    fn copy(&self, alloc: Global) -> Result<Self, AllocError> {
        match self {
            Item::Line { line } => Ok(Item::Line { line: *line }),
            Item::Enlist { base, point } => Ok(Item::Enlist {
                base: *base,
                point: *point,
            }),
            Item::Publish { xid, notes } => {
                let notes = notes.copy(alloc)?;
                Ok(Item::Publish { xid: *xid, notes })
            }
            Item::QueueFull { full, notes } => {
                let notes = notes.copy(alloc)?;
                Ok(Item::QueueFull { full: *full, notes })
            }
            Item::Leave => Ok(Item::Leave),
            Item::Reply { tag, warning } => Ok(Item::Reply {
                tag: *tag,
                warning: *warning,
            }),
            Item::Refuse { refusal } => {
                let refusal = refusal.copy(alloc)?;
                Ok(Item::Refuse { refusal })
            }
            Item::Channels { names } => {
                let names = names.copy(alloc)?;
                Ok(Item::Channels { names })
            }
            Item::Used { usage } => Ok(Item::Used { usage: *usage }),
            Item::Raise { value } => Ok(Item::Raise { value: *value }),
            Item::Found { value } => Ok(Item::Found { value: *value }),
            Item::TimedOut { looks } => Ok(Item::TimedOut { looks: *looks }),
            Item::Read { from, to, got } => {
                let got = got.copy(alloc)?;
                Ok(Item::Read {
                    from: *from,
                    to: *to,
                    got,
                })
            }
        }
    }
}
