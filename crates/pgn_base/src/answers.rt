use crate::{Copied, Name};
use std::alloc::{AllocError, Global};

/// The word that answers a command, as PostgreSQL's command tags. `Select` has the number of rows.
#[derive(Clone, Copy)]
pub enum Tag {
    Begin,
    Start,
    Commit,
    Rollback,
    Savepoint,
    Release,
    Listen,
    Unlisten,
    Notify,
    Select(u32),
}

/// What precedes a tag: 25001 "there is already a transaction in progress", or 25P01 "there is no transaction in progress".
#[derive(Clone, Copy)]
pub enum Warning {
    AlreadyInBlock,
    NotInBlock,
}

/// Which limit of pg_notify or NOTIFY a line goes past.
#[derive(Clone, Copy)]
pub enum Which {
    ChannelEmpty,
    ChannelTooLong,
    PayloadTooLong,
}

/// Which command can only be used in a transaction block.
#[derive(Clone, Copy)]
pub enum Needs {
    Savepoint,
    RollbackTo,
    Release,
}

/// Why a command is refused. `at` counts bytes of the line's text, from 0.
pub enum Refusal {
    Syntax { at: u32 },
    Bounds { which: Which },
    NeedsBlock { what: Needs },
    NoSavepoint { name: Name },
    Aborted,
    QueueFull,
}

// Written out, so that this crate proves it once for all that drop one.
impl Drop for Refusal {
    fn drop(self) {
        match self {
            Refusal::NoSavepoint { name } => drop(name),
            Refusal::Syntax { at: _ }
            | Refusal::Bounds { which: _ }
            | Refusal::NeedsBlock { what: _ }
            | Refusal::Aborted
            | Refusal::QueueFull => {}
        }
    }
}

impl Copied for Refusal {
    fn copy(&self, alloc: Global) -> Result<Self, AllocError> {
        match self {
            Refusal::Syntax { at } => Ok(Refusal::Syntax { at: *at }),
            Refusal::Bounds { which } => Ok(Refusal::Bounds { which: *which }),
            Refusal::NeedsBlock { what } => Ok(Refusal::NeedsBlock { what: *what }),
            Refusal::NoSavepoint { name } => {
                let name = name.copy(alloc)?;
                Ok(Refusal::NoSavepoint { name })
            }
            Refusal::Aborted => Ok(Refusal::Aborted),
            Refusal::QueueFull => Ok(Refusal::QueueFull),
        }
    }
}
