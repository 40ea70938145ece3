use crate::{Copied, Name, Note, Which};
use std::alloc::{AllocError, Global};

/// What a line of SQL asks for. `Invalid` is a line past a limit of pg_notify or NOTIFY, and `Bad` a line that is no command,
/// with the byte, counted from 0, where it goes wrong.
#[derive(Drop)]
pub enum Command {
    Empty,
    Begin,
    Start,
    Commit,
    Rollback,
    Savepoint(Name),
    RollbackTo(Name),
    Release(Name),
    Listen(Name),
    Unlisten(Name),
    UnlistenAll,
    Notify(Note),
    PgNotify(Note),
    ListeningChannels,
    QueueUsage,
    Invalid { which: Which },
    Bad { at: u32 },
}

impl Copied for Command {
    fn copy(&self, alloc: Global) -> Result<Self, AllocError> {
        match self {
            Command::Empty => Ok(Command::Empty),
            Command::Begin => Ok(Command::Begin),
            Command::Start => Ok(Command::Start),
            Command::Commit => Ok(Command::Commit),
            Command::Rollback => Ok(Command::Rollback),
            Command::Savepoint(name) => {
                let name = name.copy(alloc)?;
                Ok(Command::Savepoint(name))
            }
            Command::RollbackTo(name) => {
                let name = name.copy(alloc)?;
                Ok(Command::RollbackTo(name))
            }
            Command::Release(name) => {
                let name = name.copy(alloc)?;
                Ok(Command::Release(name))
            }
            Command::Listen(name) => {
                let name = name.copy(alloc)?;
                Ok(Command::Listen(name))
            }
            Command::Unlisten(name) => {
                let name = name.copy(alloc)?;
                Ok(Command::Unlisten(name))
            }
            Command::UnlistenAll => Ok(Command::UnlistenAll),
            Command::Notify(note) => {
                let note = note.copy(alloc)?;
                Ok(Command::Notify(note))
            }
            Command::PgNotify(note) => {
                let note = note.copy(alloc)?;
                Ok(Command::PgNotify(note))
            }
            Command::ListeningChannels => Ok(Command::ListeningChannels),
            Command::QueueUsage => Ok(Command::QueueUsage),
            Command::Invalid { which } => Ok(Command::Invalid { which: *which }),
            Command::Bad { at } => Ok(Command::Bad { at: *at }),
        }
    }
}
