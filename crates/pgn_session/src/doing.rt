ghost use Rattle.std.specs.Prelude.{◌≡◌};

use pgn_base::{Actions, Notes, Tag, Xid};
use std::mem;

/// Where the end flags of a scenario stand among its hub's flags: session i, of `sessions`, raises `first_end + i - 1` where its
/// script ends.
#[derive(Clone, Copy)]
pub struct FlagPlan {
    pub first_end: u32,
    pub sessions: u32,
}

/// Where a session stands in its script.
#[derive(Drop)]
pub enum Doing {
    /// Between two lines.
    Lines,
    /// The block has handed out this commit, and memory did not suffice for it so far. Its line is not recorded yet.
    Committing {
        actions: Actions,
        notes: Notes,
        tag: Tag,
    },
    /// The last line awaits this flag, and so many looks gave nothing, made or slept over.
    Awaiting {
        flag: u32,
        looks: u64,
    },
    /// The script is done. The end flags of the first `found` sessions were found, and so many looks gave nothing, made or slept over.
    Ending {
        found: u32,
        looks: u64,
    },
    /// The session has quit, or has waited long enough for the others.
    Over,
}

impl Doing {
    /// Puts another place in the place of this one.
    pub(crate) fn set(&mut self, now: Doing)
        ensures { self.new ≡ now }
    {
        drop(mem::replace(self, now));
    }
}

/// What a step came to.
#[derive(Clone, Copy, PartialEq, Eq)]
pub enum Step {
    /// A line of the script got its whole answer, or the script's end began.
    Did,
    /// A look at a flag gave nothing, and the session's patience is not spent.
    Waiting,
    /// The session is over.
    Ended,
}

/// What an idle session did.
#[derive(Clone, Copy)]
pub enum IdleDone {
    /// Nothing: a block is open.
    InBlock,
    /// Nothing: the session is no listener.
    NotListening,
    /// Nothing: it was not woken.
    Quiet,
    /// It was woken, and has read up to this number, and not this number.
    Read { to: Xid },
}
