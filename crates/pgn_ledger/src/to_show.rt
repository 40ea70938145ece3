ghost use Rattle.std.specs.Prelude.{◌≡◌};

use pgn_base::{Actions, Names, Notes, Refusal, Tag, Warning};
use std::mem;

/// How a line is answered.
#[derive(Drop)]
pub enum Ending {
    Replied { tag: Tag, warning: Option<Warning> },
    Refused { refusal: Refusal },
}

/// What the current line still has to show.
#[derive(Drop)]
pub enum ToShow {
    Nothing,
    /// The session becomes a listener, and then as `Queueing`.
    Enlisting {
        actions: Actions,
        notes: Notes,
        ending: Ending,
    },
    /// The notifications are published or meet a full queue, and then the actions take effect.
    Queueing {
        actions: Actions,
        notes: Notes,
        ending: Ending,
    },
    /// The session stops being a listener.
    Leaving {
        ending: Ending,
    },
    /// The answer.
    Answering {
        ending: Ending,
    },
    /// The rows of the channels, and then the answer.
    Listing {
        names: Names,
        ending: Ending,
    },
    /// The row of the queue's usage, and then the answer.
    Measuring {
        ending: Ending,
    },
    /// The flag is raised.
    Raising {
        flag: u32,
    },
    /// The flag is found, or the patience is spent.
    Awaiting {
        flag: u32,
    },
    /// A listener that quits stops being one.
    Quitting,
}

impl ToShow {
    /// This is to show from now on. What stood there is dropped by a call, so that no caller that has several ways out drops it.
    pub fn set(&mut self, now: ToShow)
        ensures { self.new ≡ now }
    {
        drop(mem::replace(self, now));
    }
}
