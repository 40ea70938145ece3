ghost use Rattle.std.specs.Prelude.{◌≡◌};
ghost use Rattle.pgn_base.specs.Channels.{channel_of};

use crate::{Name, Seq};

/// What a transaction does to the listening set of its session.
pub enum Action {
    Listen(Name),
    Unlisten(Name),
    UnlistenAll,
}

// Written out, so that this crate proves it once for all that drop one.
impl Drop for Action {
    fn drop(self) {
        match self {
            Action::Listen(name) | Action::Unlisten(name) => drop(name),
            Action::UnlistenAll => {}
        }
    }
}

impl Action {
    /// The channel that is listened to or left, if it is one alone.
    pub fn into_channel(self) -> Option<Name>
        ensures { result ≡ channel_of self }
    {
        match self {
            Action::Listen(name) | Action::Unlisten(name) => Some(name),
            Action::UnlistenAll => None,
        }
    }
}

pub type Actions = Seq<Action>;
