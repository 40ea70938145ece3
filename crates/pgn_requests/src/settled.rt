use crate::{Setting, ShortText};

/// What a client asks that is settled without the session: it is told at once, by the block's state and the client's settings.
#[derive(Drop)]
pub enum Settled {
    /// `SET`: the setting gets this value; where it comes of the client's start-up, it is also what RESET gives.
    Sets {
        setting: Setting,
        value: ShortText,
        starts: bool,
    },
    /// `SET .. TO DEFAULT`: the setting gets the value that it had at the start.
    SetsBack {
        setting: Setting,
    },
    /// `RESET`: the same, under its own tag.
    Resets {
        setting: Setting,
    },
    /// `RESET ALL`.
    ResetsAll,
    /// `SHOW`.
    Shows {
        setting: Setting,
    },
    /// `DEALLOCATE ALL`.
    Deallocates,
    /// `CLOSE ALL`.
    Closes,
    /// `SELECT 1`.
    One,
    /// `SELECT version()`.
    Version,
    /// `SELECT pg_backend_pid()`.
    Process,
}
