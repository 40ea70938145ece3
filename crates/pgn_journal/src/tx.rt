use pgn_base::{DbOid, Notes, SessionNo};

/// How a finished transaction ended.
#[derive(Clone, Copy, PartialEq, Eq)]
pub enum Fate {
    Committed,
    Aborted,
}

/// A finished transaction that drew a number: who sent which notifications in which database, how many of them were queued, and
/// how it ended.
pub struct Tx {
    pub session: SessionNo,
    pub db: DbOid,
    pub notes: Notes,
    pub queued: u32,
    pub fate: Fate,
}

// Written out, so that this crate proves it once for all that drop one.
impl Drop for Tx {
    fn drop(self) {
        let Tx {
            session: _,
            db: _,
            notes: _,
            queued: _,
            fate: _,
        } = self;
    }
}
