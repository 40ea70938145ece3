use crate::Items;
use pgn_base::{DbOid, SessionNo, Xid};

/// What one session was answered and received, in order. `last` is its mark at the end, where it is a listener then.
pub struct Trace {
    pub session: SessionNo,
    pub db: DbOid,
    pub items: Items,
    pub last: Option<Xid>,
}

// Written out, so that this crate proves it once for all that drop one.
impl Drop for Trace {
    fn drop(self) {
        let Trace {
            session: _,
            db: _,
            items: _,
            last: _,
        } = self;
    }
}
