use crate::{SessionNo, Xid};

/// Why a transaction met a full queue: its number, how many of its notifications were written, the head's page, and the floor:
/// its mark, its page, and the session that holds it, if one does. Pages from the floor's on are still needed, and those below it
/// may be used again. Pages count from 0.
#[derive(Clone, Copy)]
pub struct Full {
    pub xid: Xid,
    pub queued: u32,
    pub head_page: u64,
    pub floor_mark: Xid,
    pub floor_page: u64,
    pub holder: Option<SessionNo>,
}

/// How much of the queue is in use at a transaction number: `occupied` pages of `limit`, from the floor's page up to the head's.
/// Pages from the floor's on are still needed, and those below it may be used again.
#[derive(Clone, Copy)]
pub struct Usage {
    pub at: Xid,
    pub occupied: u64,
    pub limit: u32,
    pub floor_mark: Xid,
    pub holder: Option<SessionNo>,
}

/// Where a listener began: its base, and the point from which on it is delivered to.
#[derive(Clone, Copy)]
pub struct Enlisted {
    pub base: Xid,
    pub point: Xid,
}
