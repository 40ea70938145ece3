//! Where each word stands.

/// 0, or the number of the session that has the lock.
pub(crate) const LOCK: usize = 0;

/// The place after the last written cell.
pub(crate) const HEAD: usize = 1;

/// The first unfinished transaction number.
pub(crate) const FIN: usize = 2;

/// The announced tail: a mark, and below it the place in 32 bits.
pub(crate) const TAIL: usize = 3;

/// The oldest kept page.
pub(crate) const STOP: usize = 4;

/// The next transaction number.
pub(crate) const XID: usize = 5;

/// Where the positions begin, a word for each seat. Before them stand the words of which there is one each.
pub(crate) const POSITIONS: usize = 6;

/// The statuses of so many transactions stand in one word.
pub(crate) const STATUSES_A_WORD: usize = 32;
