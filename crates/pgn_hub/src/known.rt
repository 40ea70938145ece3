use pgn_base::Name;
use pgn_journal::Tx;
use std::collections::LinkedList;

/// What contracts see of a pass. No value of it is made at run time.
pub struct Known {
    /// The session's number, and its database.
    pub session: u64,
    pub db: u64,
    /// As much of the journal as the pass knows.
    pub seen: LinkedList<Tx>,
    /// The numbers of the transactions that the pass published, in order, committed or not.
    pub own: LinkedList<u64>,
    /// Every base, point and end of a read, in order.
    pub marks: LinkedList<u64>,
    /// A listener has read everything below this number.
    pub mark: Option<u64>,
    /// The channels that a listener has told as its set; none before it has told any.
    pub set: LinkedList<Name>,
    /// Every transaction below this number is finished.
    pub told: u64,
    /// Every transaction below this number is finished, and its wakes have been set.
    pub signalled: u64,
    /// How many notifications the pass may still send.
    pub notes_left: u64,
    /// A wake was taken, a set was told or a flag told a listener of more, and no read has followed it.
    pub owes: bool,
    /// Each flag that the pass raised, and each that it found, with the number.
    pub raised: LinkedList<(u64, u64)>,
    pub found: LinkedList<(u64, u64)>,
    /// Each session, with its mark, that a look of an advance met as a listener.
    pub named: LinkedList<(u64, u64)>,
    /// How many looks at flags the pass has made; and the last one: the flag, and the number that it had, if it was raised.
    pub looks: u64,
    pub flag_look: Option<(u64, Option<u64>)>,
    /// The last advance of the tail. It is emptied as the pass takes the lock, and each time that it moves the head.
    pub advance: Advance,
    /// The last look at the pass's own wake: whether it was set, and whether a read was owed before.
    pub wake_look: Option<(bool, bool)>,
}

/// What an advance of the tail has loaded: the mark of each seat in the first look and in the second, in order, `None` where no
/// listener stood there, and the tail from which the second look began. Nothing is loaded yet where the lists are empty.
pub struct Advance {
    pub first: LinkedList<Option<u64>>,
    pub second: LinkedList<Option<u64>>,
    pub tail: Option<u64>,
}
