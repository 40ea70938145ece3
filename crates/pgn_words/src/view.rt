use pgn_base::Note;
use pgn_hub::{Known, Setup};
use pgn_journal::Tx;
use std::collections::LinkedList;

/// What a pass is doing as a writer.
pub enum Phase {
    /// It does not hold the lock.
    Free,
    /// It holds the lock, and knows the whole journal.
    Held,
    /// It has loaded the head besides.
    Headed,
    /// It has loaded the oldest kept page besides.
    Ready,
    /// It has drawn a transaction number.
    Open,
    /// It has set the transaction's status.
    Finished,
    /// It has stored the next unfinished number, and wakes listeners.
    Signalling,
}

/// What a writer that signals has found out about a seat.
pub enum Verdict {
    /// It has not looked at it yet.
    Unseen,
    /// The seat's session needs a wake.
    Needed,
    /// It needs none, or its wake is set.
    Decided,
}

/// What a pass is as a listener.
pub enum Listen {
    /// It is none.
    Out,
    /// Its position says that it joins.
    Joining,
    /// It has loaded the announced tail besides.
    Based,
    /// Its position has its mark and the mark's place.
    Registered,
}

/// How far a listener has come on its way to a later mark.
pub enum Stage {
    /// It is on no way.
    Still,
    /// It has loaded the first unfinished number, which is to be its mark.
    Begun,
    /// It has loaded the head besides.
    Shown,
}

/// What a holder of the lock is doing as it advances the tail.
pub enum Look {
    /// Nothing.
    Idle,
    /// It looks at each position for the least mark.
    First,
    /// It has loaded the announced tail, and looks at each position for the first place that is still needed.
    Second,
}

/// What the holder of the lock knows of its transaction. No value of it is made.
pub struct Pen {
    /// The notifications of the transaction, and how many notifications it has taken from those that may still be sent.
    pub notes: LinkedList<Note>,
    pub taken: u64,
    /// What the head shows, one item for each cell from the first of page 0, and what was stored past the head.
    pub cells: LinkedList<Option<u64>>,
    pub batch: LinkedList<Option<u64>>,
    /// The transaction as it ended.
    pub ending: Tx,
}

/// Where a pass stands as a listener. No value of it is made.
pub struct Post {
    pub listen: Listen,
    /// Once it is based, its mark and the mark's place.
    pub mark: u64,
    pub at: u64,
}

/// A listener's way to a later mark. No value of it is made.
pub struct Walk {
    pub stage: Stage,
    /// The mark that it goes to.
    pub upto: u64,
    /// The journal that the loaded head shows, with what is written of an open transaction.
    pub shown: LinkedList<Tx>,
}

/// What the holder of the lock has seen of the positions. No value of it is made.
pub struct Eye {
    pub look: Look,
    /// How many seats this look has looked at.
    pub looked: u64,
    /// The least mark so far and its place, and the announced tail, each packed as in its word.
    pub least: u64,
    pub tail: u64,
    /// The first place that is still needed, as far as the second look has come.
    pub target: u64,
    /// The seat at which the second look has last found a session that joins, until it goes on from there.
    pub joins: Option<u64>,
}

/// What the rule of the words sees of a pass. No value of it is made.
pub struct View {
    pub known: Known,
    /// What the queue was opened for.
    pub setup: Setup,
    /// How many passes were made, in the pass that makes them; 0 in the others.
    pub made: u64,
    /// What is known of the passes that this one has taken in.
    pub joined: LinkedList<Known>,
    pub phase: Phase,
    /// The session that had the lock when it last tried to take it, if it was refused.
    pub held_by: Option<u64>,
    /// While it signals, the number after that of its transaction: what it is told once it gives the lock up.
    pub ended: Option<u64>,
    /// The oldest kept page.
    pub stop: u64,
    /// The same, as the pass loaded it when it last had the lock.
    pub loaded_stop: u64,
    pub pen: Pen,
    pub post: Post,
    pub walk: Walk,
    pub eye: Eye,
    /// While it signals, what it has found out about each seat.
    pub verdicts: LinkedList<Verdict>,
    /// While it signals, for each seat whether its transaction may concern the listener there. It may until an interest was loaded
    /// that has no bit in common with it.
    pub concerned: LinkedList<bool>,
}
