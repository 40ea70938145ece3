//! What a session asks of the queue, as loops of steps on its words.
//!
//! `WordHub` is the hub that the program runs on. Its calls are loops of the steps of `pgn_words`: a writer holds one word while it
//! publishes, and readers, joiners and leavers wait for nobody. Each call says in terms of the journal alone what it does, as every
//! hub's does: `publish` appends this transaction, `scan` delivers what is due, a full queue is answered only where no page is left.
//!
//! Places count cells of four bytes from the first of page 0 on, a page has 2,048 of them, and the limit and the oldest kept page are
//! numbers of pages. Seats count from 0, and their sessions from 1. In `async.c` a commit is `PreCommit_Notify`, which writes by
//! `asyncQueueAddEntries` and asks `asyncQueueIsFull`; then come `SignalBackends` and once in a while `asyncQueueAdvanceTail`. A
//! session joins in `Exec_ListenPreCommit`, and reads in `asyncQueueReadAllNotifications`.
//!
//! Only `open` and `scan` take memory.
#![tactic(auto)]

mod bells;
mod floor;
mod hub;
mod joining;
mod locking;
mod looks;
mod parts;
mod placing;
mod reading;
mod serving;
mod wakes;
mod writing;

pub use hub::WordHub;
