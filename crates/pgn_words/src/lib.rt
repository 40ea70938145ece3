//! The words that all sessions share, and the steps on them.
//!
//! `WordQueue` is one table of words that change in single atomic steps: who holds the lock, where the head is, which transaction
//! number is the first unfinished one, the cells. It has one call for each kind of step. A `WordPass` is a session's right to make
//! steps. What the rule sees of it is a `View`; each call says what it needs of the view, what the view is after it, as an equation,
//! and what the caller learns.
//!
//! `Lawful` in `specs/Rule.antt` is the rule. It holds of the words that `open` makes, and each step keeps it, whatever the other
//! passes do in between. `words::rule` of `pgn_laws` says what follows from it. A writer, once it has the lock:
//!
//!     let head = queue.load_head(pass);
//!     let stop = queue.load_stop(pass);
//!     let xid = queue.draw_xid(pass, notes);
//!     queue.store_cell(pass, queue.word_of_cell(head), cell);
//!
//! A listener, from its mark's place on:
//!
//!     let upto = queue.begin_walk(pass);
//!     let head = queue.show_head(pass);
//!     let cell = queue.load_shown(pass, queue.word_of_cell(at));
//!
//! Each call asks for a pass of the queue (*own*): a hub has those that `open` has made, and every call keeps this. What a call asks for
//! besides stands in its comment, with who meets it. Nobody waits in a step, and only `open` takes memory. `sleep_on_flag` is no step.
#![tactic(auto)]

mod cells;
mod closing;
mod flags;
mod interests;
mod listening;
mod lock;
mod looks;
mod meeting;
mod numbers;
mod opening;
mod pass;
mod pass_view;
mod plays;
mod pos_word;
mod statuses;
mod view;
mod wakes;
mod walks;
mod words;

pub use lock::Held;
pub use pass::{WordNote, WordPass, WordQueue};
pub use pos_word::PosWord;
pub use view::{Eye, Listen, Look, Pen, Phase, Post, Stage, Verdict, View, Walk};
