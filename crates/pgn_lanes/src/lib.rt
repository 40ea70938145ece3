//! Loops over arrays that take several elements at a time.
//!
//! `least` gives the least of many words, `behind` says by a mask which of many listeners a commit wakes, and `first_zero` finds
//! the end of a text. A commit looks at the position of every listener, and a reader at every byte of a text, so these loops are
//! what either costs. Each takes eight words or sixteen bytes together, and what is left one by one.
//!
//! A caller may rely on this: each answers as its plain definition does, for every length. These are `plain_least`, `plain_behind`
//! and `plain_zero`, by recursion on the list. Laws over the first two (`lanes` of `pgn_laws`) tell once more what they mean, and the third is also the
//! place that the library finds. That a loop takes several elements together is not promised, only its answer is. None of the
//! calls takes memory, and the crate stands on no other.
//!
//! A reader of the queue's entries ends the channel of an entry by `first_zero(bytes)`: what stands before that place is the name.
#![tactic(auto)]

mod minimum;
mod wakes;
mod zeros;

pub use minimum::least;
pub use wakes::behind;
pub use zeros::first_zero;
