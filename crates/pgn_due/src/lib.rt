//! What is due next to a session that listens, kept from line to line.
//!
//! A `Feed` has gone through a journal once, and knows where each channel's notifications stand. A `Watch` follows one session over
//! it: its channels as they change, and its reads. It keeps the next notification of each channel, so that to ask whether anything
//! is due takes no walk, and a read takes as long as what it received.
#![tactic(auto)]

mod feed;
mod lists;
mod sends;
mod watch;

pub use feed::Feed;
pub use watch::Watch;
