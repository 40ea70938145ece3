//! What a client of PostgreSQL's protocol 3.0 sends after start-up, and the queries that it asks.
//!
//! The messages are a Query and a Terminate. `QueriesAre` in `specs/Queries` says which queries a client's bytes have, each as a line of
//! a script with its command, and by which fault they end, if by one; `pgn_laws` has that these are the only ones. `Queries` reads them one
//! at a time from any source, and the layer above may rely on it that it gives exactly these, however the reads cut the bytes. It takes
//! no byte behind a query before it is asked for the next, so that a client which waits for an answer is not waited for.
//!
//! A caller, over a source whose bytes are a Query `LISTEN c` and a Terminate:
//!
//! ```
//! let mut queries = Queries::new(alloc, 65_536);
//! match queries.next(alloc, source)? {
//!     // The line of `LISTEN c` comes first, and behind it none.
//!     Some(line) => answer(line),
//!     None => {}
//! }
//! ```
#![tactic(auto)]

mod coming;
mod full_read;
mod limits;
mod message;
mod reader;
mod wire_fault;

pub use full_read::read_full;
pub use limits::{QUERIES_MAX, QUERY_LENGTH_MAX, QUERY_LENGTH_MIN, TERMINATE_LENGTH};
pub use reader::{NoQuery, Queries};
pub use wire_fault::WireFault;
