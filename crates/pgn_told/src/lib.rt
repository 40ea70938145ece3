//! Laws of the messages of PostgreSQL's protocol: those of a legal run of a client's queries give back what the client saw, and the
//! journal.
//!
//! They stand on public functions with an empty body, in `laws`. The program calls none of them: what it writes are the messages of a
//! legal run, and these say what whoever reads them may conclude. `examples` has what a client sees, and what it cannot tell apart.
#![tactic(auto)]

pub mod examples;
pub mod laws;
