//! A client of PostgreSQL's protocol 3.0, after start-up, served by one session.
//!
//! `serve_wire` reads a query, puts it into the session's script, lets the session take it and read where it was woken, and sends the
//! whole answer before it reads on. The layer above may rely on it that what is written are the messages of the session's trace, which
//! is lawful at every end, and that the session's script are the queries of the client's bytes, from the first on.
//!
//! The session begins with a script that is a `\quit` alone; each query is put in before it. So at the end of the client's bytes the
//! session takes its `\quit`, and is over. After an error the caller has a session whose trace so far is lawful.
#![tactic(auto)]

mod answering;
mod host;
mod quitting;
mod serving;
mod taking;
mod turn;
mod wire_end;

pub use serving::serve_wire;
pub use wire_end::WireEnd;
