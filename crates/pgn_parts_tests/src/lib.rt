//! Tests of the parts, each through its crate's door: what no clause says, and one call of each that may answer want of memory.
//!
//! They stand above all of these crates, so that none is proved once more for its tests. Tables of inputs with what each comes to
//! are files of `pgn_rows`; here is what no row goes through.
#![tactic(auto)]

#[cfg(test)]
mod tests;
