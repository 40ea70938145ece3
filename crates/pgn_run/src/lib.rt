//! All that the program does, in one call: it reads the input, runs its sessions over one shared queue and writes the text.
//!
//! `run_notify` carries the headline. Where it answers `Done` to `run`, what was left in the source reads as a scenario, and what was
//! written is the output text of a journal and of traces that are a legal run of it: what is due to each listener, of its
//! database, on a channel of its set and from its mark on, reaches it once and in commit order. Where it answers `Done` to `drill`,
//! what was written is the summary of a legal run of the drill's scenario. Every other answer has its cause in the contract, and says
//! what was read and written. Sessions may wait for one another, so that no contract promises that the call returns.
//!
//! `run_scenario` is all of it behind the reading, over a hub of the type that its caller names.
//!
//! A caller, over a source that gives two lines, `\session a 1` and `LISTEN c`:
//!
//! ```
//! let status = run_notify(&rt, alloc, hashes, &["run"], source, sink);
//! // Where it is `Done`, the sink was given six lines: `journal 0`, `session 1 a db 1 pid 1001`, `> LISTEN c`, `+enlist 3 3`,
//! // `LISTEN`, `end mark 3`.
//! ```
#![tactic(auto)]

mod checking;
mod live_run;
mod parting;
mod print;
mod run;
mod scenario_run;
mod serve;
mod settings;
mod status;
mod wire;

pub use live_run::run_scenario_live;
pub use print::Print;
pub use run::run_notify;
pub use scenario_run::run_scenario;
pub use settings::RunSettings;
pub use status::Status;
