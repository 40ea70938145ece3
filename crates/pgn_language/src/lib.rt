//! What lines and inputs read as, in `specs/`, and the types that this speaks of: a scenario, its sections and script lines.
//!
//! A line of SQL is cut into tokens, and a table of commands says what they mean (`ReadsAs`). An input is cut into lines, and
//! has one reading: a scenario, or its one fault (`ReadsAsScenario`).
//!
//! Laws over these definitions stand in `pgn_laws`, in `language`.
#![tactic(auto)]

mod line_text;
mod scenario;

pub use line_text::LineText;
pub use scenario::{Act, Scenario, ScenarioFault, ScriptLine, ScriptLines, Section, Sections};
