//! The whole netlist of a plan: `build`, the wires of a whole netlist, and that one with such wires is the
//! network of its plan.
#![tactic(auto)]

mod laws;
mod types;
mod whole;

pub use laws::{legal_beats_law, port_runs_law, reset_law, whole_law};
pub use types::Laid;
pub use whole::build;
