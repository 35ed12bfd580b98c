//! One gate of a crossbar, in wires: which head passes, what is put, and who holds the gate.
#![tactic(auto)]

mod gate;
mod laws;
mod side;
mod steps;
mod types;

pub use gate::{build_free_gate, build_gate, build_single_gate};
pub use laws::gate_law;
pub use types::Serving;
