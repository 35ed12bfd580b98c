//! The crossbar in wires.
#![tactic(auto)]

mod laws;

pub use laws::crossing_law;
