//! Choices among requests, in wires.
#![tactic(auto)]

mod choice;
mod laws;
mod rows;

pub use choice::{Granted, grant_one};
pub use laws::choice_law;
pub use rows::{Pairing, behind, pair_each, pair_one, spread, switch};
