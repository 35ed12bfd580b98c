//! Queues, leaves and ports that are wired as a plan says show in each cycle what its network does.
#![tactic(auto)]

mod laws;
mod types;

pub use laws::{puts_fit_law, wired_law};
pub use types::{EndWires, Ends};
