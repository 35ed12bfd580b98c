//! The cycle simulator's engine: the values of a netlist's nets, cycle by cycle.
#![tactic(auto)]

mod arrange;
mod columns;
mod engine;
mod fault;
mod laws;
mod loops;
mod order;
mod positions;
mod ranks;
mod runs;
mod steps;
mod values;

pub use engine::Engine;
pub use fault::EngineFault;
pub use laws::order_law;
