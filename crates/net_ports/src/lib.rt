//! The ports of the netlist of a plan, and what it means that a netlist is the network of a plan.
#![tactic(auto)]

mod field;
mod laws;
mod names;
mod rows;

pub use field::Field;
pub use laws::names_law;
pub use names::{request_row, response_row, wire_name};
pub use rows::{open_row, show_row};
