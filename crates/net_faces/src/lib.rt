//! The ports of a whole netlist: its inputs, what its outputs show of the queues, and the outputs.
#![tactic(auto)]

mod inputs;
mod outputs;
mod ports;
mod reads;
mod types;

pub use inputs::open_ports;
pub use outputs::show_ports;
pub use reads::read_ports;
pub use types::{PortWires, Shown};
