//! What passes at the ports of a netlist: what they offer goes into a queue where there is room, and they
//! take where there is a head.
#![tactic(auto)]

mod gates;

pub use gates::{gate_sinks, gate_sources};
