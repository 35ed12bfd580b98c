//! The top call, over files, an output, rules and devices that the caller hands in.
#![tactic(auto)]

mod devices;
mod laws;
mod map;
mod printing;
mod read;
mod sim;
mod standard;
mod top;
mod verilog;
mod words;

pub use devices::MOST_DEVICES;
pub use laws::first_of_all_law;
pub use sim_ports::{Cells, Device};
pub use standard::soc_by_standard_rules;
pub use top::soc;
