//! Reads stimulus files: the first rule that a file fails, or the requests, stalls and devices that it
//! states.
#![tactic(auto)]

mod devices;
mod edge;
mod fault;
mod laws;
mod limits;
mod loads;
mod names;
mod passes;
mod ports;
mod read;
mod requests;
mod shape;
mod stalls;
mod tables;
mod top;

pub use fault::StimFault;
pub use laws::{
    stimulus_examples_law, stimulus_ports_law, stimulus_rules_law, stimulus_settings_law,
};
pub use read::{MOST_STIMULUS_BYTES, Stimulus};
pub use top::read_stimulus;
