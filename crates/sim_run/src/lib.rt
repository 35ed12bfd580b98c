//! Runs of a netlist with the drivers and devices of a stimulus.
#![tactic(auto)]

mod buffers;
mod cycle;
mod laws;
mod offering;
mod telling;
mod telling_all;
mod turning;

pub use buffers::Buffers;
pub use cycle::run_cycle;
pub use laws::{drivers_law, engine_law, told_law, trace_texts_law};
pub use offering::{fill_sinks, fill_sources};
pub use telling::{tell_sinks, tell_sources};
pub use telling_all::tell_all;
pub use turning::turn;
