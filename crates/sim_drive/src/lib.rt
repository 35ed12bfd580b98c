//! A run whole: it is opened with a plan, a netlist, a stimulus and devices, goes from cycle to cycle, and
//! comes to its totals.
#![tactic(auto)]

mod fault;
mod laws;
mod preparing;
mod room;
mod run;
mod scripts;
mod sinks;
mod totals;

pub use fault::RunFault;
pub use laws::{rising_law, run_worked_law};
pub use run::Run;
