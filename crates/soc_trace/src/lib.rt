//! The trace of a run, printed as it comes: in large pieces, and without taking memory.
#![tactic(auto)]

mod run;
mod waiting;

pub use run::print_run;
pub use waiting::WAITING;
