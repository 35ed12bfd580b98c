//! From a design to the netlist of its only plan: check 19, which is tried behind the checks of designs, and
//! the netlist of a design that passes them all.
#![tactic(auto)]

mod kinds;
mod laws;
mod netlist;

pub use kinds::kinds_are_built;
pub use laws::buildable_law;
pub use netlist::{BuiltDesign, build_accepted, build_design};
