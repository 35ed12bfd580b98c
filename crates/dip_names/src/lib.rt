//! Names by their numbers, counted from 0 in the order of adding.
#![tactic(auto)]

mod numbering;

pub use numbering::Names;
