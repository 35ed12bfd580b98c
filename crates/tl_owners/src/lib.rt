//! Where the owner of an address stands on the way down a plan, as a law.
#![tactic(auto)]

mod laws;

pub use laws::outputs_law;
