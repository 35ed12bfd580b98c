//! A crossbar of the network of beats as its machine of one cycle.
#![tactic(auto)]

mod laws;

pub use laws::crossbar_at_law;
