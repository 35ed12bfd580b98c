//! Negotiation: the parameters on which the ports of a design agree by the rules of its nodes.
#![tactic(auto)]

mod asking;
mod demands;
mod kept;
mod laws;
mod lazy;
mod marking;
mod negotiable;
mod negotiated;
mod ports;
mod solution;
mod steps;
mod turns;

pub use laws::{demand_law, negotiation_law};
pub use lazy::{Lazy, negotiate};
pub use negotiable::is_negotiable;
pub use solution::{NegFault, Solution};
// The types of which the definitions speak.
pub use steps::{End, Step, Steps};
pub use turns::Turns;
