//! What a network does in one cycle: of all moves that may be made at its start the chosen ones, in their
//! order, and that the order doesn't matter.
#![tactic(auto)]

mod cycle;
mod laws;
mod offers;

pub use cycle::choose;
pub use laws::{choice_examples_law, chosen_law, commute_law, numbered_law, start_law};
pub use offers::{Enters, Offers, Replies};
