//! Where a head of a crossbar goes, and with which id: who owns an address, whose range has an id, and an id
//! moved to a range and back.
#![tactic(auto)]

mod ids;
mod owners;

pub use ids::{IdBlock, has_id, move_back, move_id};
pub use owners::owns;
