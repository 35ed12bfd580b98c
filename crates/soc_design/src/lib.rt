//! Reads design files: the first check that a file fails, or the design that it states.
#![tactic(auto)]

mod laws;
mod limits;
mod names;
mod nodes;
mod read;
mod shape;
mod tables;

pub use laws::file_order_law;
pub use read::{MOST_BYTES, read_design};
