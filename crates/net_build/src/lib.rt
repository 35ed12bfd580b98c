//! The builder of netlists, each of whose wires has its operator's value.
#![tactic(auto)]

mod bits;
mod builder;
mod finish;
mod folds;
mod laws;
mod registers;
mod rows;
mod types;

pub use bits::{both, either, inverse, low};
pub use builder::Builder;
pub use laws::firsts_law;
pub use types::{Firsts, Item, Kind, Made, Wire, Wires};
