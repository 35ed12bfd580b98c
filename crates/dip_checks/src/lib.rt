//! The checks of designs after those of their files, and what a design agrees on whose checks pass: its
//! edges and the only parameters of their ports.
#![tactic(auto)]

mod agreed;
mod check;
mod edges;
mod fit;
mod graph;
mod laws;
mod rules;
mod sets;
mod weights;

pub use agreed::Agreed;
pub use check::check_design;
pub use laws::{check_order_law, ports_law};
pub use weights::weight;
