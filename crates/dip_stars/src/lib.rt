//! Star bindings: how many edges each bind of a design makes, and those edges.
#![tactic(auto)]

mod edges;
mod laws;
mod rounds;
mod stars;

pub use laws::{edges_law, filled_law};
// The types of which the definitions of rounds speak.
pub use rounds::{Counted, Counts};
pub use stars::{StarFault, resolve};
