//! Queues of two in registers, the wires of an edge and of a leaf, and what it means that a leaf's wires are
//! the leaf.
#![tactic(auto)]

mod fit;
mod flags;
mod laws;
mod queue;
mod rows;
mod types;

pub use fit::{fit_row, fit_wire};
pub use laws::{guarded_law, moves_law};
pub use queue::{close_queue, open_queue};
pub use rows::{append, mux_row};
pub use types::{EdgeWires, LeafWires, Put, Puts, Queue};
