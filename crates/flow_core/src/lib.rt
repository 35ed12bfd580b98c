//! The network of beats: queues on the edges of a plan, leaves between them, and the moves that change them.
#![tactic(auto)]

mod carried;
mod crossing;
mod laws;
mod locks;
mod moves;
mod network;
mod queue;
mod ways;

pub use laws::{built_law, bursts_law, examples_law, moves_law, shape_law, tags_law, turning_law};
pub use locks::{Gate, Lock};
pub use moves::{Move, Moves};
pub use network::Network;
