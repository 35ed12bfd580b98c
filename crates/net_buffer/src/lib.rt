//! The buffer in wires.
#![tactic(auto)]

mod buffer;
mod laws;

pub use buffer::build_buffer;
pub use laws::buffer_law;
