//! The id shrinker in wires: each request gets one of few new ids, which its response gives back.
#![tactic(auto)]

mod between;
mod laws;
mod lengths;
mod puts;
mod shrink;
mod types;

pub use between::shrink_between;
pub use laws::shrinker_law;
pub use shrink::build_shrink;
pub use types::{Answering, Shrunk};
