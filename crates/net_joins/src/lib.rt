//! The queues of edges, closed between what gives to them and what takes from them.
#![tactic(auto)]

mod closing;
mod ends;

pub use closing::close_edges;
