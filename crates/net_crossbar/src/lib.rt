//! The crossbar in wires: between the open queues of any number of in and out edges, under both policies.
#![tactic(auto)]

mod between;
mod channel;
mod channels;
mod crossbar;
mod ends;
mod fitted;
mod gates;
mod moved;
mod puts;
mod requests;
mod responses;
mod rests;
mod takes;
mod wants;
mod ways;

pub use between::{build_between, build_xbar};
pub use crossbar::build_crossbar;
