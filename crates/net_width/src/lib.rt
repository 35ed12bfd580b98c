//! The width adapter in wires, between the queues of the edges of a plan: a buffer between buses of one
//! width, and else two channels and the addresses that are kept for ids.
#![tactic(auto)]

mod between;
mod laws;
mod same;
mod turning;
mod types;
mod width;

pub use between::widen_between;
pub use laws::plan_widget_law;
pub use types::{Cycle, Ends, Widened};
pub use width::build_widget;
