//! One channel of a width adapter in wires: what is done with a head, which of its narrow beats is next,
//! and the lanes that are cut out or collected.
#![tactic(auto)]

mod flow;
mod heads;
mod lanes;
mod types;

pub use flow::pass;
pub use heads::turn;
pub use lanes::turn_lanes;
pub use types::{Counted, Flow, Head, Turn, Turned};
