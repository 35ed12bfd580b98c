//! The two channels of a width adapter in wires, each between two queues, on the way to a narrower or to a
//! wider bus.
#![tactic(auto)]

mod puts;
mod requests;
mod responses;
mod types;

pub use requests::turn_requests;
pub use responses::turn_responses;
pub use types::{RequestCycle, RequestLanes, Requests, ResponseCycle, Responses, SideWires};
