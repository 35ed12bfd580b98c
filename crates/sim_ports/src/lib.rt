//! What stands at the ports of a network in a simulation: drivers that send the requests of a stimulus,
//! devices that answer requests, and drivers that let them answer.
#![tactic(auto)]

mod atomics;
mod cells;
mod device;
mod gather;
mod laid_out;
mod laws;
mod memory;
mod next;
mod numbers;
mod prepared;
mod role;
mod room;
mod runs;
mod sink;
mod source;
mod stimulus;

pub use cells::Cells;
pub use device::Device;
pub use laws::{examples_law, prepared_law, sink_law};
pub use prepared::Prepared;
pub use role::Role;
pub use sink::{SinkDriver, SinkPort};
pub use source::{Sent, SourceDriver};
pub use stimulus::{Setting, Settings, Stall, Stalls, StimRequest, StimRequests};
