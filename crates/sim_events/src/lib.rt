//! The events of a run: what passes the ports of a network in a cycle, by what they offer and take and by the
//! outputs of a netlist, and what passes them in the network of a plan.
#![tactic(auto)]

mod inputs;
mod laws;
mod outputs;
mod passing;
mod types;

pub use inputs::write_inputs;
pub use laws::{run_law, trace_law};
pub use outputs::{sink_view, source_view};
pub use types::{SinkOffer, SinkView, SourceOffer, SourceView};
