//! What crosses an edge: the widths of its wires, messages, and the beats that carry them; and plans, of
//! which networks are built.
#![tactic(auto)]

mod beat;
mod bundle;
mod lanes;
mod laws;
mod message;
mod plan;
mod request;
mod response;
mod wires;

pub use beat::{ABeat, ABeats, DBeat, DBeats, Event, History, Tag, What};
pub use bundle::{Bundle, bundle_of, log_of};
pub use lanes::{active_lanes, part};
pub use laws::{
    active_law, bits_law, bundle_law, heads_law, join_law, lanes_law, legal_law, more_law,
    next_law, prefix_law, same_law, spelling_law, wires_law,
};
pub use message::{
    Flags, Request, Requests, Response, Responses, ack_of, brings_data, has_data, has_flags,
    has_param,
};
pub use plan::{
    Leaf, Leaves, Plan, PlanEdge, PlanEdges, PlanPort, PlanPorts, ends_law, sound_plan_law,
    ways_law,
};
pub use request::{a_beat, a_beats, beats};
pub use response::{d_beat, d_beats, response_beats};
pub use wires::{a_fields, a_widths, d_fields, d_widths};
