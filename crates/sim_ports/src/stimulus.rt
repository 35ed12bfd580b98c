use crate::Role;
use dip_lists::Items;
use tl_edge::Request;

/// A request that a source port sends.
#[derive(Debug, Drop)]
pub struct StimRequest {
    /// The source port, by its number in the plan.
    pub port: u32,
    /// The first cycle in which it may be offered.
    pub at: u32,
    pub request: Request,
}

/// Requests of all source ports, in the order of the stimulus.
pub type StimRequests = Items<StimRequest>;

/// Cycles in which a port passes no beat of one channel.
#[derive(Clone, Copy, Debug, PartialEq, Eq)]
pub struct Stall {
    /// Whether the port is a source port, and not a sink port.
    pub source: bool,
    /// The port, by its number in the plan.
    pub port: u32,
    /// Whether it is channel A that is stalled, and not channel D.
    pub on_a: bool,
    /// The first of these cycles.
    pub start: u32,
    /// The first cycle after them.
    pub end: u32,
}

/// Stalls, in the order of the stimulus.
pub type Stalls = Items<Stall>;

/// How the device at a sink port behaves.
#[derive(Clone, Copy, Debug, PartialEq, Eq)]
pub struct Setting {
    pub role: Role,
    /// How many cycles after the one that follows its last beat the response to a request may be offered.
    pub delay: u32,
}

/// A setting for each sink port of a plan, in their order.
pub type Settings = Items<Setting>;
