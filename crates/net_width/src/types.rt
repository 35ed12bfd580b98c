use net_build::{Wire, Wires};
use net_lanes::Kept;
use net_queue::Put;
use net_sides::{Requests, Responses};

/// Both channels in a cycle.
#[derive(Debug, Drop)]
pub struct Cycle {
    /// Channel A.
    pub requests: Requests,
    /// Channel D.
    pub responses: Responses,
    /// What is kept for the id of the response.
    pub kept: Kept,
    /// The entries after the cycle.
    pub nexts: Wires,
}

/// An adapter between the queues of two edges.
#[derive(Debug, Drop)]
pub struct Widened {
    /// Channel A.
    pub requests: Requests,
    /// Channel D.
    pub responses: Responses,
    /// What is kept for the id of the response.
    pub kept: Kept,
    /// For each id the register of its entry, of 4 bits.
    pub entries: Wires,
}

/// What an adapter takes and puts at its two edges.
#[derive(Debug, Drop)]
pub struct Ends {
    /// 1 where the head of the requests is taken.
    pub take_a: Wire,
    /// What is put to the requests below.
    pub put_a: Put,
    /// 1 where the head of the responses is taken.
    pub take_d: Wire,
    /// What is put to the responses above.
    pub put_d: Put,
}
