use dip_lists::Items;
use tl_params::{Ack, Op};

/// What channel A carries in one clock cycle.
#[derive(Clone, Copy, Debug, PartialEq, Eq)]
pub struct ABeat {
    pub op: Op,
    pub param: u32,
    pub size: u32,
    pub source: u32,
    pub address: u64,
    /// A bit for each lane of the bus, lane 0 the lowest.
    pub mask: u64,
    /// Eight bits for each lane of the bus, lane 0 the lowest.
    pub payload: u64,
}

/// Beats of channel A, in order.
pub type ABeats = Items<ABeat>;

/// What channel D carries in one clock cycle.
#[derive(Clone, Copy, Debug, PartialEq, Eq)]
pub struct DBeat {
    pub op: Ack,
    pub size: u32,
    pub source: u32,
    pub denied: bool,
    /// Eight bits for each lane of the bus, lane 0 the lowest.
    pub payload: u64,
}

/// Beats of channel D, in order.
pub type DBeats = Items<DBeat>;

/// Which request a beat belongs to.
#[derive(Clone, Copy, Debug, PartialEq, Eq)]
pub struct Tag {
    /// The source port that sent the request.
    pub port: u32,
    /// The number of the request at that port, from 0.
    pub index: u32,
    /// Which piece of the request it is, from 0.
    pub piece: u32,
}

/// What happens at a port.
#[derive(Clone, Copy, Debug, PartialEq, Eq)]
pub enum What {
    /// A beat of a request goes from a source into the network.
    Enter(ABeat),
    /// A beat of a response comes back to a source.
    Return(DBeat),
    /// A beat of a request goes from the network to a sink.
    Leave(ABeat),
    /// A beat of a response goes from a sink into the network.
    Reply(DBeat),
}

/// What happens at one port in one clock cycle.
#[derive(Clone, Copy, Debug, PartialEq, Eq)]
pub struct Event {
    pub cycle: u32,
    /// The number of the source or of the sink.
    pub port: u32,
    pub what: What,
}

/// Events, in order.
pub type History = Items<Event>;
