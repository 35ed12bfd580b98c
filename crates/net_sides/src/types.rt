use net_build::Wire;
use net_queue::Put;
use net_turns::{Head, Turn, Turned};

/// The registers of one channel.
#[derive(Debug, Clone, Copy)]
pub struct SideWires {
    /// How many narrow beats of the message in progress are done, in 8 bits.
    pub done: Wire,
    /// What is collected of a mask, on the way to a wider bus.
    pub mask: Option<Wire>,
    /// What is collected of the data, on the way to a wider bus.
    pub payload: Option<Wire>,
}

/// Channel A.
#[derive(Debug, Drop)]
pub struct Requests {
    /// 1 where the head is taken.
    pub take: Wire,
    /// What is put.
    pub put: Put,
    /// 1 where the address of the head is to be kept for its id.
    pub begins: Wire,
    /// Its registers.
    pub side: SideWires,
}

/// Channel D.
#[derive(Debug, Drop)]
pub struct Responses {
    /// 1 where the head is taken.
    pub take: Wire,
    /// What is put.
    pub put: Put,
    /// Its registers.
    pub side: SideWires,
}

/// The mask and the data of a request.
#[derive(Debug, Clone, Copy)]
pub struct RequestLanes {
    /// The mask.
    pub mask: Wire,
    /// The data.
    pub payload: Wire,
}

/// Channel A in a cycle.
#[derive(Debug, Drop)]
pub struct RequestCycle {
    /// The head.
    pub head: Head,
    /// What becomes of it.
    pub turn: Turn,
    /// Its mask on the other bus.
    pub mask: Turned,
    /// Its data on the other bus.
    pub payload: Turned,
    /// The lanes of what is put.
    pub lanes: RequestLanes,
    /// What is put.
    pub put: Put,
    /// 1 where the address is to be kept.
    pub begins: Wire,
}

/// Channel D in a cycle.
#[derive(Debug, Drop)]
pub struct ResponseCycle {
    /// The head.
    pub head: Head,
    /// What becomes of it.
    pub turn: Turn,
    /// Its data on the other bus.
    pub payload: Turned,
    /// The data of what is put.
    pub lanes: Wire,
    /// What is put.
    pub put: Put,
}
