use dip_lists::Items;
use net_build::Wire;
use net_queue::Put;

/// What a port puts into one queue of its edge and takes from the other.
#[derive(Debug, Drop)]
pub struct EndWires {
    /// What is put.
    pub put: Put,
    /// 1 where the head of the other queue is taken.
    pub take: Wire,
}

/// The ends of edges at ports, by port.
pub type Ends = Items<EndWires>;
