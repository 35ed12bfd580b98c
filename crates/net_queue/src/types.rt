use dip_lists::{Duplicate, Items, Memory};
use net_build::{Wire, Wires};
use std::alloc::Global;

/// A queue of at most two items, each with so many fields. It has two registers of one bit, and two for each
/// field. All that is asked of it depends on registers alone, so what is put into it and taken from it may go
/// by what it shows.
#[derive(Debug, Drop)]
pub struct Queue {
    /// 1 where it has room for one more.
    pub ready: Wire,
    /// 1 where it has a head.
    pub valid: Wire,
    /// The head's fields; any values where it has none.
    pub head: Wires,
    /// 1 where it has a second item.
    pub(crate) full: Wire,
    /// The second item's fields.
    pub(crate) last: Wires,
}

/// The queues of one edge: requests on channel A, responses on channel D. The items are the fields of a beat
/// from the opcode on.
#[derive(Debug, Drop)]
pub struct EdgeWires {
    /// Requests.
    pub a: Queue,
    /// Responses.
    pub d: Queue,
}

impl Duplicate for Queue {
    fn duplicate(&self, alloc: Global) -> Result<Queue, Memory> {
        let head = self.head.copy(alloc)?;
        let last = self.last.copy(alloc)?;
        Ok(Queue {
            ready: self.ready,
            valid: self.valid,
            head,
            full: self.full,
            last,
        })
    }
}

impl Duplicate for EdgeWires {
    fn duplicate(&self, alloc: Global) -> Result<EdgeWires, Memory> {
        let a = self.a.duplicate(alloc)?;
        let d = self.d.duplicate(alloc)?;
        Ok(EdgeWires { a, d })
    }
}

/// What is put into a queue.
#[derive(Debug, Drop)]
pub struct Put {
    /// 1 where an item is put.
    pub valid: Wire,
    /// The item's fields; any values where none is put.
    pub items: Wires,
}

/// Puts into several queues.
pub type Puts = Items<Put>;

/// What the wires of a leaf take from the queues of its edges and put into them.
#[derive(Debug, Drop)]
pub struct LeafWires {
    /// For each in edge 1 where the head of its requests is taken.
    pub take_a: Wires,
    /// For each out edge what is put to its requests.
    pub put_a: Puts,
    /// For each out edge 1 where the head of its responses is taken.
    pub take_d: Wires,
    /// For each in edge what is put to its responses.
    pub put_d: Puts,
}
