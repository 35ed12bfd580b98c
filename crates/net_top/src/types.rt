use dip_lists::Items;
use net_parts::Ends;
use net_queue::{EdgeWires, LeafWires};

/// Queues, leaves and what passes of what ports offer.
#[derive(Drop)]
pub struct Laid {
    /// The queues of each edge.
    pub edges: Items<EdgeWires>,
    /// The wires of each leaf.
    pub leaves: Items<LeafWires>,
    /// What passes at source ports.
    pub sources: Ends,
    /// What passes at sink ports.
    pub sinks: Ends,
}
