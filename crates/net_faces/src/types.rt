use dip_lists::Items;
use net_build::Wires;
use net_parts::Ends;

/// What ports offer.
#[derive(Drop)]
pub struct PortWires {
    /// At source ports.
    pub sources: Ends,
    /// At sink ports.
    pub sinks: Ends,
}

/// The wires that outputs show.
#[derive(Drop)]
pub struct Shown {
    /// By source port.
    pub sources: Items<Wires>,
    /// By sink port.
    pub sinks: Items<Wires>,
}
