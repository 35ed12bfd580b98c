//! Designs: nodes, the binds between them, the edges that binds make, and the order of nodes.
#![tactic(auto)]

mod design;
mod edges;
mod fault;
mod kinds;
mod laws;
mod limits;
mod ordering;
mod well_stated;

pub use design::{
    BindEntry, Binds, Design, ModuleEntry, ModuleTree, NodeEntry, NodeKind, Nodes, Star,
};
pub use edges::{Edge, Edges, edges_at, edges_from, edges_to};
pub use fault::Fault;
pub use kinds::{kind_at, ruled_kind_at};
pub use laws::order_law;
pub use limits::{
    MOST_ARGS, MOST_ATOMIC, MOST_BINDS, MOST_MODULES, MOST_NAME_BYTES, MOST_NODES, MOST_PORTS,
    MOST_SETS, MOST_SOURCE_IDS,
};
pub use ordering::{OrderFault, canonical_order, order};
pub use tl_params::Numbers;
pub use well_stated::{binds_have_nodes, is_well_stated};
