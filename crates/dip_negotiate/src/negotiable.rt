ghost use Rattle.std.specs.Prelude.{◌≡◌, ◌<◌, ◌^◌, ◌↔◌, length, IsTrue, All, IfOk};
ghost use Rattle.dip_graph.specs.Edges.{FollowsBind};
ghost use Rattle.dip_negotiate.specs.Negotiation.{IsNegotiable};

use dip_graph::{BindEntry, Design, Edge, OrderFault, binds_have_nodes, order};
use dip_lists::Memory;
use std::alloc::Global;

fn follows_bind(binds: &[BindEntry], edge: &Edge) -> bool
    ensures { IsTrue result ↔ FollowsBind binds.now edge.now }
{
    match binds.get(edge.bind as usize) {
        Some(bind) => edge.from == bind.from && edge.to == bind.to,
        None => false,
    }
}

fn edges_follow_binds(binds: &[BindEntry], edges: &[Edge]) -> bool
    ensures { IsTrue result ↔ All (FollowsBind binds.now) edges.now }
{
    edges.iter().all(|edge| follows_bind(binds, edge))
}

/// Whether a design with these edges can be negotiated: no binds close a cycle, they name nodes that exist,
/// and the edges join the nodes of their binds.
pub fn is_negotiable(alloc: Global, design: &Design, edges: &[Edge]) -> Result<bool, Memory>
    requires { length design.now.nodes < 2 ^ 32 }
    ensures { IfOk result (λ can. IsTrue can ↔ IsNegotiable design.now edges.now) }
{
    match order(alloc, design) {
        Ok(_) => {
            let binds = design.binds.as_slice();
            Ok(binds_have_nodes(design.nodes.as_slice(), binds) && edges_follow_binds(binds, edges))
        }
        Err(OrderFault::Cycle { .. }) => Ok(false),
        Err(OrderFault::Memory) => Err(Memory),
    }
}
