ghost use Rattle.std.specs.Prelude.{◌≡◌, ◌<◌, ◌^◌, length, IfOk};
ghost use Rattle.dip_lists.specs.First.{places};
ghost use Rattle.dip_graph.specs.Edges as spec;

use dip_lists::{Items, Memory};
use std::alloc::Global;
use tl_params::Numbers;

/// A connection of an out port to an in port.
#[derive(Clone, Copy, Debug, PartialEq, Eq)]
pub struct Edge {
    /// The number of the bind that makes it.
    pub bind: u32,
    /// The node that requests come from.
    pub from: u32,
    /// Which out port of that node it is.
    pub from_port: u32,
    /// The node that requests go to.
    pub to: u32,
    /// Which in port of that node it is.
    pub to_port: u32,
}

/// Edges by their numbers, in the order of binds.
pub type Edges = Items<Edge>;

/// The ends of an edge that are looked at.
#[derive(Clone, Copy)]
enum Ends {
    To,
    From,
    Either,
}

// Whether one of these ends of an edge is at a node.
fn is_at(ends: Ends, node: u32, edge: &Edge) -> bool
    ensures { result ≡ spec.is_at ends node edge.now }
{
    match ends {
        Ends::To => edge.to == node,
        Ends::From => edge.from == node,
        Ends::Either => edge.to == node || edge.from == node,
    }
}

// The numbers of the edges that have one of these ends at a node.
fn numbers_at(alloc: Global, ends: Ends, node: u32, edges: &[Edge]) -> Result<Numbers, Memory>
    requires { length edges.now < 2 ^ 32 }
    ensures { IfOk result (λ numbers. numbers ≡
        places (λ number edge. spec.is_at ends node edge) 0 edges.now) }
{
    let mut numbers = Items::new(alloc);
    for (number, edge) in edges.iter().enumerate() {
        if is_at(ends, node, edge) {
            numbers.push(number as u32)?;
        }
    }
    Ok(numbers)
}

/// The numbers of the edges to a node.
pub fn edges_to(alloc: Global, node: u32, edges: &[Edge]) -> Result<Numbers, Memory>
    requires { length edges.now < 2 ^ 32 }
    ensures { IfOk result (λ numbers. numbers ≡ spec.edges_to node edges.now) }
{
    numbers_at(alloc, Ends::To, node, edges)
}

/// The numbers of the edges from a node.
pub fn edges_from(alloc: Global, node: u32, edges: &[Edge]) -> Result<Numbers, Memory>
    requires { length edges.now < 2 ^ 32 }
    ensures { IfOk result (λ numbers. numbers ≡ spec.edges_from node edges.now) }
{
    numbers_at(alloc, Ends::From, node, edges)
}

/// The numbers of the edges to a node and from it.
pub fn edges_at(alloc: Global, node: u32, edges: &[Edge]) -> Result<Numbers, Memory>
    requires { length edges.now < 2 ^ 32 }
    ensures { IfOk result (λ numbers. numbers ≡ spec.edges_at node edges.now) }
{
    numbers_at(alloc, Ends::Either, node, edges)
}
