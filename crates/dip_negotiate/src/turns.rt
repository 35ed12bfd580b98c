ghost use Rattle.std.specs.Prelude.{◌≡◌, ◌<◌, ◌≤◌, ◌^◌, length, IfOk};
ghost use Rattle.dip_negotiate.specs.Negotiation as spec;
ghost use Rattle.dip_negotiate.specs.Demands as demands;

use crate::negotiated::Negotiated;
use crate::steps::{End, Steps};
use dip_graph::{Edge, NodeEntry, Numbers, ruled_kind_at};
use dip_lists::{Items, Memory};
use dip_rule::{Rules, Stating};
use std::alloc::Global;

/// The order in which the ports of edges are made that go in one direction.
#[derive(Drop)]
pub struct Turns {
    /// The edges, each with its number, behind all edges on which its port depends.
    pub steps: Steps,
    /// For each edge the first one whose port the same place gives.
    pub firsts: Numbers,
}

/// Ends of edges.
type Ends = Items<End>;

fn same_end(end: End, other: End) -> bool
    ensures { result ≡ demands.same_end end other }
{
    end.node == other.node && end.port == other.port
}

// The first place at which an end stands, their number where it doesn't.
fn first_at(end: End, ends: &[End]) -> usize
    ensures value { result ≡ demands.first_at end ends.now }
    ensures within { result ≤ length ends.now }
{
    for (place, other) in ends.iter().enumerate() {
        if same_end(*other, end) {
            return place;
        }
    }
    ends.len()
}

/// For each of some ends the first of them that is the same.
fn first_shares(alloc: Global, ends: &[End]) -> Result<Numbers, Memory>
    requires { length ends.now < 2 ^ 32 }
    ensures { IfOk result (λ firsts. firsts ≡ demands.first_shares ends.now) }
{
    let mut firsts = Items::new(alloc);
    for end in ends {
        firsts.push(first_at(*end, ends) as u32)?;
    }
    Ok(firsts)
}

/// Where a rule is asked for the port at an end: its node and its port, which is 0 at a nexus.
pub fn place_of(rules: &Rules, nodes: &[NodeEntry], own: End) -> End
    ensures { result ≡ spec.place_of (⟦<Rules as Stating>⟧.stated rules.now) nodes.now own }
{
    let nexus = rules.is_nexus_kind(ruled_kind_at(nodes, own.node));
    End {
        node: own.node,
        port: if nexus { 0 } else { own.port },
    }
}

// The places that give the ports of edges.
fn end_places<P: Negotiated>(
    alloc: Global,
    rules: &Rules,
    nodes: &[NodeEntry],
    edges: &[Edge],
) -> Result<Ends, Memory>
    ensures { IfOk result (λ ends. ends ≡ demands.end_places (⟦<Rules as Stating>⟧.stated rules.now)
        nodes.now P.near edges.now) }
{
    let mut ends = Items::new(alloc);
    for edge in edges {
        ends.push(place_of(rules, nodes, P::near(edge)))?;
    }
    Ok(ends)
}

/// For each edge the first one whose port the same place gives.
pub fn sharing<P: Negotiated>(
    alloc: Global,
    rules: &Rules,
    nodes: &[NodeEntry],
    edges: &[Edge],
) -> Result<Numbers, Memory>
    requires { length edges.now < 2 ^ 32 }
    ensures { IfOk result (λ firsts. firsts ≡ demands.first_shares (demands.end_places
        (⟦<Rules as Stating>⟧.stated rules.now) nodes.now P.near edges.now)) }
{
    let ends = end_places::<P>(alloc, rules, nodes, edges)?;
    first_shares(alloc, ends.as_slice())
}
