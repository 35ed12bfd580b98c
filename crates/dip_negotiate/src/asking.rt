ghost use Rattle.std.specs.Prelude.{◌≡◌, ◌<◌, ◌^◌, length, IfOk};
ghost use Rattle.dip_negotiate.specs.Places as spec;

use crate::steps::{End, sink_end, source_end};
use dip_graph::{Edge, NodeEntry, Numbers, ruled_kind_at};
use dip_lists::{Items, Memory};
use dip_rule::{Rules, Stating};
use std::alloc::Global;

// Whether an end belongs to another one: at the same node, and there at the same port, or at a nexus.
fn belongs(nexus: bool, own: End, other: End) -> bool
    ensures { result ≡ spec.belongs nexus own other }
{
    own.node == other.node && (nexus || own.port == other.port)
}

// The numbers of the edges that go to an end, or at a nexus to its node.
fn entering(alloc: Global, nexus: bool, own: End, edges: &[Edge]) -> Result<Numbers, Memory>
    requires { length edges.now < 2 ^ 32 }
    ensures { IfOk result (λ numbers. numbers ≡ spec.joined_to nexus spec.sink_end own edges.now) }
{
    let mut numbers = Items::new(alloc);
    for (number, edge) in edges.iter().enumerate() {
        if belongs(nexus, own, sink_end(edge)) {
            numbers.push(number as u32)?;
        }
    }
    Ok(numbers)
}

// The numbers of the edges that come from an end, or at a nexus from its node.
fn leaving(alloc: Global, nexus: bool, own: End, edges: &[Edge]) -> Result<Numbers, Memory>
    requires { length edges.now < 2 ^ 32 }
    ensures { IfOk result (λ numbers. numbers ≡ spec.joined_to nexus spec.source_end own edges.now) }
{
    let mut numbers = Items::new(alloc);
    for (number, edge) in edges.iter().enumerate() {
        if belongs(nexus, own, source_end(edge)) {
            numbers.push(number as u32)?;
        }
    }
    Ok(numbers)
}

/// The numbers of the edges of which what goes down an edge is made.
pub fn asks_down(
    alloc: Global,
    rules: &Rules,
    nodes: &[NodeEntry],
    edges: &[Edge],
    edge: &Edge,
) -> Result<Numbers, Memory>
    requires { length edges.now < 2 ^ 32 }
    ensures { IfOk result (λ numbers. numbers ≡ spec.asked (⟦<Rules as Stating>⟧.stated rules.now)
        nodes.now edges.now spec.source_end
        spec.sink_end edge.now) }
{
    let own = source_end(edge);
    let nexus = rules.is_nexus_kind(ruled_kind_at(nodes, own.node));
    entering(alloc, nexus, own, edges)
}

/// The numbers of the edges of which what goes up an edge is made.
pub fn asks_up(
    alloc: Global,
    rules: &Rules,
    nodes: &[NodeEntry],
    edges: &[Edge],
    edge: &Edge,
) -> Result<Numbers, Memory>
    requires { length edges.now < 2 ^ 32 }
    ensures { IfOk result (λ numbers. numbers ≡ spec.asked (⟦<Rules as Stating>⟧.stated rules.now)
        nodes.now edges.now spec.sink_end
        spec.source_end edge.now) }
{
    let own = sink_end(edge);
    let nexus = rules.is_nexus_kind(ruled_kind_at(nodes, own.node));
    leaving(alloc, nexus, own, edges)
}
