ghost use Rattle.std.specs.Prelude.{◌≡◌, ℕ, ◌<◌, IfOk, MatchOption, Some, length, slice_get, slice_index_or};
ghost use Rattle.tl_edge.specs.SoundPlans.{IsSound};
ghost use Rattle.net_build.specs.Columns.{no_wire};
ghost use Rattle.net_parts.specs.Wired.{no_put, wires_of_port};
ghost use Rattle.net_joins.specs.Finding.{
  HaveEnds,
  IsGiverEnd,
  IsTakerEnd,
  LeafHas,
  PortHas,
  edges_on,
  end_with,
};

use dip_lists::Memory;
use net_build::Wire;
use net_parts::EndWires;
use net_queue::{LeafWires, Put};
use std::alloc::Global;
use tl_edge::{Leaf, Plan, PlanPort};

// A side of a leaf.
#[derive(Clone, Copy)]
enum Side {
    // The edges from which its requests come.
    Ins,
    // The edges to which they go.
    Outs,
}

// A place on a side of a leaf.
#[derive(Clone, Copy)]
struct LeafPlace {
    leaf: usize,
    place: usize,
}

// The edges on a side of a leaf.
fn edges_of<'l>(leaf: &'l Leaf, side: Side) -> &'l [u32]
    ensures { result.now ≡ edges_on side leaf.now }
{
    match side {
        Side::Ins => leaf.ins.as_slice(),
        Side::Outs => leaf.outs.as_slice(),
    }
}

// The first place of an edge among others.
fn place_of(edges: &[u32], edge: usize) -> Option<usize>
    ensures { MatchOption result ((k : ℕ) → slice_get edges.now k ≡ Some edge → ⊥)
        (λ k. slice_get edges.now k ≡ Some edge) }
{
    for (place, other) in edges.iter().enumerate() {
        if *other as usize == edge {
            return Some(place);
        }
    }
    None
}

// The first leaf with an edge on this side.
fn leaf_with(leaves: &[Leaf], side: Side, edge: usize) -> Option<LeafPlace>
    ensures { MatchOption result ((leaf place : ℕ) → LeafHas side leaves.now edge leaf place → ⊥)
        (λ at. LeafHas side leaves.now edge at.leaf at.place) }
{
    for leaf in 0..leaves.len() {
        if let Some(place) = place_of(edges_of(&leaves[leaf], side), edge) {
            return Some(LeafPlace { leaf, place });
        }
    }
    None
}

// The first port with an edge.
fn port_with(ports: &[PlanPort], edge: usize) -> Option<usize>
    ensures { MatchOption result ((port : ℕ) → PortHas ports.now edge port → ⊥)
        (PortHas ports.now edge) }
{
    for port in 0..ports.len() {
        if ports[port].edge as usize == edge {
            return Some(port);
        }
    }
    None
}

// An end with a copy of what is put.
fn end_of(alloc: Global, put: &Put, take: Wire) -> Result<EndWires, Memory>
    ensures { IfOk result (λ wires. wires ≡ end_with put.now take) }
{
    let items = put.items.copy(alloc)?;
    let put = Put {
        valid: put.valid,
        items,
    };
    Ok(EndWires { put, take })
}

// The end whose put and take stand at a place of two rows.
fn end_at(alloc: Global, puts: &[Put], takes: &[Wire], place: usize) -> Result<EndWires, Memory>
    requires puts { place < length puts.now }
    requires takes { place < length takes.now }
    ensures { IfOk result (λ wires. wires
        ≡ end_with (slice_index_or puts.now place no_put) (slice_index_or takes.now place no_wire)) }
{
    let wires = end_of(alloc, &puts[place], takes[place])?;
    Ok(wires)
}

// The end at a port, copied.
fn port_end(alloc: Global, ends: &[EndWires], port: usize) -> Result<EndWires, Memory>
    requires { port < length ends.now }
    ensures { IfOk result (λ wires. wires ≡ wires_of_port ends.now port) }
{
    let own = &ends[port];
    let wires = end_of(alloc, &own.put, own.take)?;
    Ok(wires)
}

/// A copy of the wires of what gives to an edge of a plan: it puts to its requests, and takes from its
/// responses.
pub(crate) fn giver_of(
    alloc: Global,
    plan: &Plan,
    edge: usize,
    leaves: &[LeafWires],
    sources: &[EndWires],
) -> Result<EndWires, Memory>
    requires sound { IsSound plan.now }
    requires edge { edge < length plan.now.edges }
    requires leaves { HaveEnds plan.now leaves.now }
    requires sources { length sources.now ≡ length plan.now.sources }
    ensures { IfOk result (IsGiverEnd plan.now edge leaves.now sources.now) }
{
    if let Some(at) = leaf_with(plan.leaves.as_slice(), Side::Outs, edge) {
        let own = &leaves[at.leaf];
        let puts = own.put_a.as_slice();
        let takes = own.take_d.as_slice();
        let wires = end_at(alloc, puts, takes, at.place)?;
        return Ok(wires);
    }
    if let Some(port) = port_with(plan.sources.as_slice(), edge) {
        let wires = port_end(alloc, sources, port)?;
        return Ok(wires);
    }
    unreachable!()
}

/// A copy of the wires of what takes from an edge of a plan: it puts to its responses, and takes from its
/// requests.
pub(crate) fn taker_of(
    alloc: Global,
    plan: &Plan,
    edge: usize,
    leaves: &[LeafWires],
    sinks: &[EndWires],
) -> Result<EndWires, Memory>
    requires sound { IsSound plan.now }
    requires edge { edge < length plan.now.edges }
    requires leaves { HaveEnds plan.now leaves.now }
    requires sinks { length sinks.now ≡ length plan.now.sinks }
    ensures { IfOk result (IsTakerEnd plan.now edge leaves.now sinks.now) }
{
    if let Some(at) = leaf_with(plan.leaves.as_slice(), Side::Ins, edge) {
        let own = &leaves[at.leaf];
        let puts = own.put_d.as_slice();
        let takes = own.take_a.as_slice();
        let wires = end_at(alloc, puts, takes, at.place)?;
        return Ok(wires);
    }
    if let Some(port) = port_with(plan.sinks.as_slice(), edge) {
        let wires = port_end(alloc, sinks, port)?;
        return Ok(wires);
    }
    unreachable!()
}
