ghost use Rattle.std.specs.Prelude.{◌≡◌, [], OnOk, length};
ghost use Rattle.tl_edge.specs.SoundPlans.{IsSound};
ghost use Rattle.net_build.specs.Built.{undriven};
ghost use Rattle.net_build.specs.Registers.{DrivesAll, numbers};
ghost use Rattle.net_joins.specs.Closing.{AreClosed, ArePutInto};
ghost use Rattle.net_joins.specs.Finding.{IsEndFor};
ghost use Rattle.net_joins.specs.Firsts.{WaitFirst, DrivesFirst};
ghost use Rattle.net_leaves.specs.LeafWiring.{AreLeavesInWires};
ghost use Rattle.net_leaves.specs.OpenEdges.{AreOpenEdges, all_registers, edge_registers};
ghost use Rattle.net_parts.specs.Wired.{IsClosedEdge};
ghost use Rattle.net_queue.specs.Queues.{IsOpen};

use crate::ends::{giver_of, taker_of};
use dip_lists::{Duplicate, Memory};
use net_build::Builder;
use net_parts::EndWires;
use net_queue::{EdgeWires, LeafWires, close_queue};
use std::alloc::Global;
use tl_edge::Plan;

// Closes both queues of an edge, whose registers are the first that aren't driven yet.
fn close_edge(
    alloc: Global,
    builder: &mut Builder,
    edge: &EdgeWires,
    giver: &EndWires,
    taker: &EndWires,
) -> Result<(), Memory>
    requires open { IsOpen builder.old edge.now.a × IsOpen builder.old edge.now.d }
    requires first { WaitFirst builder.old (edge_registers edge.now) }
    requires giver { IsEndFor builder.old edge.now.a giver.now }
    requires taker { IsEndFor builder.old edge.now.d taker.now }
    ensures drives { OnOk result
        (DrivesFirst builder.old builder.new (length (edge_registers edge.now))) }
    ensures closed { OnOk result (IsClosedEdge builder.new edge.now giver.now taker.now) }
{
    let a = edge.a.duplicate(alloc)?;
    let d = edge.d.duplicate(alloc)?;
    let requests = giver.put.items.as_slice();
    let responses = taker.put.items.as_slice();
    close_queue(alloc, builder, a, giver.put.valid, requests, taker.take)?;
    close_queue(alloc, builder, d, taker.put.valid, responses, giver.take)?;
    Ok(())
}

/// Closes both queues of each edge of a plan between what gives to it and what takes from it, where all
/// registers that aren't driven yet are theirs. It adds no port, and leaves no register that isn't driven.
pub fn close_edges(
    alloc: Global,
    builder: &mut Builder,
    plan: &Plan,
    edges: &[EdgeWires],
    leaves: &[LeafWires],
    sources: &[EndWires],
    sinks: &[EndWires],
) -> Result<(), Memory>
    requires sound { IsSound plan.now }
    requires edges { AreOpenEdges builder.old plan.now edges.now }
    requires undriven { undriven builder.old ≡ numbers (all_registers edges.now) }
    requires leaves { AreLeavesInWires builder.old plan.now edges.now (length plan.now.leaves) leaves.now }
    requires sources { ArePutInto builder.old (λ e. e.a) edges.now plan.now.sources sources.now }
    requires sinks { ArePutInto builder.old (λ e. e.d) edges.now plan.now.sinks sinks.now }
    ensures drives { OnOk result (DrivesAll builder.old builder.new (numbers (all_registers edges.now))) }
    ensures none { OnOk result (undriven builder.new ≡ []) }
    ensures closed { OnOk result
        (AreClosed builder.new plan.now edges.now leaves.now sources.now sinks.now
        (length plan.now.edges)) }
{
    for edge in 0..edges.len() {
        let giver = giver_of(alloc, plan, edge, leaves, sources)?;
        let taker = taker_of(alloc, plan, edge, leaves, sinks)?;
        close_edge(alloc, builder, &edges[edge], &giver, &taker)?;
    }
    Ok(())
}
