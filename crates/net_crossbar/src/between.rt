ghost use Rattle.std.specs.Prelude.{◌≡◌, ◌≤◌, ◌<◌, IfOk, length, map};
ghost use Rattle.tl_edge.specs.Plans.{bus_width, edge_at};
ghost use Rattle.tl_edge.specs.SoundPlans.{IsSound, IsSoundEdge};
ghost use Rattle.tl_params.specs.declared.ops.Template.TheVariants.{Xbar};
ghost use Rattle.net_build.specs.Values.{Adds};
ghost use Rattle.net_choice.specs.Choice.{policy_if};
ghost use Rattle.net_queue.specs.Leaves.{AreEdges, AreWiresOf, IsLeaf, IsOfTemplate, ins_at, outs_at};
ghost use Rattle.net_crossbar.specs.Places.{AllAt};
ghost use Rattle.net_crossbar.specs.PlanCrossbars.{FitsPlanCrossbar, plan_crossbar};

use crate::crossbar::build_crossbar;
use dip_lists::{Items, Memory};
use dip_sets::assign_ranges;
use net_build::Builder;
use net_queue::{EdgeWires, LeafWires};
use std::alloc::Global;
use tl_edge::Plan;
use tl_params::Policy;

// Whether turns go round.
fn goes_round(policy: Policy) -> bool
    ensures { policy_if result ≡ policy }
{
    matches!(policy, Policy::Round)
}

// How many ids an edge has, by its number.
fn ids_at(plan: &Plan, edge: u32) -> u32
    ensures { result ≡ (edge_at plan.now edge).ids }
{
    match plan.edges.get(edge as usize) {
        None => 0,
        Some(on) => on.ids,
    }
}

// The bytes of an edge's bus, by its number.
fn width_at(plan: &Plan, edge: u32) -> u32
    ensures { result ≡ bus_width (edge_at plan.now edge) }
{
    match plan.edges.get(edge as usize) {
        None => 0,
        Some(on) => on.bundle.data_bytes,
    }
}

// How many ids each of some edges has.
fn id_counts(alloc: Global, plan: &Plan, edges: &[u32]) -> Result<Items<u32>, Memory>
    ensures { IfOk result (λ counts. counts ≡ map (λ edge. (edge_at plan.now edge).ids) edges.now) }
{
    let mut counts: Items<u32> = Items::new(alloc);
    for place in 0..edges.len() {
        counts.push(ids_at(plan, edges[place]))?;
    }
    Ok(counts)
}

/// Builds the crossbar of a plan between the open queues of edges with these numbers, as long as what is put
/// fits the wires of its edge. It adds no port and drives no earlier register.
pub fn build_between(
    alloc: Global,
    builder: &mut Builder,
    plan: &Plan,
    in_edges: &[u32],
    out_edges: &[u32],
    ins: &[EdgeWires],
    outs: &[EdgeWires],
) -> Result<LeafWires, Memory>
    requires few { length in_edges.now ≤ 1024 }
    requires some { 0 < length in_edges.now × 0 < length out_edges.now }
    requires sound { AllAt (λ k edge. IsSoundEdge (edge_at plan.now edge)) in_edges.now }
    requires ins { AreEdges builder.old plan.now in_edges.now ins.now }
    requires outs { AreEdges builder.old plan.now out_edges.now outs.now }
    ensures adds { IfOk result (λ _. Adds builder.old builder.new) }
    ensures wires { IfOk result (λ w. AreWiresOf builder.new ins.now outs.now w) }
    ensures leaf { IfOk result (λ w. IsLeaf builder.new ins.now outs.now w
        (plan_crossbar plan.now in_edges.now out_edges.now)
        (FitsPlanCrossbar plan.now in_edges.now out_edges.now)) }
{
    let counts = id_counts(alloc, plan, in_edges)?;
    let ranges = assign_ranges(alloc, counts.as_slice())?;
    let bytes = width_at(plan, in_edges[0]);
    let round = goes_round(plan.policy);
    let wires = build_crossbar(
        alloc,
        builder,
        round,
        bytes,
        plan,
        out_edges,
        ranges.as_slice(),
        ins,
        outs,
    )?;
    Ok(wires)
}

/// Builds the crossbar of a leaf between the open queues of its edges, as long as what is put fits the wires
/// of its edge. It adds no port and drives no earlier register.
pub fn build_xbar(
    alloc: Global,
    builder: &mut Builder,
    plan: &Plan,
    leaf: u32,
    ins: &[EdgeWires],
    outs: &[EdgeWires],
) -> Result<LeafWires, Memory>
    requires sound { IsSound plan.now }
    requires leaf { IsOfTemplate plan.now leaf Xbar }
    requires ins { AreEdges builder.old plan.now (ins_at plan.now leaf) ins.now }
    requires outs { AreEdges builder.old plan.now (outs_at plan.now leaf) outs.now }
    ensures adds { IfOk result (λ _. Adds builder.old builder.new) }
    ensures wires { IfOk result (λ w. AreWiresOf builder.new ins.now outs.now w) }
    ensures leaf { IfOk result (λ w. IsLeaf builder.new ins.now outs.now w
        (plan_crossbar plan.now (ins_at plan.now leaf) (outs_at plan.now leaf))
        (FitsPlanCrossbar plan.now (ins_at plan.now leaf) (outs_at plan.now leaf))) }
{
    let leaves = plan.leaves.as_slice();
    let at = &leaves[leaf as usize];
    let in_edges = at.ins.as_slice();
    let out_edges = at.outs.as_slice();
    let wires = build_between(alloc, builder, plan, in_edges, out_edges, ins, outs)?;
    Ok(wires)
}
