ghost use Rattle.std.specs.Prelude.{◌≡◌, ◌≤◌, map, length, All, IfOk, slice_get};
ghost use Rattle.std.specs.Option.{option_copied};
ghost use Rattle.tl_edge.specs.Plans.{edge_at, ins_of, bus_width};
ghost use Rattle.tl_edge.specs.SoundPlans.{ids_of};
ghost use Rattle.flow_core.specs.Built as spec;
ghost use Rattle.flow_core.specs.Built.{AreAll, IsBuilt, IsSmallA, IsSmallD};
ghost use Rattle.flow_core.specs.Leaves.{first_edge};

use crate::crossing::{AllGates, Fixed, Passing, Way, leaf_down, leaf_up};
use crate::locks::Gates;
use crate::queue::Queues;
use dip_lists::{Items, Memory};
use dip_sets::assign_ranges;
use std::alloc::Global;
use tl_edge::{ABeat, DBeat, Leaf, Plan, Tag};
use tl_params::{Numbers, Template};

// How many ids an edge has, by its number.
fn ids_at(plan: &Plan, edge: u32) -> u32
    ensures { result ≡ (edge_at plan.now edge).ids }
{
    match plan.edges.get(edge as usize) {
        None => 0,
        Some(on) => on.ids,
    }
}

// The bytes of an edge's bus, by its number.
fn width_at(plan: &Plan, edge: u32) -> u32
    ensures { result ≡ bus_width (edge_at plan.now edge) }
{
    match plan.edges.get(edge as usize) {
        None => 0,
        Some(on) => on.bundle.data_bytes,
    }
}

// How many ids each edge above a leaf has.
fn id_counts(alloc: Global, plan: &Plan, leaf: &Leaf) -> Result<Numbers, Memory>
    ensures { IfOk result (λ counts. counts ≡ ids_of (ins_of plan.now leaf.now)) }
{
    let mut counts = Items::new(alloc);
    for edge in leaf.ins.as_slice() {
        counts.push(ids_at(plan, *edge))?;
    }
    Ok(counts)
}

// The bytes of the bus of a leaf's first input.
fn first_width(plan: &Plan, leaf: &Leaf) -> u32
    ensures { result ≡ bus_width (first_edge (ins_of plan.now leaf.now)) }
{
    match leaf.ins.get(0).copied() {
        None => 0,
        Some(edge) => width_at(plan, edge),
    }
}

// What of a leaf stays the same.
fn fixed_of(alloc: Global, plan: &Plan, leaf: &Leaf) -> Result<Fixed, Memory>
    requires few { length leaf.now.ins ≤ 1024 }
    requires ids { All (λ ids. ids ≤ 1024) (ids_of (ins_of plan.now leaf.now)) }
    ensures { IfOk result (λ fixed. fixed ≡ spec.fixed_of plan.now leaf.now) }
{
    let counts = id_counts(alloc, plan, leaf)?;
    let ranges = assign_ranges(alloc, counts.as_slice())?;
    let width = first_width(plan, leaf);
    Ok(Fixed { ranges, width })
}

/// What of each leaf of a plan stays the same.
pub(crate) fn fixed_leaves(alloc: Global, plan: &Plan) -> Result<Items<Fixed>, Memory>
    requires { IsBuilt plan.now }
    ensures { IfOk result (λ fixed. fixed ≡ map (spec.fixed_of plan.now) plan.now.leaves) }
{
    let mut fixed = Items::new(alloc);
    for leaf in plan.leaves.as_slice() {
        fixed.push(fixed_of(alloc, plan, leaf)?)?;
    }
    Ok(fixed)
}

/// The gates of a leaf, if it is a crossbar.
pub(crate) fn kept_gates<'g>(plan: &Plan, gates: &'g AllGates, leaf: u32) -> Option<&'g Gates>
    ensures { option_copied result ≡ spec.kept_gates plan.now gates.now leaf }
{
    match plan.leaves.get(leaf as usize) {
        None => None,
        Some(at) => match at.template {
            Template::Xbar => gates.of(leaf),
            _ => None,
        },
    }
}

// The edge of a leaf's input.
fn in_edge(leaf: &Leaf, input: u32) -> Option<u32>
    ensures { result ≡ slice_get leaf.now.ins input }
{
    leaf.ins.get(input as usize).copied()
}

// The edge of a leaf's output.
fn out_edge(leaf: &Leaf, output: u32) -> Option<u32>
    ensures { result ≡ slice_get leaf.now.outs output }
{
    leaf.outs.get(output as usize).copied()
}

/// What passes a leaf from an input to an output, if something does: for a leaf, an input or an output that
/// isn't there, nothing.
pub(crate) fn passing_down(
    plan: &Plan,
    fixed: &Items<Fixed>,
    gates: &AllGates,
    queues: &Queues<(ABeat, Tag)>,
    leaf: u32,
    way: Way,
) -> Option<Passing<(ABeat, Tag)>>
    requires built { IsBuilt plan.now }
    requires fixed { fixed.now ≡ map (spec.fixed_of plan.now) plan.now.leaves }
    requires small { AreAll (IsSmallA plan.now) queues.now }
    ensures { result ≡ spec.passing_down plan.now gates.now queues.now leaf way.input way.output way.id }
{
    let at = plan.leaves.get(leaf as usize)?;
    let kept = fixed.get(leaf as usize)?;
    let own = gates.of(leaf)?;
    let from = in_edge(at, way.input)?;
    let to = out_edge(at, way.output)?;
    let (beat, tag) = queues.first(from)?;
    let (beat, gate) = leaf_down(plan, at, kept, own, way, beat)?;
    let beat = (beat, tag);
    Some(Passing {
        from,
        to,
        beat,
        gate,
    })
}

/// What passes a leaf from an output to an input, if something does.
pub(crate) fn passing_up(
    plan: &Plan,
    fixed: &Items<Fixed>,
    gates: &AllGates,
    queues: &Queues<(DBeat, Tag)>,
    leaf: u32,
    way: Way,
) -> Option<Passing<(DBeat, Tag)>>
    requires built { IsBuilt plan.now }
    requires fixed { fixed.now ≡ map (spec.fixed_of plan.now) plan.now.leaves }
    requires small { AreAll IsSmallD queues.now }
    ensures { result ≡ spec.passing_up plan.now gates.now queues.now leaf way.input way.output }
{
    let at = plan.leaves.get(leaf as usize)?;
    let kept = fixed.get(leaf as usize)?;
    let own = gates.of(leaf)?;
    let from = out_edge(at, way.output)?;
    let to = in_edge(at, way.input)?;
    let (beat, tag) = queues.first(from)?;
    let (beat, gate) = leaf_up(plan, at, kept, own, way, beat)?;
    let beat = (beat, tag);
    Some(Passing {
        from,
        to,
        beat,
        gate,
    })
}
