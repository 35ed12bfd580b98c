ghost use Rattle.std.specs.Prelude.{◌≡◌, ◌∷◌, [], IfOk, map};
ghost use Rattle.tl_params.specs.declared.ops.Template.TheVariants.{Width};
ghost use Rattle.tl_edge.specs.Plans.{bus_width, edge_at};
ghost use Rattle.tl_edge.specs.SoundPlans.{IsSound};
ghost use Rattle.flow_core.specs.Leaves.{first_edge};
ghost use Rattle.net_build.specs.Values.{Adds};
ghost use Rattle.net_queue.specs.Leaves.{AreEdges, AreWiresOf, IsLeaf, IsOfTemplate, ins_at, outs_at};
ghost use Rattle.net_widget.specs.Widgets.{WidgetFits};
ghost use Rattle.net_width.specs.Between.{AreWidgetEnds, AreWidgetQueues, IsWidgetOf, wires_of};
ghost use Rattle.net_width.specs.PlanWidths.{plan_widget};

use crate::same::ends_same;
use crate::turning::ends_turning;
use crate::types::Ends;
use dip_lists::{Items, Memory};
use net_build::Builder;
use net_queue::{EdgeWires, LeafWires};
use std::alloc::Global;
use tl_edge::Plan;

// A list of one item.
fn one<T: Drop>(alloc: Global, item: T) -> Result<Items<T>, Memory>
    ensures { IfOk result (λ items. items ≡ item ∷ []) }
{
    let mut items = Items::new(alloc);
    items.push(item)?;
    Ok(items)
}

// What is taken and put, as the wires of a leaf with one in edge and one out edge.
fn wired(alloc: Global, ends: Ends) -> Result<LeafWires, Memory>
    ensures { IfOk result (λ w. w ≡ wires_of ends) }
{
    let Ends {
        take_a,
        put_a,
        take_d,
        put_d,
    } = ends;
    let takes_a = one(alloc, take_a)?;
    let puts_a = one(alloc, put_a)?;
    let takes_d = one(alloc, take_d)?;
    let puts_d = one(alloc, put_d)?;
    Ok(LeafWires {
        take_a: takes_a,
        put_a: puts_a,
        take_d: takes_d,
        put_d: puts_d,
    })
}

// The ids of an edge, by its number.
fn ids_at(plan: &Plan, edge: u32) -> u32
    ensures { result ≡ (edge_at plan.now edge).ids }
{
    match plan.edges.get(edge as usize) {
        None => 0,
        Some(on) => on.ids,
    }
}

// The bytes of the bus of an edge, by its number.
fn bus_at(plan: &Plan, edge: u32) -> u32
    ensures { result ≡ bus_width (edge_at plan.now edge) }
{
    match plan.edges.get(edge as usize) {
        None => 0,
        Some(on) => on.bundle.data_bytes,
    }
}

// The ids of the first edge above a leaf.
fn ids_above(plan: &Plan, leaf: u32) -> u32
    ensures { result ≡ (first_edge (map (edge_at plan.now) (ins_at plan.now leaf))).ids }
{
    match plan.leaves.get(leaf as usize) {
        None => 0,
        Some(at) => match at.ins.get(0) {
            None => 0,
            Some(edge) => ids_at(plan, *edge),
        },
    }
}

// The bytes of its bus.
fn bus_above(plan: &Plan, leaf: u32) -> u32
    ensures { result ≡ bus_width (first_edge (map (edge_at plan.now) (ins_at plan.now leaf))) }
{
    match plan.leaves.get(leaf as usize) {
        None => 0,
        Some(at) => match at.ins.get(0) {
            None => 0,
            Some(edge) => bus_at(plan, *edge),
        },
    }
}

// The bytes of the bus of the first edge below a leaf.
fn bus_below(plan: &Plan, leaf: u32) -> u32
    ensures { result ≡ bus_width (first_edge (map (edge_at plan.now) (outs_at plan.now leaf))) }
{
    match plan.leaves.get(leaf as usize) {
        None => 0,
        Some(at) => match at.outs.get(0) {
            None => 0,
            Some(edge) => bus_at(plan, *edge),
        },
    }
}

// Between buses of one width or of two, for so many ids.
fn ends_between(
    alloc: Global,
    builder: &mut Builder,
    count: usize,
    from: u32,
    to: u32,
    above: &EdgeWires,
    below: &EdgeWires,
) -> Result<Ends, Memory>
    requires queues { AreWidgetQueues builder.old count from to above.now below.now }
    ensures adds { IfOk result (λ _. Adds builder.old builder.new) }
    ensures ends { IfOk result (λ e. AreWidgetEnds builder.new above.now below.now e) }
    ensures widget { IfOk result (λ e. IsWidgetOf builder.new count from to above.now below.now e) }
{
    if from == to {
        let ends = ends_same(alloc, builder, above, below)?;
        Ok(ends)
    } else {
        let ends = ends_turning(alloc, builder, count, from, to, above, below)?;
        Ok(ends)
    }
}

/// Builds a width adapter between the open queues of its in edge and its out edge, as long as heads are
/// placed and their messages unfinished, no request begins with the id of the response at the head, and
/// what is put fits the wires of its edge. Between buses of one width it is a buffer; else it keeps
/// three bits of an address for each id, counts narrow beats and collects wide ones. It adds no port and
/// drives no earlier register.
pub fn build_widget(
    alloc: Global,
    builder: &mut Builder,
    plan: &Plan,
    leaf: u32,
    ins: &[EdgeWires],
    outs: &[EdgeWires],
) -> Result<LeafWires, Memory>
    requires sound { IsSound plan.now }
    requires leaf { IsOfTemplate plan.now leaf Width }
    requires ins { AreEdges builder.old plan.now (ins_at plan.now leaf) ins.now }
    requires outs { AreEdges builder.old plan.now (outs_at plan.now leaf) outs.now }
    ensures adds { IfOk result (λ _. Adds builder.old builder.new) }
    ensures wires { IfOk result (λ w. AreWiresOf builder.new ins.now outs.now w) }
    ensures leaf { IfOk result
        (λ w. IsLeaf builder.new ins.now outs.now w (plan_widget plan.now leaf)
        (WidgetFits plan.now leaf (plan_widget plan.now leaf))) }
{
    let above = &ins[0];
    let below = &outs[0];
    let count = ids_above(plan, leaf) as usize;
    let from = bus_above(plan, leaf);
    let to = bus_below(plan, leaf);
    let ends = ends_between(alloc, builder, count, from, to, above, below)?;
    let wires = wired(alloc, ends)?;
    Ok(wires)
}
