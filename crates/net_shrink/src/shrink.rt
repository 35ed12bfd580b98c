ghost use Rattle.std.specs.Prelude.{◌≡◌, ◌∷◌, [], IfOk};
ghost use Rattle.tl_params.specs.declared.ops.Template.TheVariants.{Shrinker};
ghost use Rattle.tl_edge.specs.Plans.{bus_width, edge_at};
ghost use Rattle.tl_edge.specs.SoundPlans.{IsSound};
ghost use Rattle.net_build.specs.Values.{Adds};
ghost use Rattle.net_queue.specs.Leaves.{AreEdges, AreWiresOf, IsLeaf, IsOfTemplate, ins_at, outs_at};
ghost use Rattle.net_shrink.specs.Shrinkers.{FitsShrinker, new_id_count, shrinker_bus, shrinker_machine};

use crate::between::shrink_between;
use crate::types::Shrunk;
use dip_lists::{Items, Memory};
use net_build::Builder;
use net_queue::{EdgeWires, LeafWires};
use std::alloc::Global;
use tl_edge::Plan;
use tl_params::shrink_argument;

// A list of one item.
fn one<T: Drop>(alloc: Global, item: T) -> Result<Items<T>, Memory>
    ensures { IfOk result (λ items. items ≡ item ∷ []) }
{
    let mut items = Items::new(alloc);
    items.push(item)?;
    Ok(items)
}

// How many new ids a shrinker has.
fn new_ids(plan: &Plan, leaf: u32) -> u32
    ensures { result ≡ new_id_count plan.now leaf }
{
    match plan.leaves.get(leaf as usize) {
        None => 0,
        Some(at) => match shrink_argument(&at.args) {
            None => 0,
            Some(ids) => ids,
        },
    }
}

// The bytes of the bus of an edge, by its number.
fn bus_at(plan: &Plan, edge: u32) -> u32
    ensures { result ≡ bus_width (edge_at plan.now edge) }
{
    match plan.edges.get(edge as usize) {
        None => 0,
        Some(on) => on.bundle.data_bytes,
    }
}

// The bytes of the bus of the first edge above a leaf.
fn bus_above(plan: &Plan, leaf: u32) -> u32
    ensures { result ≡ shrinker_bus plan.now leaf }
{
    match plan.leaves.get(leaf as usize) {
        None => 0,
        Some(at) => match at.ins.get(0) {
            None => 0,
            Some(edge) => bus_at(plan, *edge),
        },
    }
}

/// Builds a shrinker between the open queues of its in edge and its out edge, as long as what is put fits the
/// wires of its edge, the id of each response is one that a request has, and no message has more than 256
/// bytes. A request gets the lowest free id, and its response gives it back with its last beat. It adds no
/// port and drives no earlier register.
pub fn build_shrink(
    alloc: Global,
    builder: &mut Builder,
    plan: &Plan,
    leaf: u32,
    ins: &[EdgeWires],
    outs: &[EdgeWires],
) -> Result<LeafWires, Memory>
    requires sound { IsSound plan.now }
    requires leaf { IsOfTemplate plan.now leaf Shrinker }
    requires ins { AreEdges builder.old plan.now (ins_at plan.now leaf) ins.now }
    requires outs { AreEdges builder.old plan.now (outs_at plan.now leaf) outs.now }
    ensures adds { IfOk result (λ _. Adds builder.old builder.new) }
    ensures wires { IfOk result (λ w. AreWiresOf builder.new ins.now outs.now w) }
    ensures leaf { IfOk result
        (λ w. IsLeaf builder.new ins.now outs.now w (shrinker_machine plan.now leaf)
        (FitsShrinker plan.now leaf)) }
{
    let count = new_ids(plan, leaf) as usize;
    let bus = bus_above(plan, leaf);
    let above = &ins[0];
    let below = &outs[0];
    let shrunk = shrink_between(alloc, builder, count, bus, above, below)?;
    let Shrunk { down, up, .. } = shrunk;
    let take_a = one(alloc, down.valid)?;
    let take_d = one(alloc, up.valid)?;
    let put_a = one(alloc, down)?;
    let put_d = one(alloc, up)?;
    Ok(LeafWires {
        take_a,
        put_a,
        take_d,
        put_d,
    })
}
