ghost use Rattle.std.specs.Prelude.{◌≡◌, ◌∷◌, [], ◌&&◌, IfOk, length};
ghost use Rattle.tl_edge.specs.SoundPlans.{IsSound};
ghost use Rattle.tl_params.specs.declared.ops.Template.TheVariants.{Buffer};
ghost use Rattle.net_build.specs.Values.{Adds, Tells, high};
ghost use Rattle.net_queue.specs.Leaves.{
  AreEdges,
  AreWiresOf,
  IsLeaf,
  IsOfTemplate,
  IsPutInto,
  DoneFitsAt,
  ins_at,
  outs_at,
};
ghost use Rattle.net_queue.specs.Queues.{IsOpen};
ghost use Rattle.net_queue.specs.Rows.{KeepsRow, row_widths};
ghost use Rattle.net_buffer.specs.Buffers.{buffer_machine};

use dip_lists::{Items, Memory};
use net_build::{Builder, both};
use net_queue::{EdgeWires, LeafWires, Put, Queue, fit_row};
use std::alloc::Global;
use tl_edge::Plan;

// A list of one item.
fn one<T: Drop>(alloc: Global, item: T) -> Result<Items<T>, Memory>
    ensures { IfOk result (λ items. items ≡ item ∷ []) }
{
    let mut items = Items::new(alloc);
    items.push(item)?;
    Ok(items)
}

// Where there are a head and room, the head goes from one queue to the other.
#[tactic(auto, using(net_build::proofs::Steps::steps))]
fn pass(alloc: Global, builder: &mut Builder, from: &Queue, to: &Queue) -> Result<Put, Memory>
    requires open { IsOpen builder.old from.now × IsOpen builder.old to.now }
    requires long { length from.now.head ≡ length to.now.head }
    ensures adds { IfOk result (λ _. Adds builder.old builder.new) }
    ensures into { IfOk result (λ p. IsPutInto builder.new to.now p) }
    ensures tells { IfOk result
        (λ p. Tells builder.new p.valid (λ v. high v from.now.valid && high v to.now.ready)) }
    ensures keeps { IfOk result
        (λ p. KeepsRow builder.new from.now.head (row_widths to.now.head) p.items) }
{
    let valid = both(builder, from.valid, to.ready)?;
    let items = fit_row(alloc, builder, from.head.as_slice(), to.head.as_slice())?;
    Ok(Put { valid, items })
}

/// Builds a buffer between the open queues of its in edge and its out edge: where there are a head and room,
/// a request goes down and a response up, as long as what is put fits the wires of its edge. It adds no port
/// and drives no earlier register.
pub fn build_buffer(
    alloc: Global,
    builder: &mut Builder,
    plan: &Plan,
    leaf: u32,
    ins: &[EdgeWires],
    outs: &[EdgeWires],
) -> Result<LeafWires, Memory>
    requires sound { IsSound plan.now }
    requires leaf { IsOfTemplate plan.now leaf Buffer }
    requires ins { AreEdges builder.old plan.now (ins_at plan.now leaf) ins.now }
    requires outs { AreEdges builder.old plan.now (outs_at plan.now leaf) outs.now }
    ensures adds { IfOk result (λ _. Adds builder.old builder.new) }
    ensures wires { IfOk result (λ w. AreWiresOf builder.new ins.now outs.now w) }
    ensures leaf { IfOk result
        (λ w. IsLeaf builder.new ins.now outs.now w buffer_machine
        (DoneFitsAt plan.now leaf buffer_machine)) }
{
    let above = &ins[0];
    let below = &outs[0];
    let down = pass(alloc, builder, &above.a, &below.a)?;
    let up = pass(alloc, builder, &below.d, &above.d)?;
    let take_a = one(alloc, down.valid)?;
    let take_d = one(alloc, up.valid)?;
    let put_a = one(alloc, down)?;
    let put_d = one(alloc, up)?;
    Ok(LeafWires {
        take_a,
        put_a,
        take_d,
        put_d,
    })
}
