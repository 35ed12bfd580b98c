ghost use Rattle.std.specs.Prelude.{◌≡◌, ◌&&◌, IfOk, length};
ghost use Rattle.tl_edge.specs.declared.plan.PlanEdge.{PlanEdge};
ghost use Rattle.tl_edge.specs.Plans.{bus_width};
ghost use Rattle.net_build.specs.Values.{Adds, Tells, high};
ghost use Rattle.net_queue.specs.Leaves.{IsPutInto};
ghost use Rattle.net_queue.specs.Queues.{IsOpen};
ghost use Rattle.net_queue.specs.Rows.{KeepsRow, row_widths};
ghost use Rattle.net_width.specs.Between.{AreWidgetEnds, AreOpen, IsWidgetBetween};

use crate::types::Ends;
use dip_lists::Memory;
use net_build::{Builder, both};
use net_queue::{EdgeWires, Put, Queue, fit_row};
use std::alloc::Global;

// Where there are a head and room, the head goes from one queue to the other.
#[tactic(auto, using(net_build::proofs::Steps::steps))]
fn pass(alloc: Global, builder: &mut Builder, from: &Queue, to: &Queue) -> Result<Put, Memory>
    requires open { IsOpen builder.old from.now × IsOpen builder.old to.now }
    requires long { length from.now.head ≡ length to.now.head }
    ensures adds { IfOk result (λ _. Adds builder.old builder.new) }
    ensures into { IfOk result (λ p. IsPutInto builder.new to.now p) }
    ensures tells { IfOk result
        (λ p. Tells builder.new p.valid (λ v. high v from.now.valid && high v to.now.ready)) }
    ensures keeps { IfOk result
        (λ p. KeepsRow builder.new from.now.head (row_widths to.now.head) p.items) }
{
    let valid = both(builder, from.valid, to.ready)?;
    let items = fit_row(alloc, builder, from.head.as_slice(), to.head.as_slice())?;
    Ok(Put { valid, items })
}

// Between buses of one width: wires alone.
pub(crate) fn ends_same(
    alloc: Global,
    builder: &mut Builder,
    above: &EdgeWires,
    below: &EdgeWires,
) -> Result<Ends, Memory>
    requires open { AreOpen builder.old above.now below.now }
    ensures adds { IfOk result (λ _. Adds builder.old builder.new) }
    ensures ends { IfOk result (λ e. AreWidgetEnds builder.new above.now below.now e) }
    ensures widget { IfOk result (λ e. (ein eout : PlanEdge) → bus_width ein ≡ bus_width eout
        → IsWidgetBetween builder.new ein eout above.now below.now e) }
{
    let down = pass(alloc, builder, &above.a, &below.a)?;
    let up = pass(alloc, builder, &below.d, &above.d)?;
    Ok(Ends {
        take_a: down.valid,
        put_a: down,
        take_d: up.valid,
        put_d: up,
    })
}
