ghost use Rattle.std.specs.Prelude.{IfOk};
ghost use Rattle.tl_edge.specs.SoundPlans.{IsSound, IsSoundEdge};
ghost use Rattle.net_build.specs.Registers.{numbers};
ghost use Rattle.net_build.specs.Values.{Opens};
ghost use Rattle.net_queue.specs.Leaves.{IsEdge};
ghost use Rattle.net_leaves.specs.OpenEdges.{AreOpenEdges, all_registers, edge_registers};

use dip_lists::{Items, Memory};
use net_build::Builder;
use net_queue::{EdgeWires, open_queue};
use std::alloc::Global;
use tl_edge::{Plan, PlanEdge, a_widths, d_widths};

// Opens both queues of an edge.
fn open_edge(builder: &mut Builder, edge: &PlanEdge) -> Result<EdgeWires, Memory>
    requires { IsSoundEdge edge.now }
    ensures opens { IfOk result
        (λ wires. Opens builder.old builder.new (numbers (edge_registers wires))) }
    ensures edge { IfOk result (λ wires. IsEdge builder.new edge.now wires) }
{
    let requests = a_widths(edge.bundle);
    let responses = d_widths(edge.bundle);
    let a = open_queue(builder, &requests)?;
    let d = open_queue(builder, &responses)?;
    Ok(EdgeWires { a, d })
}

/// Opens both queues of each edge of a plan, in order.
pub fn open_edges(
    alloc: Global,
    builder: &mut Builder,
    plan: &Plan,
) -> Result<Items<EdgeWires>, Memory>
    requires sound { IsSound plan.now }
    ensures opens { IfOk result
        (λ edges. Opens builder.old builder.new (numbers (all_registers edges))) }
    ensures edges { IfOk result (λ edges. AreOpenEdges builder.new plan.now edges) }
{
    let stated = plan.edges.as_slice();
    let mut edges = Items::new(alloc);
    for edge in stated {
        let wires = open_edge(builder, edge)?;
        edges.push(wires)?;
    }
    Ok(edges)
}
