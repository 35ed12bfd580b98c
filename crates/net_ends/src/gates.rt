ghost use Rattle.std.specs.Prelude.{IfOk};
ghost use Rattle.tl_edge.specs.SoundPlans.{IsSound};
ghost use Rattle.net_build.specs.Values.{Adds};
ghost use Rattle.net_queue.specs.Queues.{IsOpen};
ghost use Rattle.net_queue.specs.Rows.{row_widths};
ghost use Rattle.net_ends.specs.Ends.{
  AreOfferEnds,
  AreSinkEnds,
  AreSourceEnds,
  IsEnd,
  IsGated,
  sink_widths,
  source_widths,
};
ghost use Rattle.net_leaves.specs.OpenEdges.{AreOpenEdges};

use dip_lists::{Items, Memory};
use net_build::{Builder, both};
use net_parts::{EndWires, Ends};
use net_queue::{EdgeWires, Put, Queue};
use std::alloc::Global;
use tl_edge::Plan;

// What passes at one port: what it offers goes into one queue where there is room, and it takes the head of
// the other where there is one.
#[tactic(auto, using(net_build::proofs::Steps::steps))]
fn gate_port(
    alloc: Global,
    builder: &mut Builder,
    onto: &Queue,
    from: &Queue,
    offered: &EndWires,
) -> Result<EndWires, Memory>
    requires open { IsOpen builder.old onto.now × IsOpen builder.old from.now }
    requires offered { IsEnd builder.old (row_widths onto.now.head) offered.now }
    ensures adds { IfOk result (λ _. Adds builder.old builder.new) }
    ensures gated { IfOk result (λ end. IsGated builder.new onto.now from.now offered.now end) }
{
    let valid = both(builder, onto.ready, offered.put.valid)?;
    let take = both(builder, offered.take, from.valid)?;
    let items = offered.put.items.copy(alloc)?;
    Ok(EndWires {
        put: Put { valid, items },
        take,
    })
}

/// What passes at each source port: a request that it offers goes into its edge where there is room, and it
/// takes a response where there is one.
pub fn gate_sources(
    alloc: Global,
    builder: &mut Builder,
    plan: &Plan,
    edges: &[EdgeWires],
    offered: &[EndWires],
) -> Result<Ends, Memory>
    requires sound { IsSound plan.now }
    requires edges { AreOpenEdges builder.old plan.now edges.now }
    requires offered { AreOfferEnds builder.old (source_widths plan.now) plan.now.sources offered.now }
    ensures adds { IfOk result (λ _. Adds builder.old builder.new) }
    ensures ends { IfOk result
        (λ ends. AreSourceEnds builder.new plan.now.sources edges.now offered.now ends) }
{
    let ports = plan.sources.as_slice();
    let mut ends: Ends = Items::new(alloc);
    for port in 0..ports.len() {
        let at = &ports[port];
        let edge = &edges[at.edge as usize];
        let end = gate_port(alloc, builder, &edge.a, &edge.d, &offered[port])?;
        ends.push(end)?;
    }
    Ok(ends)
}

/// What passes at each sink port: a response that it offers goes into its edge where there is room, and it
/// takes a request where there is one.
pub fn gate_sinks(
    alloc: Global,
    builder: &mut Builder,
    plan: &Plan,
    edges: &[EdgeWires],
    offered: &[EndWires],
) -> Result<Ends, Memory>
    requires sound { IsSound plan.now }
    requires edges { AreOpenEdges builder.old plan.now edges.now }
    requires offered { AreOfferEnds builder.old (sink_widths plan.now) plan.now.sinks offered.now }
    ensures adds { IfOk result (λ _. Adds builder.old builder.new) }
    ensures ends { IfOk result
        (λ ends. AreSinkEnds builder.new plan.now.sinks edges.now offered.now ends) }
{
    let ports = plan.sinks.as_slice();
    let mut ends: Ends = Items::new(alloc);
    for port in 0..ports.len() {
        let at = &ports[port];
        let edge = &edges[at.edge as usize];
        let end = gate_port(alloc, builder, &edge.d, &edge.a, &offered[port])?;
        ends.push(end)?;
    }
    Ok(ends)
}
