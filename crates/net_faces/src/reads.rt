ghost use Rattle.std.specs.Prelude.{◌≡◌, ◌∷◌, ◌+◌, IfOk, length};
ghost use Rattle.tl_edge.specs.SoundPlans.{IsSound, IsSoundEdge};
ghost use Rattle.net_build.specs.Registers.{AreWires};
ghost use Rattle.net_build.specs.Values.{Adds};
ghost use Rattle.net_queue.specs.Leaves.{IsEdge};
ghost use Rattle.net_queue.specs.Queues.{IsOpen};
ghost use Rattle.net_queue.specs.Rows.{row_widths};
ghost use Rattle.net_leaves.specs.OpenEdges.{AreOpenEdges};
ghost use Rattle.net_faces.specs.Showing.{
  AreSinkRows,
  AreSourceRows,
  ShowsHead,
  ShowsSink,
  ShowsSource,
};

use crate::ports::edge_at;
use crate::types::Shown;
use dip_lists::{Items, Memory};
use net_build::{Builder, Wire, Wires};
use net_queue::{EdgeWires, Queue, append};
use std::alloc::Global;
use tl_edge::{Plan, PlanEdge, a_widths, d_widths};

// A wire, and behind it others.
fn before(alloc: Global, wire: Wire, others: &[Wire]) -> Result<Wires, Memory>
    ensures { IfOk result (λ row. row ≡ wire ∷ others.now) }
{
    let mut row: Wires = Items::new(alloc);
    row.push(wire)?;
    append(&mut row, others)?;
    Ok(row)
}

// The fields of a queue's head, all 0 where there is none.
fn read_fields(
    alloc: Global,
    builder: &mut Builder,
    queue: &Queue,
    widths: &[u32],
) -> Result<Wires, Memory>
    requires open { IsOpen builder.old queue.now }
    requires widths { row_widths queue.now.head ≡ widths.now }
    ensures adds { IfOk result (λ _. Adds builder.old builder.new) }
    ensures long { IfOk result (λ row. length row ≡ length widths.now) }
    ensures wires { IfOk result (λ row. AreWires builder.new widths.now row) }
    ensures shows { IfOk result (λ row. ShowsHead builder.new queue.now (queue.now.valid ∷ row)) }
{
    let mut picks: Wires = Items::new(alloc);
    picks.push(queue.valid)?;
    let mut rows: Items<Wires> = Items::new(alloc);
    let head = queue.head.copy(alloc)?;
    rows.push(head)?;
    let fields = builder.choose_row(picks.as_slice(), rows.as_slice(), widths)?;
    Ok(fields)
}

// Whether a queue has a head, and the head's fields, all 0 where there is none.
fn read_head(
    alloc: Global,
    builder: &mut Builder,
    queue: &Queue,
    widths: &[u32],
) -> Result<Wires, Memory>
    requires open { IsOpen builder.old queue.now }
    requires widths { row_widths queue.now.head ≡ widths.now }
    ensures adds { IfOk result (λ _. Adds builder.old builder.new) }
    ensures long { IfOk result (λ row. length row ≡ 1 + length widths.now) }
    ensures wires { IfOk result (λ row. AreWires builder.new (1 ∷ widths.now) row) }
    ensures shows { IfOk result (λ row. ShowsHead builder.new queue.now row) }
{
    let fields = read_fields(alloc, builder, queue, widths)?;
    let row = before(alloc, queue.valid, fields.as_slice())?;
    Ok(row)
}

// What a source port sees of its edge: whether there is room for a request, and the head of the responses.
fn read_source(
    alloc: Global,
    builder: &mut Builder,
    edge: &PlanEdge,
    wires: &EdgeWires,
) -> Result<Wires, Memory>
    requires sound { IsSoundEdge edge.now }
    requires open { IsEdge builder.old edge.now wires.now }
    ensures adds { IfOk result (λ _. Adds builder.old builder.new) }
    ensures shows { IfOk result (λ row. ShowsSource builder.new edge.now wires.now row) }
{
    let widths = d_widths(edge.bundle);
    let head = read_head(alloc, builder, &wires.d, &widths)?;
    let row = before(alloc, wires.a.ready, head.as_slice())?;
    Ok(row)
}

// What a sink port sees of its edge: the head of the requests, and whether there is room for a response.
fn read_sink(
    alloc: Global,
    builder: &mut Builder,
    edge: &PlanEdge,
    wires: &EdgeWires,
) -> Result<Wires, Memory>
    requires sound { IsSoundEdge edge.now }
    requires open { IsEdge builder.old edge.now wires.now }
    ensures adds { IfOk result (λ _. Adds builder.old builder.new) }
    ensures shows { IfOk result (λ row. ShowsSink builder.new edge.now wires.now row) }
{
    let widths = a_widths(edge.bundle);
    let mut row = read_head(alloc, builder, &wires.a, &widths)?;
    row.push(wires.d.ready)?;
    Ok(row)
}

// What each source port sees of its edge.
fn read_sources(
    alloc: Global,
    builder: &mut Builder,
    plan: &Plan,
    edges: &[EdgeWires],
) -> Result<Items<Wires>, Memory>
    requires sound { IsSound plan.now }
    requires edges { AreOpenEdges builder.old plan.now edges.now }
    ensures adds { IfOk result (λ _. Adds builder.old builder.new) }
    ensures rows { IfOk result (λ rows. AreSourceRows builder.new plan.now edges.now rows) }
{
    let mut rows: Items<Wires> = Items::new(alloc);
    for at in plan.sources.as_slice() {
        let edge = edge_at(plan, at.edge);
        let row = read_source(alloc, builder, edge, &edges[at.edge as usize])?;
        rows.push(row)?;
    }
    Ok(rows)
}

// What each sink port sees of its edge.
fn read_sinks(
    alloc: Global,
    builder: &mut Builder,
    plan: &Plan,
    edges: &[EdgeWires],
) -> Result<Items<Wires>, Memory>
    requires sound { IsSound plan.now }
    requires edges { AreOpenEdges builder.old plan.now edges.now }
    ensures adds { IfOk result (λ _. Adds builder.old builder.new) }
    ensures rows { IfOk result (λ rows. AreSinkRows builder.new plan.now edges.now rows) }
{
    let mut rows: Items<Wires> = Items::new(alloc);
    for at in plan.sinks.as_slice() {
        let edge = edge_at(plan, at.edge);
        let row = read_sink(alloc, builder, edge, &edges[at.edge as usize])?;
        rows.push(row)?;
    }
    Ok(rows)
}

/// The wires that the outputs of all ports show: whether the queue into which a port puts has room, and the
/// head of the one from which it takes, with all fields 0 where there is none.
pub fn read_ports(
    alloc: Global,
    builder: &mut Builder,
    plan: &Plan,
    edges: &[EdgeWires],
) -> Result<Shown, Memory>
    requires sound { IsSound plan.now }
    requires edges { AreOpenEdges builder.old plan.now edges.now }
    ensures adds { IfOk result (λ _. Adds builder.old builder.new) }
    ensures sources { IfOk result (λ shown. AreSourceRows builder.new plan.now edges.now shown.sources) }
    ensures sinks { IfOk result (λ shown. AreSinkRows builder.new plan.now edges.now shown.sinks) }
{
    let sources = read_sources(alloc, builder, plan, edges)?;
    let sinks = read_sinks(alloc, builder, plan, edges)?;
    Ok(Shown { sources, sinks })
}
