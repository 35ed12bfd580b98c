ghost use Rattle.std.specs.Prelude.{◌≡◌, ◌∷◌, ◌+◌, [], IfOk, flat_map, length};
ghost use Rattle.tl_edge.specs.SoundPlans.{IsSound};
ghost use Rattle.net_build.specs.Built.{inputs};
ghost use Rattle.net_ports.specs.Ports.{port_inputs, reset_input, sink_inputs, source_inputs};
ghost use Rattle.net_ports.specs.Rows.{AddsInputs, AreRead, MayAdd};
ghost use Rattle.net_ends.specs.Ends.{AreOfferEnds, IsEnd, sink_widths, source_widths};
ghost use Rattle.net_faces.specs.PortRows.{sink_row, source_row};
ghost use Rattle.net_faces.specs.Steps.{IsSoundPort, ReadsInputs};

use crate::ports::{request_ports, response_ports};
use crate::types::PortWires;
use dip_lists::{Items, Memory};
use net_build::{Builder, Wire, Wires};
use net_parts::{EndWires, Ends};
use net_ports::open_row;
use net_queue::{Put, append};
use std::alloc::Global;
use tl_edge::{Plan, PlanPort};

// What a source port offers, by the wires of its inputs.
fn source_end(alloc: Global, row: &[Wire]) -> Result<EndWires, Memory>
    requires { length row.now ≡ 9 }
    ensures { IfOk result (λ port. source_row port ≡ row.now) }
{
    let mut items: Wires = Items::new(alloc);
    append(&mut items, &row[1..8])?;
    Ok(EndWires {
        put: Put {
            valid: row[0],
            items,
        },
        take: row[8],
    })
}

// What a sink port offers, by the wires of its inputs.
fn sink_end(alloc: Global, row: &[Wire]) -> Result<EndWires, Memory>
    requires { length row.now ≡ 7 }
    ensures { IfOk result (λ port. sink_row port ≡ row.now) }
{
    let mut items: Wires = Items::new(alloc);
    append(&mut items, &row[2..7])?;
    Ok(EndWires {
        put: Put {
            valid: row[1],
            items,
        },
        take: row[0],
    })
}

// Opens the inputs of a source port.
fn open_source(
    alloc: Global,
    builder: &mut Builder,
    plan: &Plan,
    at: &PlanPort,
) -> Result<EndWires, Memory>
    requires port { IsSoundPort plan.now at.now }
    requires apart { MayAdd builder.old (source_inputs plan.now at.now) }
    requires none { builder.old.outputs ≡ [] }
    ensures reads { IfOk result
        (λ port. ReadsInputs builder.old builder.new (source_inputs plan.now at.now) (source_row port)) }
    ensures end { IfOk result (λ port. IsEnd builder.new (source_widths plan.now at.now) port) }
{
    let ports = request_ports(alloc, plan, at)?;
    let row = open_row(alloc, builder, ports.as_slice())?;
    let port = source_end(alloc, row.as_slice())?;
    Ok(port)
}

// Opens the inputs of a sink port.
fn open_sink(
    alloc: Global,
    builder: &mut Builder,
    plan: &Plan,
    at: &PlanPort,
) -> Result<EndWires, Memory>
    requires port { IsSoundPort plan.now at.now }
    requires apart { MayAdd builder.old (sink_inputs plan.now at.now) }
    requires none { builder.old.outputs ≡ [] }
    ensures reads { IfOk result
        (λ port. ReadsInputs builder.old builder.new (sink_inputs plan.now at.now) (sink_row port)) }
    ensures end { IfOk result (λ port. IsEnd builder.new (sink_widths plan.now at.now) port) }
{
    let ports = response_ports(alloc, plan, at)?;
    let row = open_row(alloc, builder, ports.as_slice())?;
    let port = sink_end(alloc, row.as_slice())?;
    Ok(port)
}

// Opens the inputs of all source ports, in order.
fn open_sources(alloc: Global, builder: &mut Builder, plan: &Plan) -> Result<Ends, Memory>
    requires sound { IsSound plan.now }
    requires apart { MayAdd builder.old (flat_map (source_inputs plan.now) plan.now.sources) }
    requires none { builder.old.outputs ≡ [] }
    ensures reads { IfOk result (λ ends. ReadsInputs builder.old builder.new
        (flat_map (source_inputs plan.now) plan.now.sources) (flat_map source_row ends)) }
    ensures ends { IfOk result
        (λ ends. AreOfferEnds builder.new (source_widths plan.now) plan.now.sources ends) }
{
    let mut ends: Ends = Items::new(alloc);
    for at in plan.sources.as_slice() {
        let end = open_source(alloc, builder, plan, at)?;
        ends.push(end)?;
    }
    Ok(ends)
}

// Opens the inputs of all sink ports, in order.
fn open_sinks(alloc: Global, builder: &mut Builder, plan: &Plan) -> Result<Ends, Memory>
    requires sound { IsSound plan.now }
    requires apart { MayAdd builder.old (flat_map (sink_inputs plan.now) plan.now.sinks) }
    requires none { builder.old.outputs ≡ [] }
    ensures reads { IfOk result (λ ends. ReadsInputs builder.old builder.new
        (flat_map (sink_inputs plan.now) plan.now.sinks) (flat_map sink_row ends)) }
    ensures ends { IfOk result
        (λ ends. AreOfferEnds builder.new (sink_widths plan.now) plan.now.sinks ends) }
{
    let mut ends: Ends = Items::new(alloc);
    for at in plan.sinks.as_slice() {
        let end = open_sink(alloc, builder, plan, at)?;
        ends.push(end)?;
    }
    Ok(ends)
}

/// Opens the inputs of all ports of a plan on a builder that has `reset` alone: of the source ports in order,
/// then of the sink ports.
pub fn open_ports(alloc: Global, builder: &mut Builder, plan: &Plan) -> Result<PortWires, Memory>
    requires sound { IsSound plan.now }
    requires inputs { inputs builder.old ≡ reset_input ∷ [] }
    requires outputs { builder.old.outputs ≡ [] }
    ensures adds { IfOk result (λ _. AddsInputs builder.old builder.new (port_inputs plan.now)) }
    ensures sources { IfOk result
        (λ ports. AreOfferEnds builder.new (source_widths plan.now) plan.now.sources ports.sources) }
    ensures sinks { IfOk result
        (λ ports. AreOfferEnds builder.new (sink_widths plan.now) plan.now.sinks ports.sinks) }
    ensures read_sources { IfOk result
        (λ ports. AreRead builder.new 1 (flat_map source_row ports.sources)) }
    ensures read_sinks { IfOk result
        (λ ports. AreRead builder.new (1 + length (flat_map source_row ports.sources))
        (flat_map sink_row ports.sinks)) }
{
    let sources = open_sources(alloc, builder, plan)?;
    let sinks = open_sinks(alloc, builder, plan)?;
    Ok(PortWires { sources, sinks })
}
