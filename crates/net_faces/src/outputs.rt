ghost use Rattle.std.specs.Prelude.{◌≡◌, ◌∷◌, ◌++◌, [], OnOk, flat_map, length};
ghost use Rattle.tl_edge.specs.SoundPlans.{IsSound};
ghost use Rattle.net_build.specs.Built.{inputs};
ghost use Rattle.net_build.specs.Registers.{AreWires};
ghost use Rattle.net_ports.specs.Ports.{port_inputs, reset_input, sink_outputs, source_outputs};
ghost use Rattle.net_ports.specs.Rows.{AddsOutputs, MayAdd, shown_outputs, widths_of_ports};
ghost use Rattle.net_faces.specs.Showing.{AreRowsOf, all_shown};
ghost use Rattle.net_faces.specs.Steps.{IsSoundPort};

use crate::ports::{request_ports, response_ports};
use crate::types::Shown;
use dip_lists::Memory;
use net_build::{Builder, Wire, Wires};
use net_ports::show_row;
use std::alloc::Global;
use tl_edge::{Plan, PlanPort};

// Makes the outputs of a source port.
fn show_source(
    alloc: Global,
    builder: &mut Builder,
    plan: &Plan,
    at: &PlanPort,
    row: &[Wire],
) -> Result<(), Memory>
    requires port { IsSoundPort plan.now at.now }
    requires apart { MayAdd builder.old (source_outputs plan.now at.now) }
    requires long { length row.now ≡ length (source_outputs plan.now at.now) }
    requires wires { AreWires builder.old (widths_of_ports (source_outputs plan.now at.now)) row.now }
    ensures { OnOk result
        (AddsOutputs builder.old builder.new (shown_outputs (source_outputs plan.now at.now) row.now)) }
{
    let ports = response_ports(alloc, plan, at)?;
    show_row(alloc, builder, ports.as_slice(), row)?;
    Ok(())
}

// Makes the outputs of a sink port.
fn show_sink(
    alloc: Global,
    builder: &mut Builder,
    plan: &Plan,
    at: &PlanPort,
    row: &[Wire],
) -> Result<(), Memory>
    requires port { IsSoundPort plan.now at.now }
    requires apart { MayAdd builder.old (sink_outputs plan.now at.now) }
    requires long { length row.now ≡ length (sink_outputs plan.now at.now) }
    requires wires { AreWires builder.old (widths_of_ports (sink_outputs plan.now at.now)) row.now }
    ensures { OnOk result
        (AddsOutputs builder.old builder.new (shown_outputs (sink_outputs plan.now at.now) row.now)) }
{
    let ports = request_ports(alloc, plan, at)?;
    show_row(alloc, builder, ports.as_slice(), row)?;
    Ok(())
}

// Makes the outputs of all source ports, in order.
fn show_sources(
    alloc: Global,
    builder: &mut Builder,
    plan: &Plan,
    rows: &[Wires],
) -> Result<(), Memory>
    requires sound { IsSound plan.now }
    requires apart { MayAdd builder.old (flat_map (source_outputs plan.now) plan.now.sources) }
    requires rows { AreRowsOf builder.old (source_outputs plan.now) plan.now.sources rows.now }
    ensures { OnOk result (AddsOutputs builder.old builder.new
        (all_shown (source_outputs plan.now) plan.now.sources rows.now)) }
{
    let ports = plan.sources.as_slice();
    for place in 0..ports.len() {
        show_source(alloc, builder, plan, &ports[place], rows[place].as_slice())?;
    }
    Ok(())
}

// Makes the outputs of all sink ports, in order.
fn show_sinks(
    alloc: Global,
    builder: &mut Builder,
    plan: &Plan,
    rows: &[Wires],
) -> Result<(), Memory>
    requires sound { IsSound plan.now }
    requires apart { MayAdd builder.old (flat_map (sink_outputs plan.now) plan.now.sinks) }
    requires rows { AreRowsOf builder.old (sink_outputs plan.now) plan.now.sinks rows.now }
    ensures { OnOk result (AddsOutputs builder.old builder.new
        (all_shown (sink_outputs plan.now) plan.now.sinks rows.now)) }
{
    let ports = plan.sinks.as_slice();
    for place in 0..ports.len() {
        show_sink(alloc, builder, plan, &ports[place], rows[place].as_slice())?;
    }
    Ok(())
}

/// Makes the outputs of all ports of a plan, each of which shows its wire: of the source ports in order, then
/// of the sink ports.
pub fn show_ports(
    alloc: Global,
    builder: &mut Builder,
    plan: &Plan,
    shown: &Shown,
) -> Result<(), Memory>
    requires sound { IsSound plan.now }
    requires inputs { inputs builder.old ≡ reset_input ∷ port_inputs plan.now }
    requires outputs { builder.old.outputs ≡ [] }
    requires sources { AreRowsOf builder.old (source_outputs plan.now) plan.now.sources shown.now.sources }
    requires sinks { AreRowsOf builder.old (sink_outputs plan.now) plan.now.sinks shown.now.sinks }
    ensures { OnOk result (AddsOutputs builder.old builder.new
        (all_shown (source_outputs plan.now) plan.now.sources shown.now.sources
        ++ all_shown (sink_outputs plan.now) plan.now.sinks shown.now.sinks)) }
{
    show_sources(alloc, builder, plan, shown.sources.as_slice())?;
    show_sinks(alloc, builder, plan, shown.sinks.as_slice())?;
    Ok(())
}
