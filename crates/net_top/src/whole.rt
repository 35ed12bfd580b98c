ghost use Rattle.std.specs.Prelude.{◌≡◌, ◌++◌, IfOk, codes};
ghost use Rattle.tl_edge.specs.SoundPlans.{IsSound};
ghost use Rattle.net_cells.specs.Loops.{HasNoLoop};
ghost use Rattle.net_cells.specs.Rules.{IsWellFormed};
ghost use Rattle.net_build.specs.Built.{begun};
ghost use Rattle.net_build.specs.Numbering.{Resets};
ghost use Rattle.net_build.specs.Registers.{numbers};
ghost use Rattle.net_build.specs.Values.{Opens};
ghost use Rattle.net_ports.specs.Implementing.{Implements};
ghost use Rattle.net_ends.specs.Ends.{AreOfferEnds, sink_widths, source_widths};
ghost use Rattle.net_leaves.specs.Buildable.{IsBuildable};
ghost use Rattle.net_leaves.specs.OpenEdges.{AreOpenEdges, all_registers};
ghost use Rattle.net_top.specs.Laying.{IsLaid};
ghost use Rattle.net_top.specs.Runs.{HasRuns, StartsAgain};

use crate::laws::{port_runs_law, reset_law, whole_law};
use crate::types::Laid;
use dip_lists::Memory;
use dip_sets::Name;
use net_build::Builder;
use net_cells::Netlist;
use net_ends::{gate_sinks, gate_sources};
use net_faces::{PortWires, open_ports, read_ports, show_ports};
use net_joins::close_edges;
use net_leaves::{build_leaves, open_edges};
use std::alloc::Global;
use tl_edge::Plan;

// A builder with the name of a plan, and the input `reset` alone.
fn begin(alloc: Global, plan: &Plan) -> Result<Builder, Memory>
    requires { IsSound plan.now }
    ensures { IfOk result (λ builder. builder ≡ begun (codes "m_" ++ plan.now.name)) }
{
    let text = format!(in alloc; "m_{}", plan.name.as_str())?;
    let Some(name) = Name::new(alloc, text.as_str())? else {
        unreachable!();
    };
    let builder = Builder::new(alloc, name)?;
    Ok(builder)
}

// Opens the queues of all edges, and makes the leaves and what passes at the ports between them.
fn lay(alloc: Global, builder: &mut Builder, plan: &Plan, ports: &PortWires) -> Result<Laid, Memory>
    requires sound { IsSound plan.now }
    requires buildable { IsBuildable plan.now }
    requires sources { AreOfferEnds builder.old (source_widths plan.now) plan.now.sources ports.now.sources }
    requires sinks { AreOfferEnds builder.old (sink_widths plan.now) plan.now.sinks ports.now.sinks }
    ensures opens { IfOk result
        (λ laid. Opens builder.old builder.new (numbers (all_registers laid.edges))) }
    ensures edges { IfOk result (λ laid. AreOpenEdges builder.new plan.now laid.edges) }
    ensures laid { IfOk result (λ laid. IsLaid builder.new plan.now ports.now laid) }
{
    let edges = open_edges(alloc, builder, plan)?;
    let leaves = build_leaves(alloc, builder, plan, edges.as_slice())?;
    let sources = gate_sources(
        alloc,
        builder,
        plan,
        edges.as_slice(),
        ports.sources.as_slice(),
    )?;
    let sinks = gate_sinks(
        alloc,
        builder,
        plan,
        edges.as_slice(),
        ports.sinks.as_slice(),
    )?;
    Ok(Laid {
        edges,
        leaves,
        sources,
        sinks,
    })
}

/// Builds the netlist of a plan, in registers and cells. In each run from the start, and after each cycle
/// with `reset` 1, its outputs show in each cycle what the plan's network shows, as long as each cycle starts
/// in a locally valid state and each offered beat is one that the edge of its port carries. Where such beats
/// fit the wires of their ports, there is exactly one run. Its only error is that memory is short.
pub fn build(alloc: Global, plan: &Plan) -> Result<Netlist, Memory>
    requires sound { IsSound plan.now }
    requires buildable { IsBuildable plan.now }
    ensures well_formed { IfOk result IsWellFormed }
    ensures no_loop { IfOk result HasNoLoop }
    ensures resets { IfOk result Resets }
    ensures implements { IfOk result (λ netlist. Implements plan.now netlist) }
    ensures runs { IfOk result (λ netlist. HasRuns plan.now netlist) }
    ensures again { IfOk result (λ netlist. StartsAgain plan.now netlist) }
{
    let mut builder = begin(alloc, plan)?;
    let ports = open_ports(alloc, &mut builder, plan)?;
    let laid = lay(alloc, &mut builder, plan, &ports)?;
    let edges = laid.edges.as_slice();
    let shown = read_ports(alloc, &mut builder, plan, edges)?;
    close_edges(
        alloc,
        &mut builder,
        plan,
        edges,
        laid.leaves.as_slice(),
        laid.sources.as_slice(),
        laid.sinks.as_slice(),
    )?;
    show_ports(alloc, &mut builder, plan, &shown)?;
    whole_law();
    port_runs_law();
    reset_law();
    let netlist = builder.finish()?;
    Ok(netlist)
}
