ghost use Rattle.std.specs.Prelude.{◌≡◌, ◌≤◌, ◌+◌, ◌*◌, IfOk, length, [], replicate, vec_capacity};
ghost use Rattle.net_ports.specs.Ports.{HasPorts};
ghost use Rattle.sim_run.specs.Buffering.{FitsPorts};
ghost use Rattle.sim_run.specs.Turning.{input_widths};

use dip_lists::Memory;
use net_cells::Netlist;
use sim_run::Buffers;
use std::alloc::Global;
use tl_edge::{Event, Plan};

// The widths of a netlist's inputs.
fn widths_of(alloc: Global, netlist: &Netlist) -> Result<Vec<u32>, Memory>
    ensures { IfOk result (λ widths. widths.items ≡ input_widths netlist.now) }
{
    let ports = netlist.inputs.as_slice();
    let mut widths = Vec::with_capacity(alloc, ports.len())?;
    for port in ports {
        widths.push(port.width)?;
    }
    Ok(widths)
}

/// Room for what passes between the drivers and the engine of a netlist that has the ports of a plan.
pub fn buffers_for(alloc: Global, plan: &Plan, netlist: &Netlist) -> Result<Buffers, Memory>
    requires { HasPorts plan.now netlist.now }
    ensures { IfOk result (λ buffers.
        FitsPorts buffers netlist.now (length plan.now.sources) (length plan.now.sinks)) }
{
    let widths = widths_of(alloc, netlist)?;
    let inputs = Vec::with_capacity(alloc, widths.len())?;
    let outputs = vec![in alloc; 0; netlist.outputs.len()]?;
    Ok(Buffers {
        widths,
        inputs,
        outputs,
        sources: Vec::with_capacity(alloc, plan.sources.len())?,
        sinks: Vec::with_capacity(alloc, plan.sinks.len())?,
    })
}

/// Room for the events of a cycle at so many ports.
pub fn room_for_events(alloc: Global, sources: usize, sinks: usize) -> Result<Vec<Event>, Memory>
    requires few_sources { sources ≤ 1024 }
    requires few_sinks { sinks ≤ 1024 }
    ensures room { IfOk result (λ events. 2 * sources + 2 * sinks ≤ vec_capacity events) }
{
    Ok(Vec::with_capacity(alloc, 2 * sources + 2 * sinks)?)
}
