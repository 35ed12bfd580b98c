ghost use Rattle.std.specs.Prelude.{◌≡◌, ◌<◌, IfOk, length};
ghost use Rattle.tl_edge.specs.Plans as spec;
ghost use Rattle.net_ports.specs.Ports as named;
ghost use Rattle.net_ports.specs.Ports.{bundle_at};
ghost use Rattle.net_ports.specs.Rows.{FitPorts};
ghost use Rattle.net_faces.specs.Steps.{IsSoundPort};

use dip_lists::Memory;
use net_cells::Ports;
use net_ports::{request_row, response_row};
use std::alloc::Global;
use tl_edge::{Plan, PlanEdge, PlanPort};

/// The edge with a number.
pub fn edge_at(plan: &Plan, edge: u32) -> &PlanEdge
    requires { edge < length plan.now.edges }
    ensures { result.now ≡ spec.edge_at plan.now edge }
{
    &plan.edges.as_slice()[edge as usize]
}

/// The wires of a request at a port, and whether a response is taken or has room.
pub fn request_ports(alloc: Global, plan: &Plan, at: &PlanPort) -> Result<Ports, Memory>
    requires { IsSoundPort plan.now at.now }
    ensures fit { IfOk result FitPorts }
    ensures ports { IfOk result (λ ports. ports ≡ named.request_row (bundle_at plan.now at.now) at.now) }
{
    let edge = edge_at(plan, at.edge);
    let ports = request_row(alloc, edge.bundle, at)?;
    Ok(ports)
}

/// Whether a request is taken or has room at a port, and the wires of a response.
pub fn response_ports(alloc: Global, plan: &Plan, at: &PlanPort) -> Result<Ports, Memory>
    requires { IsSoundPort plan.now at.now }
    ensures fit { IfOk result FitPorts }
    ensures ports { IfOk result (λ ports. ports ≡ named.response_row (bundle_at plan.now at.now) at.now) }
{
    let edge = edge_at(plan, at.edge);
    let ports = response_row(alloc, edge.bundle, at)?;
    Ok(ports)
}
