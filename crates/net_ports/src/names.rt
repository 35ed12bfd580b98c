ghost use Rattle.std.specs.Prelude.{◌≡◌, ◌≤◌, ◌∷◌, ◌++◌, [], IfOk, OnOk, codes, length};
ghost use Rattle.net_ports.specs.Ports as spec;
ghost use Rattle.net_cells.specs.Rules.{IsNamed};
ghost use Rattle.net_ports.specs.Names.{AreNamed};
ghost use Rattle.tl_edge.specs.Beats.{most_lanes};
ghost use Rattle.tl_edge.specs.SoundPlans.{IsShort};

use crate::field::{A_BEAT, D_BEAT, Field};
use dip_lists::{Items, Memory};
use dip_sets::Name;
use net_cells::{Port, Ports};
use std::alloc::Global;
use tl_edge::{Bundle, PlanPort, a_widths, d_widths};

/// The name of a wire at a port: `p`, the node's name, the port and the field, joined by `_`.
pub fn wire_name(alloc: Global, at: &PlanPort, field: Field) -> Result<Name, Memory>
    requires { IsShort at.now }
    ensures named { IfOk result (λ name. IsNamed (codes "p_") name) }
    ensures name { IfOk result (λ name. name ≡ spec.wire_name at.now field) }
{
    let text = format!(in alloc; "p_{}_{}_{}", at.name.as_str(), at.port, field.name())?;
    let Some(name) = Name::new(alloc, text.as_str())? else {
        unreachable!();
    };
    Ok(name)
}

// A wire at a port, of so many bits.
fn wire_at(alloc: Global, at: &PlanPort, field: Field, width: u32) -> Result<Port, Memory>
    requires { IsShort at.now }
    ensures named { IfOk result (λ port. IsNamed (codes "p_") port.name) }
    ensures port { IfOk result (λ port. port ≡ spec.wire_at at.now field width) }
{
    let name = wire_name(alloc, at, field)?;
    Ok(Port { name, width })
}

// Puts the wires of some fields at the end, each with its width.
fn add_wires(
    alloc: Global,
    ports: &mut Ports,
    at: &PlanPort,
    fields: &[Field],
    widths: &[u32],
) -> Result<(), Memory>
    requires short { IsShort at.now }
    requires long { length widths.now ≡ length fields.now }
    requires named { AreNamed ports.old }
    ensures named { OnOk result (AreNamed ports.new) }
    ensures ports { OnOk result (ports.new ≡ ports.old ++ spec.wires_at at.now fields.now widths.now) }
{
    for place in 0..fields.len() {
        ports.push(wire_at(alloc, at, fields[place], widths[place])?)?;
    }
    Ok(())
}

/// The wires of a request at a port, and whether a response is taken or has room: of a source port the
/// inputs, of a sink port the outputs.
pub fn request_row(alloc: Global, bundle: Bundle, at: &PlanPort) -> Result<Ports, Memory>
    requires short { IsShort at.now }
    requires lanes { bundle.data_bytes ≤ most_lanes }
    ensures named { IfOk result AreNamed }
    ensures ports { IfOk result (λ ports. ports ≡ spec.request_row bundle at.now) }
{
    let mut ports = Items::new(alloc);
    ports.push(wire_at(alloc, at, Field::AValid, 1)?)?;
    add_wires(alloc, &mut ports, at, &A_BEAT, &a_widths(bundle))?;
    let ready = wire_at(alloc, at, Field::DReady, 1)?;
    ports.push(ready)?;
    Ok(ports)
}

/// Whether a request is taken or has room at a port, and the wires of a response: of a sink port the inputs,
/// of a source port the outputs.
pub fn response_row(alloc: Global, bundle: Bundle, at: &PlanPort) -> Result<Ports, Memory>
    requires short { IsShort at.now }
    requires lanes { bundle.data_bytes ≤ most_lanes }
    ensures named { IfOk result AreNamed }
    ensures ports { IfOk result (λ ports. ports ≡ spec.response_row bundle at.now) }
{
    let mut ports = Items::new(alloc);
    ports.push(wire_at(alloc, at, Field::AReady, 1)?)?;
    ports.push(wire_at(alloc, at, Field::DValid, 1)?)?;
    add_wires(alloc, &mut ports, at, &D_BEAT, &d_widths(bundle))?;
    Ok(ports)
}
