ghost use Rattle.std.specs.Prelude.{◌≡◌, [], length, IfOk, OnOk};
ghost use Rattle.net_build.specs.Built.{inputs};
ghost use Rattle.net_build.specs.Registers.{AreWires};
ghost use Rattle.net_ports.specs.Rows.{
  AddsInputs,
  AddsOutputs,
  AreInputWires,
  FitPorts,
  MayAdd,
  shown_outputs,
  widths_of_ports,
};

use dip_lists::{Items, Memory};
use net_build::{Builder, Wire, Wires};
use net_cells::Port;
use std::alloc::Global;

/// Further inputs, in order.
pub fn open_row(alloc: Global, builder: &mut Builder, ports: &[Port]) -> Result<Wires, Memory>
    requires ports { FitPorts ports.now }
    requires apart { MayAdd builder.old ports.now }
    requires none { builder.old.outputs ≡ [] }
    ensures adds { IfOk result (λ _. AddsInputs builder.old builder.new ports.now) }
    ensures inputs { IfOk result
        (λ ws. AreInputWires builder.new (length (inputs builder.old)) (widths_of_ports ports.now) ws) }
{
    let mut out: Wires = Items::new(alloc);
    for port in ports {
        let name = port.name.copy(alloc)?;
        let wire = builder.input(name, port.width)?;
        out.push(wire)?;
    }
    Ok(out)
}

/// Further outputs, in order, each of which shows a wire.
pub fn show_row(
    alloc: Global,
    builder: &mut Builder,
    ports: &[Port],
    wires: &[Wire],
) -> Result<(), Memory>
    requires ports { FitPorts ports.now }
    requires apart { MayAdd builder.old ports.now }
    requires long { length wires.now ≡ length ports.now }
    requires wires { AreWires builder.old (widths_of_ports ports.now) wires.now }
    ensures { OnOk result (AddsOutputs builder.old builder.new (shown_outputs ports.now wires.now)) }
{
    for place in 0..ports.len() {
        let name = ports[place].name.copy(alloc)?;
        builder.output(name, wires[place])?;
    }
    Ok(())
}
