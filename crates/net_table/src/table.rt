ghost use Rattle.std.specs.Prelude.{◌≡◌, IfOk, length};
ghost use Rattle.net_cells.specs.Rules.{IsWidth};
ghost use Rattle.net_build.specs.Bits.{wire_values};
ghost use Rattle.net_build.specs.Registers.{AreDistinct, AreUndriven, DrivesAll, MayDrive, numbers};
ghost use Rattle.net_build.specs.Values.{Opens};
ghost use Rattle.net_table.specs.Tables.{AllBecome, AreEntries, BeginAtZero, IsTable};

use dip_lists::{Items, Memory};
use net_build::{Builder, Wire, Wires};
use std::alloc::Global;

// So many registers of one width, in bits.
#[tactic(auto, using(net_build::proofs::OpenedLists::opens_none))]
fn open_registers(
    alloc: Global,
    builder: &mut Builder,
    count: usize,
    width: u32,
) -> Result<Wires, Memory>
    requires { IsWidth width }
    ensures opens { IfOk result (λ ws. Opens builder.old builder.new (numbers ws)) }
    ensures long { IfOk result (λ ws. length ws ≡ count) }
    ensures entries { IfOk result (λ ws. AreEntries builder.new width ws) }
    ensures undriven { IfOk result (λ ws. AreUndriven builder.new ws) }
{
    let mut out: Wires = Items::new(alloc);
    for _place in 0..count {
        let register = builder.register(width)?;
        out.push(register)?;
    }
    Ok(out)
}

/// A table of so many registers of one width, in bits. Each is to be driven before the builder is finished.
pub fn open_table(
    alloc: Global,
    builder: &mut Builder,
    count: usize,
    width: u32,
) -> Result<Wires, Memory>
    requires { IsWidth width }
    ensures opens { IfOk result (λ ws. Opens builder.old builder.new (numbers ws)) }
    ensures table { IfOk result (λ ws. IsTable builder.new count width ws) }
    ensures begins { IfOk result (λ ws. BeginAtZero builder.new ws) }
{
    let registers = open_registers(alloc, builder, count, width)?;
    Ok(registers)
}

/// Drives each register by the wire at its place.
pub fn drive_registers(
    builder: &mut Builder,
    registers: &[Wire],
    nexts: &[Wire],
) -> Result<(), Memory>
    requires distinct { AreDistinct registers.now }
    requires undriven { AreUndriven builder.old registers.now }
    requires long { length nexts.now ≡ length registers.now }
    requires nexts { MayDrive builder.old registers.now nexts.now }
    ensures drives { IfOk result (λ _. DrivesAll builder.old builder.new (numbers registers.now)) }
    ensures becomes { IfOk result
        (λ _. AllBecome builder.new registers.now (λ v. wire_values v nexts.now)) }
{
    builder.drive_all(registers, nexts)?;
    Ok(())
}
