ghost use Rattle.std.specs.Prelude.{◌≡◌, ◌<◌, ◌≤◌, IfOk, length};
ghost use Rattle.net_cells.specs.Rules.{IsWidth};
ghost use Rattle.net_build.specs.Built.{IsWire};
ghost use Rattle.net_build.specs.Registers.{AreWires};
ghost use Rattle.net_build.specs.Values.{Adds};
ghost use Rattle.net_queue.specs.Rows.{AreAlike, KeepsRow, KeepsValue, row_widths};

use dip_lists::{Items, Memory};
use net_build::{Builder, Wire, Wires};
use std::alloc::Global;

// With zeros before it.
#[tactic(auto, using(net_build::proofs::Steps::steps))]
fn widened(builder: &mut Builder, wire: Wire, width: u32) -> Result<Wire, Memory>
    requires wire { IsWire builder.old wire }
    requires width { IsWidth width }
    requires more { wire.width < width }
    ensures adds { IfOk result (λ _. Adds builder.old builder.new) }
    ensures wire { IfOk result (λ w. IsWire builder.new w × (w.width ≡ width)) }
    ensures keeps { IfOk result (λ w. KeepsValue builder.new wire w) }
{
    let zeros = builder.constant(width - wire.width, 0)?;
    let wide = builder.concat(zeros, wire)?;
    Ok(wide)
}

// Its low bits.
fn narrowed(builder: &mut Builder, wire: Wire, width: u32) -> Result<Wire, Memory>
    requires wire { IsWire builder.old wire }
    requires width { IsWidth width }
    requires fewer { width < wire.width }
    ensures adds { IfOk result (λ _. Adds builder.old builder.new) }
    ensures wire { IfOk result (λ w. IsWire builder.new w × (w.width ≡ width)) }
    ensures keeps { IfOk result (λ w. KeepsValue builder.new wire w) }
{
    let low = builder.select(wire, width - 1, 0)?;
    Ok(low)
}

/// A wire with another width, in bits, and the same value wherever that fits.
#[tactic(auto, using(crate::proofs::Fitted::adds_same, crate::proofs::Fitted::keeps_itself))]
pub fn fit_wire(builder: &mut Builder, wire: Wire, width: u32) -> Result<Wire, Memory>
    requires wire { IsWire builder.old wire }
    requires width { IsWidth width }
    ensures adds { IfOk result (λ _. Adds builder.old builder.new) }
    ensures wire { IfOk result (λ w. IsWire builder.new w × (w.width ≡ width)) }
    ensures keeps { IfOk result (λ w. KeepsValue builder.new wire w) }
{
    if wire.width < width {
        return widened(builder, wire, width);
    }
    if width < wire.width {
        return narrowed(builder, wire, width);
    }
    Ok(wire)
}

/// A row with the widths of another, and the same values wherever these fit.
pub fn fit_row(
    alloc: Global,
    builder: &mut Builder,
    wires: &[Wire],
    like: &[Wire],
) -> Result<Wires, Memory>
    requires long { length wires.now ≡ length like.now }
    requires wires { AreWires builder.old (row_widths wires.now) wires.now }
    requires like { AreWires builder.old (row_widths like.now) like.now }
    ensures adds { IfOk result (λ _. Adds builder.old builder.new) }
    ensures alike { IfOk result (λ ws. AreAlike builder.new like.now ws) }
    ensures keeps { IfOk result (λ ws. KeepsRow builder.new wires.now (row_widths like.now) ws) }
{
    let mut out: Wires = Items::new(alloc);
    for place in 0..like.len() {
        let fitted = fit_wire(builder, wires[place], like[place].width)?;
        out.push(fitted)?;
    }
    Ok(out)
}
