ghost use Rattle.std.specs.Prelude.{◌≡◌, ◌<◌, ◌^◌, All, IfOk, length};
ghost use Rattle.net_cells.specs.Rules.{IsWidth};
ghost use Rattle.net_build.specs.Bits.{MeansAll};
ghost use Rattle.net_build.specs.Values.{Adds};
ghost use Rattle.net_table.specs.Tables.{AreEntries};

use dip_lists::{Items, Memory};
use net_build::{Builder, Wires};
use std::alloc::Global;

/// A wire of this width, in bits, for each of some values, which it always has.
pub fn constants(
    alloc: Global,
    builder: &mut Builder,
    width: u32,
    values: &[u64],
) -> Result<Wires, Memory>
    requires width { IsWidth width }
    requires small { All (λ value. value < 2 ^ width) values.now }
    ensures adds { IfOk result (λ _. Adds builder.old builder.new) }
    ensures long { IfOk result (λ ws. length ws ≡ length values.now) }
    ensures entries { IfOk result (λ ws. AreEntries builder.new width ws) }
    ensures values { IfOk result (λ ws. MeansAll builder.new ws (λ v. values.now)) }
{
    let mut out: Wires = Items::new(alloc);
    for place in 0..values.len() {
        let wire = builder.constant(width, values[place])?;
        out.push(wire)?;
    }
    Ok(out)
}
