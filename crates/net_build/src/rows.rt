ghost use Rattle.std.specs.Prelude.{◌≡◌, ◌<◌, IfOk, length, map};
ghost use Rattle.net_build.specs.Bits.{AreBits, AreRows, MeansAll, highs, row_picked, wire_values};
ghost use Rattle.net_build.specs.Columns.{AreLong, column_of};
ghost use Rattle.net_build.specs.Registers.{AreWires};
ghost use Rattle.net_build.specs.Values.{Adds};

use crate::builder::Builder;
use crate::types::{Wire, Wires};
use dip_lists::{Items, Memory};
use std::alloc::Global;

// The wire at this place of each row.
fn column(alloc: Global, rows: &[Wires], place: usize, width: usize) -> Result<Wires, Memory>
    requires place { place < width }
    requires long { AreLong width rows.now }
    ensures { IfOk result (λ ws. ws ≡ column_of place rows.now) }
{
    let mut out: Wires = Items::new(alloc);
    for row in rows {
        let wires = row.as_slice();
        out.push(wires[place])?;
    }
    Ok(out)
}

impl Builder {
    /// The row of the first pick that is 1, wire by wire, and zeros where none is. The rows have wires of
    /// these widths.
    pub fn choose_row(
        &mut self,
        picks: &[Wire],
        rows: &[Wires],
        widths: &[u32],
    ) -> Result<Wires, Memory>
        requires some { 0 < length picks.now }
        requires picks { AreBits self.old picks.now }
        requires long { length rows.now ≡ length picks.now }
        requires rows { AreRows self.old widths.now rows.now }
        ensures adds { IfOk result (λ _. Adds self.old self.new) }
        ensures long { IfOk result (λ ws. length ws ≡ length widths.now) }
        ensures wires { IfOk result (λ ws. AreWires self.new widths.now ws) }
        ensures values { IfOk result (λ ws. MeansAll self.new ws
            (λ v. row_picked (length widths.now) (highs v picks.now) (map (wire_values v) rows.now))) }
    {
        let mut out: Wires = Items::new(self.alloc());
        for place in 0..widths.len() {
            let wires = column(self.alloc(), rows, place, widths.len())?;
            let chosen = self.choose(picks, wires.as_slice())?;
            out.push(chosen)?;
        }
        Ok(out)
    }
}
