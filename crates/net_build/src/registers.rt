ghost use Rattle.std.specs.Prelude.{◌≡◌, IfOk, All, length};
ghost use Rattle.net_cells.specs.Rules.{IsWidth};
ghost use Rattle.net_build.specs.Registers.{AllTake, AreDistinct, AreUndriven, AreWires, DrivesAll, MayDrive, numbers};
ghost use Rattle.net_build.specs.Values.{Opens};

use crate::builder::Builder;
use crate::types::{Wire, Wires};
use dip_lists::{Items, Memory};

impl Builder {
    /// A register for each of these widths, in their order, no two the same. Each is to be driven before the
    /// builder is finished.
    #[tactic(auto, using(crate::proofs::OpenedLists::opens_none, crate::proofs::OpenedLists::all_distinct))]
    pub fn registers(&mut self, widths: &[u32]) -> Result<Wires, Memory>
        requires { All IsWidth widths.now }
        ensures opens { IfOk result (λ ws. Opens self.old self.new (numbers ws)) }
        ensures distinct { IfOk result AreDistinct }
        ensures long { IfOk result (λ ws. length ws ≡ length widths.now) }
        ensures wires { IfOk result (λ ws. AreWires self.new widths.now ws) }
        ensures undriven { IfOk result (λ ws. AreUndriven self.new ws) }
    {
        let mut registers: Wires = Items::new(self.alloc());
        for width in widths {
            let register = self.register(*width)?;
            registers.push(register)?;
        }
        Ok(registers)
    }

    /// Drives each register by the wire at its place.
    pub fn drive_all(&mut self, registers: &[Wire], nexts: &[Wire]) -> Result<(), Memory>
        requires distinct { AreDistinct registers.now }
        requires undriven { AreUndriven self.old registers.now }
        requires long { length nexts.now ≡ length registers.now }
        requires nexts { MayDrive self.old registers.now nexts.now }
        ensures drives { IfOk result (λ _. DrivesAll self.old self.new (numbers registers.now)) }
        ensures take { IfOk result (λ _. AllTake self.new registers.now nexts.now) }
    {
        for place in 0..registers.len() {
            self.drive(registers[place], nexts[place])?;
        }
        Ok(())
    }
}
