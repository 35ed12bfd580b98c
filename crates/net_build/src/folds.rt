ghost use Rattle.std.specs.Prelude.{◌≡◌, ◌<◌, IfOk, not, ◌&&◌, ◌||◌, length};
ghost use Rattle.std.specs.List.{list_any};
ghost use Rattle.net_build.specs.Built.{IsBit, IsWire};
ghost use Rattle.net_build.specs.Bits.{AreBits, TellsAll, highs};
ghost use Rattle.net_build.specs.Folds.{AreOfOneWidth, chosen, first_width, firsts_of};
ghost use Rattle.net_build.specs.Values.{Adds, Means, Tells, high};

use crate::bits::{both, either, inverse, low};
use crate::builder::Builder;
use crate::types::{Firsts, Wire, Wires};
use dip_lists::{Items, Memory};

// 1 where a wire is and none seen before it was.
#[tactic(auto, using(crate::proofs::Steps::steps, crate::proofs::Folded::alone_tells))]
fn alone(builder: &mut Builder, seen: Wire, wire: Wire) -> Result<Wire, Memory>
    requires { IsBit builder.old seen × IsBit builder.old wire }
    ensures adds { IfOk result (λ _. Adds builder.old builder.new) }
    ensures bit { IfOk result (λ w. IsBit builder.new w) }
    ensures tells { IfOk result (λ w. Tells builder.new w (λ v. high v wire && not (high v seen))) }
{
    let free = inverse(builder, seen)?;
    let mine = both(builder, wire, free)?;
    Ok(mine)
}

impl Builder {
    /// 1 exactly where one of these wires of one bit is.
    pub fn any(&mut self, wires: &[Wire]) -> Result<Wire, Memory>
        requires { AreBits self.old wires.now }
        ensures adds { IfOk result (λ _. Adds self.old self.new) }
        ensures bit { IfOk result (λ w. IsBit self.new w) }
        ensures tells { IfOk result (λ w. Tells self.new w (λ v. list_any (high v) wires.now)) }
    {
        let mut all = low(self)?;
        for wire in wires {
            all = either(self, all, *wire)?;
        }
        Ok(all)
    }

    /// The firsts of a row of wires of one bit, where one before the row may have been 1.
    pub fn firsts(&mut self, before: Wire, wires: &[Wire]) -> Result<Firsts, Memory>
        requires before { IsBit self.old before }
        requires wires { AreBits self.old wires.now }
        ensures adds { IfOk result (λ _. Adds self.old self.new) }
        ensures seen { IfOk result (λ firsts. IsBit self.new firsts.seen) }
        ensures bits { IfOk result (λ firsts. AreBits self.new firsts.wires) }
        ensures long { IfOk result (λ firsts. length firsts.wires ≡ length wires.now) }
        ensures tells { IfOk result (λ firsts. Tells self.new firsts.seen
            (λ v. high v before || list_any (high v) wires.now)) }
        ensures shows { IfOk result (λ firsts. TellsAll self.new firsts.wires
            (λ v. firsts_of (high v before) (highs v wires.now))) }
    {
        let mut seen = before;
        let mut firsts: Wires = Items::new(self.alloc());
        for wire in wires {
            let mine = alone(self, seen, *wire)?;
            seen = either(self, seen, *wire)?;
            firsts.push(mine)?;
        }
        Ok(Firsts {
            wires: firsts,
            seen,
        })
    }

    /// The value of the first pick that is 1, and 0 where none is.
    pub fn choose(&mut self, picks: &[Wire], values: &[Wire]) -> Result<Wire, Memory>
        requires some { 0 < length picks.now }
        requires long { length values.now ≡ length picks.now }
        requires picks { AreBits self.old picks.now }
        requires values { AreOfOneWidth self.old values.now }
        ensures adds { IfOk result (λ _. Adds self.old self.new) }
        ensures wire { IfOk result (λ w. IsWire self.new w × (w.width ≡ first_width values.now)) }
        ensures value { IfOk result (λ w. Means self.new w (λ v. chosen v picks.now values.now)) }
    {
        let mut wire = self.constant(values[0].width, 0)?;
        for done in 0..picks.len() {
            let place = picks.len() - 1 - done;
            wire = self.mux(picks[place], values[place], wire)?;
        }
        Ok(wire)
    }
}
