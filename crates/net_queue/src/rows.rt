ghost use Rattle.std.specs.Prelude.{◌≡◌, ◌∷◌, ◌++◌, IfOk, OnOk, cond};
ghost use Rattle.net_build.specs.Bits.{MeansAll, wire_values};
ghost use Rattle.net_build.specs.Built.{IsBit};
ghost use Rattle.net_build.specs.Values.{Adds, high};
ghost use Rattle.net_queue.specs.Rows.{AreAlike};

use dip_lists::{Items, Memory};
use net_build::{Builder, Wire, Wires};
use std::alloc::Global;

/// Puts wires behind others.
pub fn append(onto: &mut Wires, more: &[Wire]) -> Result<(), Memory>
    ensures { OnOk result (onto.new ≡ onto.old ++ more.now) }
{
    for wire in more {
        onto.push(*wire)?;
    }
    Ok(())
}

/// Two wires, and behind them two rows.
pub fn joined(
    alloc: Global,
    one: Wire,
    other: Wire,
    front: &[Wire],
    back: &[Wire],
) -> Result<Wires, Memory>
    ensures { IfOk result (λ all. all ≡ one ∷ other ∷ front.now ++ back.now) }
{
    let mut all: Wires = Items::new(alloc);
    all.push(one)?;
    all.push(other)?;
    append(&mut all, front)?;
    append(&mut all, back)?;
    Ok(all)
}

/// The row `these` where `pick` is 1, else the row `those`, wire by wire.
pub fn mux_row(
    alloc: Global,
    builder: &mut Builder,
    pick: Wire,
    these: &[Wire],
    those: &[Wire],
) -> Result<Wires, Memory>
    requires pick { IsBit builder.old pick }
    requires rows { AreAlike builder.old these.now those.now }
    ensures adds { IfOk result (λ _. Adds builder.old builder.new) }
    ensures alike { IfOk result (λ ws. AreAlike builder.new these.now ws) }
    ensures values { IfOk result (λ ws. MeansAll builder.new ws
        (λ v. cond (high v pick) (wire_values v these.now) (wire_values v those.now))) }
{
    let mut out: Wires = Items::new(alloc);
    for place in 0..these.len() {
        let chosen = builder.mux(pick, these[place], those[place])?;
        out.push(chosen)?;
    }
    Ok(out)
}
