ghost use Rattle.std.specs.Prelude.{◌≡◌, IfOk, length, false, replicate, if◌then◌else◌};
ghost use Rattle.net_build.specs.Bits.{AreBits, TellsAll, highs};
ghost use Rattle.net_build.specs.Built.{IsBit};
ghost use Rattle.net_build.specs.Values.{Adds, Tells, high};
ghost use Rattle.net_choice.specs.Rows.{behind_of, paired, pairs};

use dip_lists::{Items, Memory};
use net_build::{Builder, Wire, Wires, both, either, inverse, low};
use std::alloc::Global;

/// A gate on two wires of one bit.
#[derive(Debug, Clone, Copy)]
pub enum Pairing {
    /// 1 where both are.
    Both,
    /// 1 where one is.
    Either,
    /// 1 where the first is and the second isn't.
    Without,
}

// 1 where the first is and the second isn't.
#[tactic(auto, using(net_build::proofs::Steps::steps, crate::proofs::Paired::without))]
fn without(builder: &mut Builder, x: Wire, y: Wire) -> Result<Wire, Memory>
    requires { IsBit builder.old x × IsBit builder.old y }
    ensures adds { IfOk result (λ _. Adds builder.old builder.new) }
    ensures bit { IfOk result (λ w. IsBit builder.new w) }
    ensures tells { IfOk result (λ w. Tells builder.new w
        (λ v. paired Pairing.Without (high v x) (high v y))) }
{
    let free = inverse(builder, y)?;
    let wire = both(builder, x, free)?;
    Ok(wire)
}

/// One gate on two wires of one bit.
pub fn pair_one(builder: &mut Builder, pairing: Pairing, x: Wire, y: Wire) -> Result<Wire, Memory>
    requires { IsBit builder.old x × IsBit builder.old y }
    ensures adds { IfOk result (λ _. Adds builder.old builder.new) }
    ensures bit { IfOk result (λ w. IsBit builder.new w) }
    ensures tells { IfOk result (λ w. Tells builder.new w (λ v. paired pairing (high v x) (high v y))) }
{
    match pairing {
        Pairing::Both => both(builder, x, y),
        Pairing::Either => either(builder, x, y),
        Pairing::Without => without(builder, x, y),
    }
}

/// A gate at each place of two rows of wires of one bit.
pub fn pair_each(
    alloc: Global,
    builder: &mut Builder,
    pairing: Pairing,
    xs: &[Wire],
    ys: &[Wire],
) -> Result<Wires, Memory>
    requires xs { AreBits builder.old xs.now }
    requires ys { AreBits builder.old ys.now }
    requires long { length ys.now ≡ length xs.now }
    ensures adds { IfOk result (λ _. Adds builder.old builder.new) }
    ensures bits { IfOk result (λ ws. AreBits builder.new ws) }
    ensures long { IfOk result (λ ws. length ws ≡ length xs.now) }
    ensures tells { IfOk result (λ ws. TellsAll builder.new ws
        (λ v. pairs (paired pairing) (highs v xs.now) (highs v ys.now))) }
{
    let mut out: Wires = Items::new(alloc);
    for place in 0..xs.len() {
        let wire = pair_one(builder, pairing, xs[place], ys[place])?;
        out.push(wire)?;
    }
    Ok(out)
}

/// One wire, so many times.
pub fn spread(alloc: Global, wire: Wire, count: usize) -> Result<Wires, Memory>
    ensures { IfOk result (λ ws. ws ≡ replicate count wire) }
{
    let mut out: Wires = Items::new(alloc);
    for _place in 0..count {
        out.push(wire)?;
    }
    Ok(out)
}

/// For each wire of one bit whether an earlier one is 1.
pub fn behind(alloc: Global, builder: &mut Builder, wires: &[Wire]) -> Result<Wires, Memory>
    requires { AreBits builder.old wires.now }
    ensures adds { IfOk result (λ _. Adds builder.old builder.new) }
    ensures bits { IfOk result (λ ws. AreBits builder.new ws) }
    ensures long { IfOk result (λ ws. length ws ≡ length wires.now) }
    ensures tells { IfOk result (λ ws. TellsAll builder.new ws (λ v. behind_of false (highs v wires.now))) }
{
    let mut seen = low(builder)?;
    let mut out: Wires = Items::new(alloc);
    for wire in wires {
        out.push(seen)?;
        seen = either(builder, seen, *wire)?;
    }
    Ok(out)
}

// One of two wires of one bit.
#[tactic(auto, using(net_build::proofs::Steps::steps, net_build::proofs::Steps::bit_made))]
fn switch_one(builder: &mut Builder, pick: Wire, x: Wire, y: Wire) -> Result<Wire, Memory>
    requires { IsBit builder.old pick × IsBit builder.old x × IsBit builder.old y }
    ensures adds { IfOk result (λ _. Adds builder.old builder.new) }
    ensures bit { IfOk result (λ w. IsBit builder.new w) }
    ensures tells { IfOk result (λ w. Tells builder.new w (λ v. if high v pick then high v x else high v y)) }
{
    let wire = builder.mux(pick, x, y)?;
    Ok(wire)
}

/// These wires of one bit where `pick` is 1, else those.
pub fn switch(
    alloc: Global,
    builder: &mut Builder,
    pick: Wire,
    xs: &[Wire],
    ys: &[Wire],
) -> Result<Wires, Memory>
    requires pick { IsBit builder.old pick }
    requires xs { AreBits builder.old xs.now }
    requires ys { AreBits builder.old ys.now }
    requires long { length ys.now ≡ length xs.now }
    ensures adds { IfOk result (λ _. Adds builder.old builder.new) }
    ensures bits { IfOk result (λ ws. AreBits builder.new ws) }
    ensures long { IfOk result (λ ws. length ws ≡ length xs.now) }
    ensures tells { IfOk result (λ ws. TellsAll builder.new ws
        (λ v. if high v pick then highs v xs.now else highs v ys.now)) }
{
    let mut out: Wires = Items::new(alloc);
    for place in 0..xs.len() {
        let wire = switch_one(builder, pick, xs[place], ys[place])?;
        out.push(wire)?;
    }
    Ok(out)
}
