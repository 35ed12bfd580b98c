ghost use Rattle.std.specs.Prelude.{◌≡◌, ◌^◌, ◌<◌, IfOk};
ghost use Rattle.net_build.specs.Built.{IsBit, IsWire};
ghost use Rattle.net_build.specs.Values.{Adds};

use crate::described::name;
use dip_lists::Memory;
use net_build::{Builder, Wire, low};
use net_cells::Netlist;
use std::alloc::Global;

// A value and one.
#[tactic(auto, using(net_build::proofs::Steps::steps))]
fn plus_one(builder: &mut Builder, count: Wire) -> Result<Wire, Memory>
    requires wire { IsWire builder.old count }
    requires wide { 1 < 2 ^ count.width }
    ensures adds { IfOk result (λ _. Adds builder.old builder.new) }
    ensures wire { IfOk result (λ w. IsWire builder.new w × (w.width ≡ count.width)) }
{
    let one = builder.constant(count.width, 1)?;
    let next = builder.add(count, one)?;
    Ok(next)
}

/// A counter of four bits.
pub fn counter(alloc: Global) -> Result<Netlist, Memory> {
    let shown = name(alloc, "p_q")?;
    let mut builder = Builder::new(alloc, name(alloc, "m_t")?)?;
    let count = builder.register(4)?;
    builder.output(shown, count)?;
    let next = plus_one(&mut builder, count)?;
    builder.drive(count, next)?;
    builder.finish()
}

/// A netlist of two inputs of 1 and 63 bits, whose output shows the second.
pub fn shown(alloc: Global) -> Result<Netlist, Memory> {
    let shown = name(alloc, "p_q")?;
    let mut builder = Builder::new(alloc, name(alloc, "m_t")?)?;
    builder.input(name(alloc, "p_x")?, 1)?;
    let y = builder.input(name(alloc, "p_y")?, 63)?;
    builder.output(shown, y)?;
    builder.finish()
}

// Two operators bit by bit.
#[tactic(auto, using(net_build::proofs::Steps::steps))]
fn add_not_and(builder: &mut Builder, x: Wire, y: Wire) -> Result<(), Memory>
    requires wires { IsWire builder.old x × IsWire builder.old y }
    requires width { y.width ≡ x.width }
    ensures adds { IfOk result (λ _. Adds builder.old builder.new) }
{
    builder.not(x)?;
    builder.and(x, y)?;
    Ok(())
}

// Two more.
#[tactic(auto, using(net_build::proofs::Steps::steps))]
fn add_or_xor(builder: &mut Builder, x: Wire, y: Wire) -> Result<(), Memory>
    requires wires { IsWire builder.old x × IsWire builder.old y }
    requires width { y.width ≡ x.width }
    ensures adds { IfOk result (λ _. Adds builder.old builder.new) }
{
    builder.or(x, y)?;
    builder.xor(x, y)?;
    Ok(())
}

// A sum and a difference.
#[tactic(auto, using(net_build::proofs::Steps::steps))]
fn add_add_sub(builder: &mut Builder, x: Wire, y: Wire) -> Result<(), Memory>
    requires wires { IsWire builder.old x × IsWire builder.old y }
    requires width { y.width ≡ x.width }
    ensures adds { IfOk result (λ _. Adds builder.old builder.new) }
{
    builder.add(x, y)?;
    builder.sub(x, y)?;
    Ok(())
}

// Two comparisons.
#[tactic(auto, using(net_build::proofs::Steps::steps))]
fn add_eq_less(builder: &mut Builder, x: Wire, y: Wire) -> Result<(), Memory>
    requires wires { IsWire builder.old x × IsWire builder.old y }
    requires width { y.width ≡ x.width }
    ensures adds { IfOk result (λ _. Adds builder.old builder.new) }
{
    builder.eq(x, y)?;
    builder.less(x, y)?;
    Ok(())
}

// All operators bit by bit.
#[tactic(auto, using(net_build::proofs::Steps::steps))]
fn add_bitwise(builder: &mut Builder, x: Wire, y: Wire) -> Result<(), Memory>
    requires wires { IsWire builder.old x × IsWire builder.old y }
    requires width { y.width ≡ x.width }
    ensures adds { IfOk result (λ _. Adds builder.old builder.new) }
{
    add_not_and(builder, x, y)?;
    add_or_xor(builder, x, y)?;
    Ok(())
}

// Sums and comparisons.
#[tactic(auto, using(net_build::proofs::Steps::steps))]
fn add_numeric(builder: &mut Builder, x: Wire, y: Wire) -> Result<(), Memory>
    requires wires { IsWire builder.old x × IsWire builder.old y }
    requires width { y.width ≡ x.width }
    ensures adds { IfOk result (λ _. Adds builder.old builder.new) }
{
    add_add_sub(builder, x, y)?;
    add_eq_less(builder, x, y)?;
    Ok(())
}

// All operators that take two wires of one width.
#[tactic(auto, using(net_build::proofs::Steps::steps))]
fn add_operators(builder: &mut Builder, x: Wire, y: Wire) -> Result<(), Memory>
    requires wires { IsWire builder.old x × IsWire builder.old y }
    requires width { y.width ≡ x.width }
    ensures adds { IfOk result (λ _. Adds builder.old builder.new) }
{
    add_bitwise(builder, x, y)?;
    add_numeric(builder, x, y)?;
    Ok(())
}

/// A netlist of two inputs of 64 bits, and the operators that take two such.
pub fn operators(alloc: Global) -> Result<Netlist, Memory> {
    let mut builder = Builder::new(alloc, name(alloc, "m_t")?)?;
    let x = builder.input(name(alloc, "p_x")?, 64)?;
    let y = builder.input(name(alloc, "p_y")?, 64)?;
    add_operators(&mut builder, x, y)?;
    builder.finish()
}

// The folds over two wires of one bit.
#[tactic(auto, using(net_build::proofs::Steps::steps, net_build::proofs::Folded::pairs))]
fn add_folds(builder: &mut Builder, x: Wire, y: Wire) -> Result<(), Memory>
    requires { IsBit builder.old x × IsBit builder.old y }
    ensures adds { IfOk result (λ _. Adds builder.old builder.new) }
{
    builder.any(&[x, y])?;
    let none = low(builder)?;
    builder.firsts(none, &[y, x])?;
    builder.choose(&[x, y], &[y, x])?;
    Ok(())
}

// Two wires joined, and taken apart.
#[tactic(auto, using(net_build::proofs::Steps::steps))]
fn add_parts(builder: &mut Builder, high: Wire, low: Wire) -> Result<(), Memory>
    requires wires { IsBit builder.old high × IsWire builder.old low }
    requires width { low.width ≡ 63 }
    ensures adds { IfOk result (λ _. Adds builder.old builder.new) }
{
    let joined = builder.concat(high, low)?;
    builder.select(joined, 63, 63)?;
    builder.select(joined, 62, 0)?;
    Ok(())
}

/// A netlist of folds and parts over two wires of one bit and one of 63.
pub fn folds(alloc: Global) -> Result<Netlist, Memory> {
    let mut builder = Builder::new(alloc, name(alloc, "m_t")?)?;
    let x = builder.input(name(alloc, "p_x")?, 1)?;
    let y = builder.input(name(alloc, "p_y")?, 1)?;
    let z = builder.input(name(alloc, "p_z")?, 63)?;
    add_parts(&mut builder, x, z)?;
    add_folds(&mut builder, x, y)?;
    builder.finish()
}

// Two registers of 63 bits. The first takes a wire and the second the first, so that it shows the wire two
// cycles late.
fn delayed(builder: &mut Builder, x: Wire) -> Result<Wire, Memory>
    requires wire { IsWire builder.old x }
    requires width { x.width ≡ 63 }
    ensures adds { IfOk result (λ _. Adds builder.old builder.new) }
    ensures wire { IfOk result (λ w. IsWire builder.new w) }
{
    let held = builder.registers(&[63, 63])?;
    let row = held.as_slice();
    builder.drive_all(row, &[x, row[0]])?;
    Ok(row[1])
}

/// A netlist whose output shows its input of 63 bits two cycles late.
pub fn late(alloc: Global) -> Result<Netlist, Memory> {
    let shown = name(alloc, "p_q")?;
    let mut builder = Builder::new(alloc, name(alloc, "m_t")?)?;
    let x = builder.input(name(alloc, "p_x")?, 63)?;
    let y = delayed(&mut builder, x)?;
    builder.output(shown, y)?;
    builder.finish()
}
