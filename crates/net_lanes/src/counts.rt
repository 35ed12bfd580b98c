ghost use Rattle.std.specs.Prelude.{◌≡◌, ◌+◌, ◌-◌, ◌≤◌, ◌<◌, ◌%◌, ◌^◌, ◌==◌, IfOk, IsTrue, if◌then◌else◌};
ghost use Rattle.tl_params.specs.Arguments.{is_width};
ghost use Rattle.tl_edge.specs.Beats.{data_beats};
ghost use Rattle.flow_core.specs.Turning.{number_after};
ghost use Rattle.net_build.specs.Built.{IsBit, IsWire};
ghost use Rattle.net_build.specs.Values.{Adds, Means, Tells, high};
ghost use Rattle.net_lanes.specs.Lanes.{AreTwo, AreTabled, MeansWhere, TellsWhere};

use crate::bits::low_bits;
use crate::places::Buses;
use dip_lists::{Items, Memory};
use net_build::{Builder, Wire, Wires};
use net_table::read_entry;
use std::alloc::Global;
use tl_edge::beats;
use tl_params::Op;

// The number of the last beat of a message of a size.
fn last_of(size: u32, narrow: u32) -> u64
    requires size { size ≤ 8 }
    requires narrow { IsTrue (is_width narrow) }
    ensures value { result ≡ data_beats size narrow - 1 }
    ensures small { result < 256 }
{
    u64::from(beats(Op::PutFull, size, narrow) - 1)
}

// For each size the number of the last beat.
fn last_numbers(alloc: Global, builder: &mut Builder, narrow: u32) -> Result<Wires, Memory>
    requires narrow { IsTrue (is_width narrow) }
    ensures adds { IfOk result (λ _. Adds builder.old builder.new) }
    ensures numbers { IfOk result
        (λ ws. AreTabled builder.new 8 9 (λ v size. data_beats size narrow - 1) ws) }
{
    let mut out: Wires = Items::new(alloc);
    for size in 0..9 {
        let number = builder.constant(8, last_of(size, narrow))?;
        out.push(number)?;
    }
    Ok(out)
}

/// The number of the last beat of a message of a size on a bus of so many bytes, in 8 bits.
pub fn last_number(
    alloc: Global,
    builder: &mut Builder,
    size: Wire,
    narrow: u32,
) -> Result<Wire, Memory>
    requires narrow { IsTrue (is_width narrow) }
    requires size { IsWire builder.old size }
    ensures adds { IfOk result (λ _. Adds builder.old builder.new) }
    ensures wire { IfOk result (λ w. IsWire builder.new w × (w.width ≡ 8)) }
    ensures value { IfOk result (λ w. MeansWhere builder.new (λ v. v size.number ≤ 8) w
        (λ v. data_beats (v size.number) narrow - 1)) }
{
    let index = low_bits(builder, size, 4)?;
    let numbers = last_numbers(alloc, builder, narrow)?;
    let last = read_entry(builder, numbers.as_slice(), 8, index)?;
    Ok(last)
}

/// The number after one that is the last or isn't. Both numbers have 8 bits.
#[tactic(auto, using(net_build::proofs::Steps::steps))]
pub fn next_number(builder: &mut Builder, done: Wire, last: Wire) -> Result<Wire, Memory>
    requires done { IsWire builder.old done × (done.width ≡ 8) }
    requires last { IsBit builder.old last }
    ensures adds { IfOk result (λ _. Adds builder.old builder.new) }
    ensures wire { IfOk result (λ w. IsWire builder.new w × (w.width ≡ 8)) }
    ensures value { IfOk result
        (λ w. Means builder.new w (λ v. if high v last then 0 else (v done.number + 1) % 256)) }
{
    let one = builder.constant(8, 1)?;
    let zero = builder.constant(8, 0)?;
    let more = builder.add(done, one)?;
    let next = builder.mux(last, zero, more)?;
    Ok(next)
}

/// The bytes of a bus, by their base-2 logarithm, of at most 8 bytes.
pub fn bytes_of_bus(log: u32) -> u32
    requires { log ≤ 3 }
    ensures value { result ≡ 2 ^ log }
    ensures width { IsTrue (is_width result) }
{
    match log {
        0 => 1,
        1 => 2,
        2 => 4,
        _ => 8,
    }
}

// 1 where two wires of one width have one value.
#[tactic(auto, using(net_build::proofs::Steps::bit_made))]
fn same(builder: &mut Builder, wire: Wire, other: Wire) -> Result<Wire, Memory>
    requires wires { IsWire builder.old wire × IsWire builder.old other }
    requires width { other.width ≡ wire.width }
    ensures adds { IfOk result (λ _. Adds builder.old builder.new) }
    ensures bit { IfOk result (λ w. IsBit builder.new w) }
    ensures tells { IfOk result (λ w. Tells builder.new w (λ v. v wire.number == v other.number)) }
{
    let same = builder.eq(wire, other)?;
    Ok(same)
}

/// Whether a narrow beat is the last of its message, and the number of the next one.
#[derive(Debug, Clone, Copy)]
pub struct Number {
    /// 1 where it is.
    pub last: Wire,
    /// The number of the next narrow beat, in 8 bits.
    pub next: Wire,
}

/// The same of the narrow beat with a number, of 8 bits, of a message of a size.
#[tactic(auto, using(net_build::proofs::Steps::steps))]
pub fn numbered(
    alloc: Global,
    builder: &mut Builder,
    size: Wire,
    done: Wire,
    buses: Buses,
) -> Result<Number, Memory>
    requires buses { AreTwo buses }
    requires size { IsWire builder.old size }
    requires done { IsWire builder.old done × (done.width ≡ 8) }
    ensures adds { IfOk result (λ _. Adds builder.old builder.new) }
    ensures bit { IfOk result (λ n. IsBit builder.new n.last) }
    ensures last { IfOk result (λ n. TellsWhere builder.new (λ v. v size.number ≤ 8) n.last
        (λ v. v done.number + 1 == data_beats (v size.number) (2 ^ buses.narrow))) }
    ensures wire { IfOk result (λ n. IsWire builder.new n.next × (n.next.width ≡ 8)) }
    ensures next { IfOk result (λ n. MeansWhere builder.new
        (λ v. (v size.number ≤ 8)
        × (v done.number < data_beats (v size.number) (2 ^ buses.narrow))) n.next
        (λ v. number_after (data_beats (v size.number) (2 ^ buses.narrow)) (v done.number))) }
{
    let number = last_number(alloc, builder, size, bytes_of_bus(buses.narrow))?;
    let last = same(builder, done, number)?;
    let next = next_number(builder, done, last)?;
    Ok(Number { last, next })
}
