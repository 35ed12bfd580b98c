ghost use Rattle.std.specs.Prelude.{◌≡◌, ◌+◌, ◌*◌, ◌<◌, ◌≤◌, ◌^◌, ◌==◌, IfOk, bit_or, if◌then◌else◌};
ghost use Rattle.tl_pieces.specs.TwoBuses.{lanes_at};
ghost use Rattle.net_cells.specs.Rules.{IsWidth};
ghost use Rattle.net_build.specs.Built.{IsWire};
ghost use Rattle.net_build.specs.Values.{Adds, Means};
ghost use Rattle.net_lanes.specs.Lanes.{AreTabled};

use crate::bits::equals;
use dip_lists::{Items, Memory};
use net_build::{Builder, Wire, Wires};
use net_table::read_entry;
use std::alloc::Global;

// One of the lanes of a wire, each of so many bits.
fn cut(builder: &mut Builder, wire: Wire, unit: u32, place: u32) -> Result<Wire, Memory>
    requires wire { IsWire builder.old wire }
    requires some { 1 ≤ unit }
    requires within { unit * place + unit ≤ wire.width }
    ensures adds { IfOk result (λ _. Adds builder.old builder.new) }
    ensures wire { IfOk result (λ w. IsWire builder.new w × (w.width ≡ unit)) }
    ensures value { IfOk result
        (λ w. Means builder.new w (λ v. lanes_at 2 unit (unit * place) (v wire.number))) }
{
    let low = unit * place;
    let lane = builder.select(wire, low + unit - 1, low)?;
    Ok(lane)
}

// All of them, the lowest first.
fn cut_all(
    alloc: Global,
    builder: &mut Builder,
    wire: Wire,
    unit: u32,
    count: u32,
) -> Result<Wires, Memory>
    requires wire { IsWire builder.old wire }
    requires some { 1 ≤ unit }
    requires all { wire.width ≡ unit * count }
    ensures adds { IfOk result (λ _. Adds builder.old builder.new) }
    ensures lanes { IfOk result (λ ws. AreTabled builder.new unit count
        (λ v place. lanes_at 2 unit (unit * place) (v wire.number)) ws) }
{
    let mut out: Wires = Items::new(alloc);
    for place in 0..count {
        let lane = cut(builder, wire, unit, place)?;
        out.push(lane)?;
    }
    Ok(out)
}

/// The lane of a wire at an index, of so many lanes, each of so many bits.
pub fn pick_lane(
    alloc: Global,
    builder: &mut Builder,
    wire: Wire,
    unit: u32,
    count: u32,
    index: Wire,
) -> Result<Wire, Memory>
    requires wire { IsWire builder.old wire }
    requires width { IsWidth unit }
    requires all { wire.width ≡ unit * count }
    requires index { IsWire builder.old index × (count ≡ 2 ^ index.width) }
    ensures adds { IfOk result (λ _. Adds builder.old builder.new) }
    ensures wire { IfOk result (λ w. IsWire builder.new w × (w.width ≡ unit)) }
    ensures value { IfOk result (λ w. Means builder.new w
        (λ v. lanes_at 2 unit (unit * v index.number) (v wire.number))) }
{
    let lanes = cut_all(alloc, builder, wire, unit, count)?;
    let lane = read_entry(builder, lanes.as_slice(), unit, index)?;
    Ok(lane)
}

// A wire where an index has this value, else 0.
#[tactic(auto, using(net_build::proofs::Steps::steps, crate::proofs::Placed::here_means))]
fn where_at(builder: &mut Builder, wire: Wire, index: Wire, place: u32) -> Result<Wire, Memory>
    requires wires { IsWire builder.old wire × IsWire builder.old index }
    requires small { place < 2 ^ index.width }
    ensures adds { IfOk result (λ _. Adds builder.old builder.new) }
    ensures wire { IfOk result (λ w. IsWire builder.new w × (w.width ≡ wire.width)) }
    ensures value { IfOk result (λ w. Means builder.new w
        (λ v. if v index.number == place then v wire.number else 0)) }
{
    let at = equals(builder, index, place as u64)?;
    let none = builder.constant(wire.width, 0)?;
    let lane = builder.mux(at, wire, none)?;
    Ok(lane)
}

// One lane more, before those that are placed.
#[tactic(auto, using(net_build::proofs::Steps::steps))]
fn place_one(
    builder: &mut Builder,
    lanes: Wire,
    wire: Wire,
    index: Wire,
    place: u32,
) -> Result<Wire, Memory>
    requires wires { IsWire builder.old lanes × IsWire builder.old wire × IsWire builder.old index }
    requires small { place < 2 ^ index.width }
    requires width { IsWidth (wire.width + lanes.width) }
    ensures adds { IfOk result (λ _. Adds builder.old builder.new) }
    ensures wire { IfOk result
        (λ w. IsWire builder.new w × (w.width ≡ wire.width + lanes.width)) }
    ensures value { IfOk result (λ w. Means builder.new w
        (λ v. (if v index.number == place then v wire.number else 0) * 2 ^ lanes.width
        + v lanes.number)) }
{
    let lane = where_at(builder, wire, index, place)?;
    let more = builder.concat(lane, lanes)?;
    Ok(more)
}

/// A wire as the lane at an index, of so many lanes; the others are 0.
pub fn place_lane(
    builder: &mut Builder,
    wire: Wire,
    count: u32,
    index: Wire,
) -> Result<Wire, Memory>
    requires wires { IsWire builder.old wire × IsWire builder.old index }
    requires width { IsWidth (wire.width * count) }
    requires all { count ≡ 2 ^ index.width }
    ensures adds { IfOk result (λ _. Adds builder.old builder.new) }
    ensures wire { IfOk result (λ w. IsWire builder.new w × (w.width ≡ wire.width * count)) }
    ensures value { IfOk result (λ w. Means builder.new w
        (λ v. v wire.number * 2 ^ (wire.width * v index.number))) }
{
    let mut lanes = where_at(builder, wire, index, 0)?;
    for place in 1..count {
        lanes = place_one(builder, lanes, wire, index, place)?;
    }
    Ok(lanes)
}

/// What is collected of lanes, with a further one at an index.
#[tactic(auto, using(net_build::proofs::Steps::steps))]
pub fn collect(
    builder: &mut Builder,
    collected: Wire,
    wire: Wire,
    count: u32,
    index: Wire,
) -> Result<Wire, Memory>
    requires collected { IsWire builder.old collected × (collected.width ≡ wire.width * count) }
    requires wires { IsWire builder.old wire × IsWire builder.old index }
    requires width { IsWidth (wire.width * count) }
    requires all { count ≡ 2 ^ index.width }
    ensures adds { IfOk result (λ _. Adds builder.old builder.new) }
    ensures wire { IfOk result (λ w. IsWire builder.new w × (w.width ≡ wire.width * count)) }
    ensures value { IfOk result (λ w. Means builder.new w
        (λ v. bit_or (v collected.number) (v wire.number * 2 ^ (wire.width * v index.number)))) }
{
    let lane = place_lane(builder, wire, count, index)?;
    let all = builder.or(collected, lane)?;
    Ok(all)
}
