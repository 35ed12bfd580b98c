ghost use Rattle.std.specs.Prelude.{◌≡◌, ◌*◌, ◌-◌, ◌^◌, true, false, IfOk, if◌then◌else◌};
ghost use Rattle.net_cells.specs.Rules.{IsWidth};
ghost use Rattle.net_build.specs.Built.{IsBit, IsWire};
ghost use Rattle.net_build.specs.Values.{Adds, Means, high};
ghost use Rattle.net_lanes.specs.Lanes.{AreTwo};
ghost use Rattle.net_turns.specs.Turns.{AreTurnWires, IsTurned, held_after, lanes_in, lanes_out};

use crate::types::{Turn, Turned};
use dip_lists::Memory;
use net_build::{Builder, Wire};
use net_lanes::{Buses, collect, pick_lane};
use std::alloc::Global;

// How many lanes of a narrow bus a wide one has.
fn lane_count(buses: Buses) -> u32
    requires { AreTwo buses }
    ensures { result ≡ 2 ^ (buses.wide - buses.narrow) }
{
    1 << (buses.wide - buses.narrow)
}

// What a register holds after a cycle.
#[tactic(auto, using(net_build::proofs::Steps::steps))]
fn hold(
    builder: &mut Builder,
    moves: Wire,
    ends: Wire,
    held: Wire,
    lanes: Wire,
) -> Result<Wire, Memory>
    requires bits { IsBit builder.old moves × IsBit builder.old ends }
    requires wires { IsWire builder.old held × IsWire builder.old lanes }
    requires width { lanes.width ≡ held.width }
    ensures adds { IfOk result (λ _. Adds builder.old builder.new) }
    ensures wire { IfOk result (λ w. IsWire builder.new w × (w.width ≡ held.width)) }
    ensures value { IfOk result (λ w. Means builder.new w
        (λ v. held_after true (high v moves) (high v ends) (v held.number) (v lanes.number))) }
{
    let none = builder.constant(held.width, 0)?;
    let kept = builder.mux(ends, none, lanes)?;
    let next = builder.mux(moves, kept, held)?;
    Ok(next)
}

// The lanes of a narrow beat, of so many bits each, collected in a register.
fn widen(
    builder: &mut Builder,
    buses: Buses,
    unit: u32,
    turn: &Turn,
    wire: Wire,
) -> Result<Turned, Memory>
    requires buses { AreTwo buses }
    requires turn { AreTurnWires builder.old buses turn.now }
    requires wire { IsWire builder.old wire × (wire.width ≡ unit) }
    requires width { IsWidth (unit * 2 ^ (buses.wide - buses.narrow)) }
    ensures adds { IfOk result (λ _. Adds builder.old builder.new) }
    ensures wire { IfOk result
        (λ o. IsWire builder.new o.lanes × (o.lanes.width ≡ unit * 2 ^ (buses.wide - buses.narrow))) }
    ensures turned { IfOk result (λ o. IsTurned builder.new true unit turn.now wire o) }
{
    let count = lane_count(buses);
    let held = builder.register(unit * count)?;
    let lanes = collect(builder, held, wire, count, turn.counted.lane)?;
    let next = hold(builder, turn.moves, turn.counted.ends, held, lanes)?;
    builder.drive(held, next)?;
    Ok(Turned {
        lanes,
        held: Some(held),
    })
}

// The lanes of a narrow beat, of so many bits each, cut out of the wide one.
fn narrow(
    alloc: Global,
    builder: &mut Builder,
    buses: Buses,
    unit: u32,
    turn: &Turn,
    wire: Wire,
) -> Result<Turned, Memory>
    requires buses { AreTwo buses }
    requires turn { AreTurnWires builder.old buses turn.now }
    requires wire { IsWire builder.old wire × (wire.width ≡ unit * 2 ^ (buses.wide - buses.narrow)) }
    requires width { IsWidth unit }
    ensures adds { IfOk result (λ _. Adds builder.old builder.new) }
    ensures wire { IfOk result (λ o. IsWire builder.new o.lanes × (o.lanes.width ≡ unit)) }
    ensures turned { IfOk result (λ o. IsTurned builder.new false unit turn.now wire o) }
{
    let count = lane_count(buses);
    let lanes = pick_lane(alloc, builder, wire, unit, count, turn.counted.lane)?;
    Ok(Turned { lanes, held: None })
}

/// The lanes of a beat, of so many bits each, on the other bus, and a register for what is collected of them
/// on the way to a wider one.
pub fn turn_lanes(
    alloc: Global,
    builder: &mut Builder,
    buses: Buses,
    widens: bool,
    unit: u32,
    turn: &Turn,
    wire: Wire,
) -> Result<Turned, Memory>
    requires buses { AreTwo buses }
    requires turn { AreTurnWires builder.old buses turn.now }
    requires wire { IsWire builder.old wire × (wire.width ≡ lanes_in widens unit buses) }
    requires width { IsWidth unit × IsWidth (unit * 2 ^ (buses.wide - buses.narrow)) }
    ensures adds { IfOk result (λ _. Adds builder.old builder.new) }
    ensures wire { IfOk result
        (λ o. IsWire builder.new o.lanes × (o.lanes.width ≡ lanes_out widens unit buses)) }
    ensures turned { IfOk result (λ o. IsTurned builder.new widens unit turn.now wire o) }
{
    if widens {
        widen(builder, buses, unit, turn, wire)
    } else {
        narrow(alloc, builder, buses, unit, turn, wire)
    }
}
