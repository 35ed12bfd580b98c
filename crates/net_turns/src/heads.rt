ghost use Rattle.std.specs.Prelude.{◌≡◌, ◌&&◌, IfOk, if◌then◌else◌};
ghost use Rattle.net_build.specs.Built.{IsBit, IsWire};
ghost use Rattle.net_build.specs.Values.{Adds, Means, high};
ghost use Rattle.net_lanes.specs.Lanes.{AreTwo};
ghost use Rattle.net_turns.specs.Turns.{AreCountedWires, AreHeadWires, AreTurnWires, IsCounted, IsTurn};

use crate::flow::pass;
use crate::types::{Counted, Head, Turn};
use dip_lists::Memory;
use net_build::{Builder, Wire, both, either};
use net_lanes::{Buses, numbered, place_of};
use net_widget::uses_up;
use std::alloc::Global;

// The narrow beat that is next, where so many are done, of a message of a size at an address.
fn count(
    alloc: Global,
    builder: &mut Builder,
    buses: Buses,
    size: Wire,
    address: Wire,
    done: Wire,
) -> Result<Counted, Memory>
    requires buses { AreTwo buses }
    requires wires { IsWire builder.old size × IsWire builder.old address }
    requires done { IsWire builder.old done × (done.width ≡ 8) }
    ensures adds { IfOk result (λ _. Adds builder.old builder.new) }
    ensures wires { IfOk result (λ c. AreCountedWires builder.new buses c) }
    ensures counted { IfOk result (λ c. IsCounted builder.new buses size address done c) }
{
    let number = numbered(alloc, builder, size, done, buses)?;
    let place = place_of(builder, address, done, buses)?;
    let ends = either(builder, number.last, place.turn)?;
    Ok(Counted {
        ends,
        lane: place.lane,
        next: number.next,
    })
}

// The number of narrow beats done after a cycle.
#[tactic(auto, using(net_build::proofs::Steps::steps))]
fn go_on(builder: &mut Builder, moves: Wire, next: Wire, done: Wire) -> Result<Wire, Memory>
    requires moves { IsBit builder.old moves }
    requires wires { IsWire builder.old next × IsWire builder.old done }
    requires width { (next.width ≡ 8) × (done.width ≡ 8) }
    ensures adds { IfOk result (λ _. Adds builder.old builder.new) }
    ensures wire { IfOk result (λ w. IsWire builder.new w × (w.width ≡ 8)) }
    ensures value { IfOk result
        (λ w. Means builder.new w (λ v. if high v moves then v next.number else v done.number)) }
{
    let after = builder.mux(moves, next, done)?;
    Ok(after)
}

/// What becomes of a head, where so many narrow beats of its message are done, in 8 bits.
pub fn turn(
    alloc: Global,
    builder: &mut Builder,
    buses: Buses,
    widens: bool,
    head: &Head,
    done: Wire,
) -> Result<Turn, Memory>
    requires buses { AreTwo buses }
    requires head { AreHeadWires builder.old head.now }
    requires done { IsWire builder.old done × (done.width ≡ 8) }
    ensures adds { IfOk result (λ _. Adds builder.old builder.new) }
    ensures wires { IfOk result (λ t. AreTurnWires builder.new buses t) }
    ensures turn { IfOk result (λ t. IsTurn builder.new buses widens head.now done t) }
{
    let counted = count(alloc, builder, buses, head.size, head.address, done)?;
    let last = uses_up(builder, head.loaded, counted.ends)?;
    let flow = pass(builder, widens, head.valid, head.room, last)?;
    let moves = both(builder, flow.made, head.loaded)?;
    let next = go_on(builder, moves, counted.next, done)?;
    Ok(Turn {
        counted,
        last,
        flow,
        moves,
        next,
    })
}
