ghost use Rattle.std.specs.Prelude.{◌≡◌, IfOk};
ghost use Rattle.net_build.specs.Built.{IsBit};
ghost use Rattle.net_build.specs.Values.{Adds};
ghost use Rattle.net_slots.specs.SlotWires.{AreMoveWires};
ghost use Rattle.net_shrink.specs.Between.{AreAsked, IsShrunk, MayShrink};

use crate::lengths::{answer, rest_of_request};
use crate::puts::put_with;
use crate::types::{Answering, Shrunk};
use dip_lists::Memory;
use net_build::{Builder, both};
use net_queue::EdgeWires;
use net_slots::{BuiltSlots, SlotMoves, build_slots};
use std::alloc::Global;

// What the slots go by.
fn ask(
    alloc: Global,
    builder: &mut Builder,
    count: usize,
    bus: u32,
    above: &EdgeWires,
    below: &EdgeWires,
    answering: &Answering,
) -> Result<SlotMoves, Memory>
    requires may { MayShrink builder.old count bus above.now below.now }
    requires frees { IsBit builder.old answering.now.frees }
    ensures adds { IfOk result (λ _. Adds builder.old builder.new) }
    ensures wires { IfOk result (λ m. AreMoveWires builder.new count m.old.width m) }
    ensures asked { IfOk result (λ m. AreAsked builder.new bus above.now below.now answering.now m) }
{
    let wants = both(builder, above.a.valid, below.a.ready)?;
    let head = above.a.head.as_slice();
    let back = below.d.head.as_slice();
    let rest = rest_of_request(alloc, builder, bus, head[0], head[2])?;
    Ok(SlotMoves {
        wants,
        old: head[3],
        rest,
        frees: answering.frees,
        new: back[2],
    })
}

/// A shrinker to so many ids between the open queues of two edges, on a bus of so many bytes: a request gets
/// the lowest free id, a response gives it back with its last beat. It adds no port and drives no earlier
/// register.
pub fn shrink_between(
    alloc: Global,
    builder: &mut Builder,
    count: usize,
    bus: u32,
    above: &EdgeWires,
    below: &EdgeWires,
) -> Result<Shrunk, Memory>
    requires may { MayShrink builder.old count bus above.now below.now }
    ensures adds { IfOk result (λ _. Adds builder.old builder.new) }
    ensures shrunk { IfOk result (λ s. IsShrunk builder.new count bus above.now below.now s) }
{
    let back = below.d.head.as_slice();
    let on = below.a.head.as_slice();
    let answering = answer(
        alloc,
        builder,
        bus,
        below.d.valid,
        above.d.ready,
        back[0],
        back[1],
    )?;
    let moves = ask(alloc, builder, count, bus, above, below, &answering)?;
    let built = build_slots(alloc, builder, count, on[3].width, moves.old.width, &moves)?;
    let down = put_with(
        alloc,
        builder,
        built.wires.passes,
        &above.a.head,
        3,
        built.wires.id,
        &below.a,
    )?;
    let up = put_with(
        alloc,
        builder,
        answering.goes,
        &below.d.head,
        2,
        built.wires.old,
        &above.d,
    )?;
    let BuiltSlots { slots, .. } = built;
    Ok(Shrunk {
        down,
        up,
        moves,
        slots,
        answering,
    })
}
