ghost use Rattle.std.specs.Prelude.{◌≡◌, ◌==◌, ◌&&◌, ◌||◌, IfOk, IsTrue, not, ◌^◌, if◌then◌else◌};
ghost use Rattle.tl_params.specs.Arguments.{is_width};
ghost use Rattle.net_build.specs.Built.{IsBit, IsWire};
ghost use Rattle.net_build.specs.Values.{Adds, Tells, high};
ghost use Rattle.net_lanes.specs.Lanes.{AreTwo};
ghost use Rattle.net_queue.specs.Leaves.{IsPutInto};
ghost use Rattle.net_turns.specs.Turns.{AreHeadWires};
ghost use Rattle.net_sides.specs.Puts.{AreRequestWires, CanTurnDown, IsRequestCycle, IsRequestHead};
ghost use Rattle.net_sides.specs.Sides.{AreRequestsTurned, widths_down};

use crate::puts::{put_request, request_lanes};
use crate::types::{RequestCycle, Requests, SideWires};
use dip_lists::Memory;
use net_build::{Builder, Wire, both};
use net_lanes::{Buses, bytes_of_bus, equals};
use net_queue::Queue;
use net_turns::{Head, turn, turn_lanes};
use net_widget::{asks_with_data, uses_up};
use std::alloc::Global;

// The bytes of the bus onto which beats are put.
pub(crate) fn bytes_out(buses: Buses, widens: bool) -> u32
    requires { AreTwo buses }
    ensures value { result ≡ (if widens then 2 ^ buses.wide else 2 ^ buses.narrow) }
    ensures width { IsTrue (is_width result) }
{
    if widens {
        bytes_of_bus(buses.wide)
    } else {
        bytes_of_bus(buses.narrow)
    }
}

// The wires of the head of requests.
fn request_head(
    builder: &mut Builder,
    buses: Buses,
    widens: bool,
    above: &Queue,
    below: &Queue,
) -> Result<Head, Memory>
    requires can { CanTurnDown builder.old buses widens above.now below.now }
    ensures adds { IfOk result (λ _. Adds builder.old builder.new) }
    ensures wires { IfOk result (λ h. AreHeadWires builder.new h) }
    ensures head { IfOk result (λ h. IsRequestHead builder.new above.now below.now h) }
{
    let row = above.head.as_slice();
    let loaded = asks_with_data(builder, row[0])?;
    Ok(Head {
        valid: above.valid,
        room: below.ready,
        loaded,
        size: row[2],
        address: row[4],
    })
}

// 1 where a move begins a message.
#[tactic(auto, using(net_build::proofs::Steps::steps))]
fn begin(builder: &mut Builder, made: Wire, loaded: Wire, done: Wire) -> Result<Wire, Memory>
    requires bits { IsBit builder.old made × IsBit builder.old loaded }
    requires done { IsWire builder.old done × (done.width ≡ 8) }
    ensures adds { IfOk result (λ _. Adds builder.old builder.new) }
    ensures bit { IfOk result (λ w. IsBit builder.new w) }
    ensures tells { IfOk result (λ w. Tells builder.new w
        (λ v. high v made && (not (high v loaded) || (v done.number == 0)))) }
{
    let idle = equals(builder, done, 0)?;
    let first = uses_up(builder, loaded, idle)?;
    let begins = both(builder, made, first)?;
    Ok(begins)
}

// Channel A in a cycle, where so many narrow beats are done.
fn request_cycle(
    alloc: Global,
    builder: &mut Builder,
    buses: Buses,
    widens: bool,
    above: &Queue,
    below: &Queue,
    done: Wire,
) -> Result<RequestCycle, Memory>
    requires can { CanTurnDown builder.old buses widens above.now below.now }
    requires done { IsWire builder.old done × (done.width ≡ 8) }
    ensures adds { IfOk result (λ _. Adds builder.old builder.new) }
    ensures wires { IfOk result (λ c. AreRequestWires builder.new below.now c) }
    ensures cycle { IfOk result
        (λ c. IsRequestCycle builder.new buses widens above.now below.now done c) }
{
    let narrow = bytes_of_bus(buses.narrow);
    let width = bytes_out(buses, widens);
    let row = above.head.as_slice();
    let head = request_head(builder, buses, widens, above, below)?;
    let turned = turn(alloc, builder, buses, widens, &head, done)?;
    let mask = turn_lanes(alloc, builder, buses, widens, narrow, &turned, row[5])?;
    let payload = turn_lanes(alloc, builder, buses, widens, 8 * narrow, &turned, row[6])?;
    let lanes = request_lanes(alloc, builder, width, &head, mask.lanes, payload.lanes)?;
    let put = put_request(alloc, builder, turned.flow.put, &above.head, &lanes, below)?;
    let begins = begin(builder, turned.flow.made, head.loaded, done)?;
    Ok(RequestCycle {
        head,
        turn: turned,
        mask,
        payload,
        lanes,
        put,
        begins,
    })
}

/// Channel A of an adapter between two queues, on the way to a wider bus or to a narrower one. Its registers
/// are its own.
pub fn turn_requests(
    alloc: Global,
    builder: &mut Builder,
    buses: Buses,
    widens: bool,
    above: &Queue,
    below: &Queue,
) -> Result<Requests, Memory>
    requires can { CanTurnDown builder.old buses widens above.now below.now }
    ensures adds { IfOk result (λ _. Adds builder.old builder.new) }
    ensures bits { IfOk result (λ r. IsBit builder.new r.take × IsBit builder.new r.begins) }
    ensures into { IfOk result (λ r. IsPutInto builder.new below.now r.put) }
    ensures requests { IfOk result
        (λ r. AreRequestsTurned builder.new (widths_down buses widens) above.now below.now r) }
{
    let done = builder.register(8)?;
    let cycle = request_cycle(alloc, builder, buses, widens, above, below, done)?;
    builder.drive(done, cycle.turn.next)?;
    let RequestCycle {
        turn,
        mask,
        payload,
        put,
        begins,
        ..
    } = cycle;
    Ok(Requests {
        take: turn.flow.take,
        put,
        begins,
        side: SideWires {
            done,
            mask: mask.held,
            payload: payload.held,
        },
    })
}
